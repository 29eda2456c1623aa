ghost use Rattle.std.specs.Prelude.{◌≡◌, ◌<◌, Bool, List, ℕ, false, length};
ghost use Rattle.std.specs.declared.option.Option.{Option};
ghost use Rattle.tdp_io.specs.Ends.{Puts, PutFaults, Wrote, WroteFaults, is_failed, is_write_fault};

/// What one write answers.
#[derive(Clone, Copy, Debug, PartialEq, Eq, Drop)]
pub enum Output {
    /// So many bytes of the piece, from its start and at least one, are written.
    Took(usize),
    /// The write failed, and wrote nothing that is told.
    Failed,
    /// Memory was refused, and nothing was written.
    NoMemory,
}

/// Where bytes go to.
pub trait Sink {
    /// The bytes that were written, where they are told.
    ghost written: { Self → Option (List ℕ) };

    /// A count that rises with each failed call and never falls.
    ghost faults: { Self → ℕ };

    /// Whether a write has failed so far. After that there is none.
    ghost failed: { Self → Bool };

    /// Writes once, from the start of `piece`, which must not be empty, to a
    /// sink of which no write has failed. `Took` comes with 1 up to `piece.len()`
    /// bytes, and `Failed` only where the count of faults rose.
    fn write(&mut self, piece: &[u8]) -> Output
        requires piece { 0 < length piece.now }
        requires unfailed { failed self.old ≡ false }
        ensures bytes { Puts (written self.old) (written self.new) result piece.now }
        ensures faults { PutFaults (faults self.old) (faults self.new) result }
        ensures failed { failed self.new ≡ is_write_fault result };
}

/// Why the writing of a text stopped early.
#[derive(Clone, Copy, Debug, PartialEq, Eq, Drop)]
pub enum Stop {
    /// A write failed.
    Failed,
    /// Memory was refused.
    NoMemory,
}

/// Writes the whole text, in as many calls as the sink makes of it. It stops
/// at the first call that takes nothing: then a prefix of the text is written.
pub fn write_all<K: Sink>(out: &mut K, text: &[u8]) -> Result<(), Stop>
    requires unfailed { K.failed out.old ≡ false }
    ensures bytes { Wrote (K.written out.old) (K.written out.new) result text.now }
    ensures faults { WroteFaults (K.faults out.old) (K.faults out.new) result }
    ensures failed { K.failed out.new ≡ is_failed result }
{
    let mut at = 0;
    while at < text.len() {
        match out.write(&text[at..]) {
            Output::Took(count) => at += count,
            Output::Failed => return Err(Stop::Failed),
            Output::NoMemory => return Err(Stop::NoMemory),
        }
    }
    Ok(())
}
