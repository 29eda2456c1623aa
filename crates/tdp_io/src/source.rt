ghost use Rattle.std.specs.Prelude.{◌≡◌, ◌≤◌, ◌<◌, Bool, List, ℕ, length, take, IfOk, OnErr, vec_len};
ghost use Rattle.std.specs.declared.option.Option.{Option};
ghost use Rattle.tdp_io.specs.Ends.{Pulls, PullFaults, is_end, Read, ReadFaults};
ghost use Rattle.tdp_io.specs.Steps.{Gains};

use core_views::NoMemory;
use std::alloc::Global;

/// What one read answers.
#[derive(Clone, Copy, Debug, PartialEq, Eq, Drop)]
pub enum Pulled {
    /// So many bytes, at least one, stand at the start of the buffer.
    Got(usize),
    /// Nothing is left.
    End,
    /// The read failed, and took nothing.
    Failed,
}

/// Where bytes come from.
pub trait Source {
    /// The bytes that are left, where they are told.
    ghost left: { Self → Option (List ℕ) };

    /// A count that rises with each failed call and never falls.
    ghost faults: { Self → ℕ };

    /// The last read answered `End`.
    ghost ended: { Self → Bool };

    /// Reads once, into the start of `buf`, which must have room for a byte.
    /// `Got` comes with 1 up to `buf.len()` bytes, `End` only where nothing
    /// is left, and `Failed` only where the count of faults rose.
    fn read(&mut self, buf: &mut [u8]) -> Pulled
        requires { 0 < length buf.old }
        ensures bytes { Pulls (left self.old) (left self.new) result buf.new }
        ensures faults { PullFaults (faults self.old) (faults self.new) result }
        ensures ended { ended self.new ≡ is_end result };
}

/// The most bytes that `read_all` reads: one more than 16 MiB, so that a
/// caller sees which input is longer than that.
pub const LIMIT: usize = 16_777_217;

// The most bytes that one read is asked for.
const CHUNK: usize = 65_536;

/// What reading a whole input answers.
#[derive(Drop)]
pub enum Input {
    /// All that was left, or the first `LIMIT` bytes of it.
    Bytes(Vec<u8>),
    /// A read failed. The bytes before it are lost.
    Fault,
}

// So many zeros.
fn zeros(alloc: Global, count: usize) -> Result<Vec<u8>, NoMemory>
    ensures { IfOk result (λ v. vec_len v ≡ count) }
{
    Ok(vec![in alloc; 0; count]?)
}

// Reads once, and puts what came after the bytes that are there.
fn pull<S: Source>(src: &mut S, chunk: &mut [u8], bytes: &mut Vec<u8>) -> Result<Pulled, NoMemory>
    requires { 0 < length chunk.old }
    ensures bytes { Gains (S.left src.old) (S.left src.new) (length chunk.old) bytes.old.items bytes.new.items result }
    ensures faults { IfOk result (PullFaults (S.faults src.old) (S.faults src.new)) }
    ensures kept { OnErr result (S.faults src.new ≡ S.faults src.old) }
    ensures ended { IfOk result (λ pulled. S.ended src.new ≡ is_end pulled) }
{
    let pulled = src.read(chunk);
    if let Pulled::Got(count) = pulled {
        bytes.extend_from_slice(&chunk[..count])?;
    }
    Ok(pulled)
}

/// Reads until the source ends or `LIMIT` bytes are read, and answers the
/// bytes, or `Fault` as soon as a read fails. It never takes more than `LIMIT`
/// bytes. `NoMemory` may come at any byte, and leaves the count of faults.
pub fn read_all<S: Source>(alloc: Global, src: &mut S) -> Result<Input, NoMemory>
    ensures bytes { Read (S.left src.old) (S.left src.new) (S.ended src.new) result }
    ensures faults { ReadFaults (S.faults src.old) (S.faults src.new) result }
{
    let mut bytes = Vec::new(alloc);
    let mut chunk = zeros(alloc, CHUNK)?;
    while bytes.len() < LIMIT {
        let want = CHUNK.min(LIMIT - bytes.len());
        match pull(src, &mut chunk[..want], &mut bytes)? {
            Pulled::Got(_) => {}
            Pulled::End => return Ok(Input::Bytes(bytes)),
            Pulled::Failed => return Ok(Input::Fault),
        }
    }
    Ok(Input::Bytes(bytes))
}
