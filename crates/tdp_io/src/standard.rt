ghost use Rattle.std.specs.Prelude.{◌≡◌, ◌<◌, None, false, length};
ghost use Rattle.tdp_io.specs.Ends.{Pulls, PullFaults, is_end, Puts, PutFaults, is_write_fault};
ghost use Rattle.tdp_io.specs.Standard.{NeedsNoMemory};

use crate::{Output, Pulled, Sink, Source};
use std::io::{Read, Write};
use std::marker::Model;

/// A reader of std as a source. What the source has left is not told, though
/// what the reader has left is, where the reader tells it.
#[derive(Drop)]
pub struct StdSource<R: Read + Drop> {
    inner: R,
    faults: u64,
    ended: bool,
}

impl<R: Read + Drop> Model for StdSource<R> {
    ghost use Rattle.tdp_io.specs.Standard.{ReaderState};

    ghost Value = { ReaderState };

    ghost view = { λ s. record { remaining = R.remaining s.inner; faults = s.faults; ended = s.ended } };
}

impl<R: Read + Drop> StdSource<R> {
    /// A source that has seen no fault and has not ended.
    pub fn new(inner: R) -> Self
        ensures { result ≡ record { remaining = R.remaining inner; faults = 0; ended = false } }
    {
        StdSource {
            inner,
            faults: 0,
            ended: false,
        }
    }
}

impl<R: Read + Drop> Source for StdSource<R> {
    ghost left = { λ _. None };

    ghost faults = { λ s. s.faults };

    ghost ended = { λ s. s.ended };

    /// Makes one call of the reader. An `Err` of any kind is a fault, and a
    /// read of no bytes is the end.
    fn read(&mut self, buf: &mut [u8]) -> Pulled
        requires { 0 < length buf.old }
        ensures bytes { Pulls None None result buf.new }
        ensures faults { PullFaults self.old.faults self.new.faults result }
        ensures ended { self.new.ended ≡ is_end result }
        ensures inner { Pulls self.old.remaining self.new.remaining result buf.new }
    {
        self.ended = false;
        match self.inner.read(buf) {
            Ok(0) => {
                self.ended = true;
                Pulled::End
            }
            Ok(count) => Pulled::Got(count),
            Err(_) => {
                self.faults = self.faults.saturating_add(1);
                Pulled::Failed
            }
        }
    }
}

/// A writer of std as a sink. What was written is not told, though what the
/// writer holds is, where the writer tells it.
#[derive(Drop)]
pub struct StdSink<W: Write + Drop> {
    inner: W,
    faults: u64,
    failed: bool,
}

impl<W: Write + Drop> Model for StdSink<W> {
    ghost use Rattle.tdp_io.specs.Standard.{WriterState};

    ghost Value = { WriterState };

    ghost view = { λ s. record { contents = W.contents s.inner; faults = s.faults; failed = s.failed } };
}

impl<W: Write + Drop> StdSink<W> {
    /// A sink that has seen no fault.
    pub fn new(inner: W) -> Self
        ensures { result ≡ record { contents = W.contents inner; faults = 0; failed = false } }
    {
        StdSink {
            inner,
            faults: 0,
            failed: false,
        }
    }
}

impl<W: Write + Drop> Sink for StdSink<W> {
    ghost written = { λ _. None };

    ghost faults = { λ s. s.faults };

    ghost failed = { λ s. s.failed };

    /// Makes one call of the writer. An `Err` of any kind is a fault, and so is
    /// a write that takes nothing. It never answers `NoMemory`.
    fn write(&mut self, piece: &[u8]) -> Output
        requires piece { 0 < length piece.now }
        requires unfailed { self.old.failed ≡ false }
        ensures bytes { Puts None None result piece.now }
        ensures faults { PutFaults self.old.faults self.new.faults result }
        ensures failed { self.new.failed ≡ is_write_fault result }
        ensures memory { NeedsNoMemory result }
        ensures inner { Puts self.old.contents self.new.contents result piece.now }
    {
        match self.inner.write(piece) {
            Ok(0) | Err(_) => {
                self.faults = self.faults.saturating_add(1);
                self.failed = true;
                Output::Failed
            }
            Ok(count) => Output::Took(count),
        }
    }
}
