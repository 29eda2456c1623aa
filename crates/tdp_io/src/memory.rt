ghost use Rattle.std.specs.Prelude.{◌≡◌, ◌<◌, Some, [], false, length};
ghost use Rattle.tdp_io.specs.Ends.{Pulls, PullFaults, is_end, Puts, PutFaults, is_write_fault};
ghost use Rattle.tdp_io.specs.Memory.{is_failing, next_call, is_read_fault, FillsRoom, TakesWhole};

use crate::{Output, Pulled, Sink, Source};
use std::alloc::Global;
use std::marker::Model;

/// Bytes in memory, of which a read gives as many as are left and fit. Chosen
/// calls fail.
#[derive(Drop)]
pub struct MemSource {
    bytes: Vec<u8>,
    at: usize,
    failing: Vec<u64>,
    calls: u64,
    faults: u64,
    ended: bool,
}

impl Model for MemSource {
    ghost use Rattle.std.specs.Prelude.{◌≤◌, vec_len, drop};
    ghost use Rattle.tdp_io.specs.Memory.{Supply};

    ghost Value = { Supply };

    ghost view = { λ s. record {
      left = drop s.at s.bytes.items;
      failing = s.failing.items;
      calls = s.calls;
      faults = s.faults;
      ended = s.ended;
    } };

    ghost invariant = { λ s. s.at ≤ vec_len s.bytes };
}

impl MemSource {
    /// A source of these bytes. Its reads are numbered from 0, and those whose
    /// numbers are in `failing` fail.
    pub fn new(bytes: Vec<u8>, failing: Vec<u64>) -> Self
        ensures { result ≡ record { left = bytes.items; failing = failing.items; calls = 0; faults = 0; ended = false } }
    {
        MemSource {
            bytes,
            at: 0,
            failing,
            calls: 0,
            faults: 0,
            ended: false,
        }
    }
}

impl Source for MemSource {
    ghost left = { λ s. Some s.left };

    ghost faults = { λ s. s.faults };

    ghost ended = { λ s. s.ended };

    /// Fails where the number of the call is in `failing`, and only there. With
    /// no such numbers the count of faults stays.
    fn read(&mut self, buf: &mut [u8]) -> Pulled
        requires { 0 < length buf.old }
        ensures bytes { Pulls (Some self.old.left) (Some self.new.left) result buf.new }
        ensures faults { PullFaults self.old.faults self.new.faults result }
        ensures ended { self.new.ended ≡ is_end result }
        ensures fails { is_read_fault result ≡ is_failing self.old.failing self.old.calls }
        ensures room { FillsRoom self.old.left (length buf.old) result }
        ensures failing { self.new.failing ≡ self.old.failing }
        ensures calls { self.new.calls ≡ next_call self.old.calls }
        ensures faultless { self.old.failing ≡ [] → self.new.faults ≡ self.old.faults }
    {
        let call = self.calls;
        self.calls = self.calls.saturating_add(1);
        self.ended = false;
        if self.failing.contains(&call) {
            self.faults = self.faults.saturating_add(1);
            return Pulled::Failed;
        }
        let rest = &self.bytes[self.at..];
        let count = rest.len().min(buf.len());
        if count == 0 {
            self.ended = true;
            return Pulled::End;
        }
        buf[..count].copy_from_slice(&rest[..count]);
        self.at += count;
        Pulled::Got(count)
    }
}

/// What is written, kept in memory. A write takes the whole piece. Chosen
/// calls fail.
#[derive(Drop)]
pub struct MemSink {
    bytes: Vec<u8>,
    failing: Vec<u64>,
    calls: u64,
    faults: u64,
    failed: bool,
}

impl Model for MemSink {
    ghost use Rattle.tdp_io.specs.Memory.{Store};

    ghost Value = { Store };

    ghost view = { λ s. record {
      bytes = s.bytes.items;
      failing = s.failing.items;
      calls = s.calls;
      faults = s.faults;
      failed = s.failed;
    } };
}

impl MemSink {
    /// An empty sink. Its writes are numbered from 0, and those whose numbers
    /// are in `failing` fail.
    pub fn new(alloc: Global, failing: Vec<u64>) -> Self
        ensures { result ≡ record { bytes = []; failing = failing.items; calls = 0; faults = 0; failed = false } }
    {
        MemSink {
            bytes: Vec::new(alloc),
            failing,
            calls: 0,
            faults: 0,
            failed: false,
        }
    }

    /// All that was written.
    pub fn bytes(&self) -> &[u8]
        ensures { result.now ≡ self.now.bytes }
    {
        &self.bytes
    }
}

impl Sink for MemSink {
    ghost written = { λ s. Some s.bytes };

    ghost faults = { λ s. s.faults };

    ghost failed = { λ s. s.failed };

    /// Fails where the number of the call is in `failing`, and only there. With
    /// no such numbers the count of faults stays.
    fn write(&mut self, piece: &[u8]) -> Output
        requires piece { 0 < length piece.now }
        requires unfailed { self.old.failed ≡ false }
        ensures bytes { Puts (Some self.old.bytes) (Some self.new.bytes) result piece.now }
        ensures faults { PutFaults self.old.faults self.new.faults result }
        ensures failed { self.new.failed ≡ is_write_fault result }
        ensures fails { is_write_fault result ≡ is_failing self.old.failing self.old.calls }
        ensures whole { TakesWhole piece.now result }
        ensures failing { self.new.failing ≡ self.old.failing }
        ensures calls { self.new.calls ≡ next_call self.old.calls }
        ensures faultless { self.old.failing ≡ [] → self.new.faults ≡ self.old.faults }
    {
        let call = self.calls;
        self.calls = self.calls.saturating_add(1);
        if self.failing.contains(&call) {
            self.faults = self.faults.saturating_add(1);
            self.failed = true;
            return Output::Failed;
        }
        match self.bytes.extend_from_slice(piece) {
            Ok(()) => Output::Took(piece.len()),
            Err(_) => Output::NoMemory,
        }
    }
}
