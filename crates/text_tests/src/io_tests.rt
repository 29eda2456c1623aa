//! Sources and sinks, in memory and of std, whole and failing.

use core_views::NoMemory;
use std::alloc::Global;
use std::io;
use tdp_io::{
    Input, MemSink, MemSource, Output, Pulled, Sink, Source, StdSink, StdSource, Stop, read_all,
    write_all,
};

/// A reader and a writer, whose every call fails.
#[derive(Drop)]
struct Broken;

impl io::Read for Broken {
    fn read(&mut self, _buf: &mut [u8]) -> io::Result<usize> {
        Err(io::ErrorKind::BrokenPipe.into())
    }
}

impl io::Write for Broken {
    fn write(&mut self, _buf: &[u8]) -> io::Result<usize> {
        Err(io::ErrorKind::BrokenPipe.into())
    }

    fn flush(&mut self) -> io::Result<()> {
        Ok(())
    }
}

/// Whether a source reads on after a fault, of 65,536 sevens and three nines: the first read gives the sevens, the second fails.
pub fn reads_nines_after_a_fault(alloc: Global) -> Result<bool, NoMemory> {
    let mut bytes = vec![in alloc; 7; 65_536]?;
    bytes.extend_from_slice(&[9, 9, 9])?;
    let mut source = MemSource::new(bytes, vec![in alloc; 1]?);
    let is_fault = matches!(read_all(alloc, &mut source)?, Input::Fault);
    match read_all(alloc, &mut source)? {
        Input::Bytes(rest) => Ok(is_fault && rest.as_slice() == [9, 9, 9].as_slice()),
        Input::Fault => Ok(false),
    }
}

/// Whether 200,000 bytes are read.
pub fn reads_each_chunk(alloc: Global) -> Result<bool, NoMemory> {
    let bytes = vec![in alloc; 7; 200_000]?;
    let mut source = MemSource::new(bytes, Vec::new(alloc));
    match read_all(alloc, &mut source)? {
        Input::Bytes(read) => Ok(read.len() == 200_000),
        Input::Fault => Ok(false),
    }
}

/// Whether the second write stops at a fault.
pub fn writes_one_of_two(alloc: Global) -> Result<bool, NoMemory> {
    let mut sink = MemSink::new(alloc, vec![in alloc; 1]?);
    if write_all(&mut sink, b"one ").is_err() {
        return Ok(false);
    }
    let is_failed = write_all(&mut sink, b"two ") == Err(Stop::Failed);
    Ok(is_failed && sink.bytes() == b"one ".as_slice())
}

/// Whether it is told that a reader fails, and that a writer does.
pub fn tells_failures() -> bool {
    let mut buf = [0; 2];
    let fails = StdSource::new(Broken).read(&mut buf) == Pulled::Failed;
    fails && StdSink::new(Broken).write(b"abc") == Output::Failed
}

/// Whether a reader gives its bytes, and its end.
pub fn reads_abc() -> bool {
    let mut source = StdSource::new(b"abc".as_slice());
    let mut buf = [0; 2];
    let has_two = source.read(&mut buf) == Pulled::Got(2) && buf == [97, 98];
    let has_one = source.read(&mut buf) == Pulled::Got(1) && buf[0] == 99;
    has_two && has_one && source.read(&mut buf) == Pulled::End
}

/// Whether a writer takes what it has room for. It has room for four bytes, and takes nothing then.
pub fn writes_four() -> bool {
    let mut room = [0; 4];
    let mut sink = StdSink::new(room.as_mut_slice());
    if sink.write(b"abc") != Output::Took(3) || sink.write(b"def") != Output::Took(1) {
        return false;
    }
    let is_failed = sink.write(b"ef") == Output::Failed;
    is_failed && room == [97, 98, 99, 100]
}
