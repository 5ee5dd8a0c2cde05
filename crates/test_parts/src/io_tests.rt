//! A read that fails in mid-stream, where the text comes a byte at a time, and writers that stop.
use std::alloc::{AllocError, Global};
use std::io;
use std::io::{ErrorKind, Read, Write};
use std::test::Fail;
use trace_io::lines::{LineReader, NextLine, NoLine};
use trace_io::sink::{Sink, TrackedSink, WriteFailed, write_all};
use trace_io::source::{Counted, ReadFailed, Source};

// Gives one byte a read, and fails at a read.
#[derive(Drop)]
struct Dripping<'a> {
    bytes: &'a [u8],
    reads: u64,
    fails_at: u64,
}

impl Read for Dripping<'_> {
    fn read(&mut self, buffer: &mut [u8]) -> io::Result<usize> {
        if self.reads >= self.fails_at {
            return Err(io::Error::from(ErrorKind::Other));
        }
        self.reads += 1;
        let Some((first, rest)) = self.bytes.split_first() else {
            return Ok(0);
        };
        if buffer.is_empty() {
            return Ok(0);
        }
        buffer[0] = *first;
        self.bytes = rest;
        Ok(1)
    }
}

// Holds up to three bytes of each write, and takes no byte from a write on.
#[derive(Drop)]
struct Filling {
    held: Vec<u8>,
    writes: u64,
    full_at: u64,
}

impl Write for Filling {
    fn write(&mut self, bytes: &[u8]) -> io::Result<usize> {
        if self.writes >= self.full_at {
            return Ok(0);
        }
        self.writes += 1;
        let count = if bytes.len() < 3 { bytes.len() } else { 3 };
        if self.held.extend_from_slice(&bytes[..count]).is_err() {
            return Err(io::Error::from(ErrorKind::OutOfMemory));
        }
        Ok(count)
    }

    fn flush(&mut self) -> io::Result<()> {
        if self.writes >= self.full_at {
            return Err(io::Error::from(ErrorKind::StorageFull));
        }
        Ok(())
    }
}

fn full_at(alloc: Global, full_at: u64) -> TrackedSink<Filling, Global> {
    let filling = Filling {
        held: Vec::new(alloc),
        writes: 0,
        full_at,
    };
    TrackedSink::unbuffered(alloc, filling)
}

const TEXT: &[u8] = b"vm 1 4\n\nc0 go";

fn drip(bytes: &[u8], fails_at: u64) -> Counted<Dripping<'_>> {
    Counted::new(Dripping {
        bytes,
        reads: 0,
        fails_at,
    })
}

// Whether the next line is this one.
fn next_is<S: Source, W: Sink>(
    lines: &mut LineReader<Global>,
    source: &mut S,
    sink: &mut W,
    line: &[u8],
) -> bool {
    lines.next_line(source, sink) == Ok(NextLine::Line) && lines.line() == line
}

// Whether two lines come, the read fails, and again, and the third line comes once it doesn't.
fn read_failing(alloc: Global) -> Result<[bool; 5], AllocError> {
    let mut lines = LineReader::new(alloc)?;
    let mut source = drip(TEXT, 9);
    let mut sink = full_at(alloc, 1);
    let first = lines.next_line(&mut source, &mut sink) == Ok(NextLine::Line);
    let second = lines.next_line(&mut source, &mut sink) == Ok(NextLine::Line);
    let failed = lines.next_line(&mut source, &mut sink);
    let fails = failed == Err(NoLine::ReadFailed) && source.failed;
    let again = lines.next_line(&mut source, &mut sink) == Err(NoLine::ReadFailed);
    source.reader.fails_at = 100;
    let goes_on = next_is(&mut lines, &mut source, &mut sink, b"c0 go");
    Ok([first, second, fails, again, goes_on])
}

#[test]
fn a_failed_read_loses_no_byte(rt: HostRuntime) -> Result<(), Fail> {
    assert!(rt; read_failing(rt.alloc())? == [true, true, true, true, true]);
    Ok(())
}

#[test]
fn no_read_past_the_limit(rt: HostRuntime) -> Result<(), Fail> {
    let mut source = Counted::new(TEXT);
    source.reads = 4_294_967_295;
    let mut buffer = [0; 4];
    let first = source.read(&mut buffer);
    let second = source.read(&mut buffer);
    assert!(rt; (first, second, source.failed) == (Ok(4), Err(ReadFailed), false));
    assert_eq!(rt; source.reader, b" 4\n\nc0 go".as_slice());
    Ok(())
}

// Both lines come by the first read. Before the second read the text must go out, so a writer that
// fails at its flush stops there.
fn written_goes_out(alloc: Global) -> Result<[bool; 5], AllocError> {
    let mut lines = LineReader::new(alloc)?;
    let mut source = Counted::new(b"c0 go\nc1 go\nc2".as_slice());
    let mut sink = full_at(alloc, 1);
    let first = lines.next_line(&mut source, &mut sink) == Ok(NextLine::Line);
    let is_held = write_all(&mut sink, b"ok\n") == Ok(()) && !sink.flushed;
    let second = lines.next_line(&mut source, &mut sink) == Ok(NextLine::Line) && source.reads == 1;
    let stops = lines.next_line(&mut source, &mut sink) == Err(NoLine::WriteFailed)
        && sink.failed
        && source.reads == 1;
    sink.writer.get_mut().full_at = 2;
    let goes_on = next_is(&mut lines, &mut source, &mut sink, b"c2") && sink.flushed;
    Ok([first, is_held, second, stops, goes_on])
}

#[test]
fn what_was_written_goes_out_before_a_read(rt: HostRuntime) -> Result<(), Fail> {
    assert!(rt; written_goes_out(rt.alloc())? == [true, true, true, true, true]);
    Ok(())
}

// What two texts and a flush after each come to, and whether the second text failed by itself.
fn write_twice(sink: &mut TrackedSink<Filling, Global>) -> ([Result<(), WriteFailed>; 4], bool) {
    let first = write_all(sink, b"done\n");
    let flushed = sink.flush();
    let second = write_all(sink, b"segv maperr\n");
    let has_failed = sink.failed;
    ([first, flushed, second, sink.flush()], has_failed)
}

#[test]
fn a_write_that_takes_no_byte_fails(rt: HostRuntime) {
    let mut sink = full_at(rt.alloc(), 4);
    let (done, has_failed) = write_twice(&mut sink);
    assert!(rt; has_failed && done == [Ok(()), Ok(()), Err(WriteFailed), Err(WriteFailed)]);
    assert_eq!(rt;
        sink.writer.get_ref().held.as_slice(),
        b"done\nsegv m".as_slice()
    );
}
