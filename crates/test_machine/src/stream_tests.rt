//! Replays of text that comes line by line, as at a terminal, to a writer whose flushes fail. Reads and writes that fail are tried by
//! `test_words`.
use std::alloc::Global;
use std::io;
use std::io::{ErrorKind, Read, Write};
use trace::replay::replay;
use trace_io::sink::TrackedSink;
use trace_io::source::Counted;
use trace_words::fault::TraceFault;
use trace_words::show::Show;

const PLAIN: &[u8] =
    b"vm 1 1 3\nc0! mmap 0x10000 4096 rw- pfa\nc0! mmap 0x20000 4096 rw- pfa\nc0! store 0x10000 7\n";

const WHOLE: &[u8] = b"0x10000\n0x20000\ndone\n";

// Gives up to a newline with each read, as a person at a terminal does.
#[derive(Drop)]
struct Typed<'a> {
    bytes: &'a [u8],
}

impl Read for Typed<'_> {
    fn read(&mut self, buffer: &mut [u8]) -> io::Result<usize> {
        let count = match self.bytes.iter().position(|b| *b == b'\n') {
            Some(place) => place + 1,
            None => self.bytes.len(),
        };
        if count > buffer.len() {
            return Err(io::Error::from(ErrorKind::Other));
        }
        buffer[..count].copy_from_slice(&self.bytes[..count]);
        self.bytes = &self.bytes[count..];
        Ok(count)
    }
}

// Holds what it was given, and fails at the flush with this number, counted from 0, and at each
// later one.
#[derive(Drop)]
struct Closing {
    held: Vec<u8>,
    flushes: u64,
    fails_at: u64,
}

impl Write for Closing {
    fn write(&mut self, bytes: &[u8]) -> io::Result<usize> {
        if self.held.extend_from_slice(bytes).is_err() {
            return Err(io::Error::from(ErrorKind::OutOfMemory));
        }
        Ok(bytes.len())
    }

    fn flush(&mut self) -> io::Result<()> {
        if self.flushes >= self.fails_at {
            return Err(io::Error::from(ErrorKind::StorageFull));
        }
        self.flushes += 1;
        Ok(())
    }
}

fn failing_at(alloc: Global, fails_at: u64) -> TrackedSink<Closing, Global> {
    let closing = Closing {
        held: Vec::new(alloc),
        flushes: 0,
        fails_at,
    };
    TrackedSink::unbuffered(alloc, closing)
}

/// Tells whether a replay of lines that are typed, to a writer that fails at this flush, ends so: with this fault, these bytes held, and
/// after so many reads.
fn ends_so(
    alloc: Global,
    trace: &[u8],
    fails_at: u64,
    (fault, held, reads): (Option<TraceFault>, &[u8], u64),
) -> bool {
    let mut reader = Counted::new(Typed { bytes: trace });
    let mut writer = failing_at(alloc, fails_at);
    let told = match replay(alloc, &mut reader, &mut writer, Show::Outcomes) {
        Ok(()) => None,
        Err(fault) => Some(fault),
    };
    told == fault && writer.writer.get_ref().held.as_slice() == held && reader.reads == reads
}

// Each line comes by a read, and before each read what was written goes out, as at the end of the text.
#[test]
fn replies_go_out_before_the_next_read(rt: HostRuntime) {
    let failed = Some(TraceFault::WriteFailed);
    for (flushes, came) in [
        (0, (failed, b"".as_slice(), 0)),
        (1, (failed, b"".as_slice(), 1)),
        (2, (failed, b"0x10000\n".as_slice(), 2)),
        (3, (failed, b"0x10000\n0x20000\n".as_slice(), 3)),
        (4, (failed, WHOLE, 4)),
        (5, (failed, WHOLE, 5)),
        (6, (None, WHOLE, 5)),
    ] {
        assert!(rt; ends_so(rt.alloc(), PLAIN, flushes, came));
    }
}

// The first flush is before the first line is read, the second before the last one and the text's end are, and the third after the fault.
#[test]
fn a_failing_flush_is_told_after_a_fault(rt: HostRuntime) {
    let text = b"vm 1 1\nfrob".as_slice();
    for (flushes, fault) in [(2, TraceFault::WriteFailed), (3, TraceFault::BadLine(2))] {
        let came = (Some(fault), b"".as_slice(), 3);
        assert!(rt; ends_so(rt.alloc(), text, flushes, came));
    }
}
