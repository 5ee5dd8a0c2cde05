//! Streams that fail, and the program over them.
use command_line::command::program;
use command_line::output::Noted;
use command_line::terminals::NO_TERMINALS;
use live_script::InTurn;
use std::alloc::{Allocator, Global};
use std::env::{Env, FillError};
use std::io;
use std::io::{ErrorKind, Read, Write};
use std::sync::Wait;
use std::thread::Threads;
use trace_io::sink::TrackedSink;
use word_parts::input::Files;

/// At which read and write the streams fail.
#[derive(Clone, Copy)]
pub struct Limits {
    /// So many reads give a byte each, or the end.
    pub reads: u64,
    /// So many writes are taken.
    pub writes: u64,
    /// The write behind them fails; else it takes no byte.
    pub fails: bool,
    /// A flush fails.
    pub is_closed: bool,
}

/// Streams that don't fail.
pub const AMPLE: Limits = Limits {
    reads: 1_000_000,
    writes: 1_000_000,
    fails: true,
    is_closed: false,
};

/// Gives one byte a read, and fails at a read.
#[derive(Drop)]
pub struct Dripping<'a> {
    bytes: &'a [u8],
    reads: u64,
    fails_at: u64,
}

impl Read for Dripping<'_> {
    fn read(&mut self, buffer: &mut [u8]) -> io::Result<usize> {
        if self.reads >= self.fails_at {
            return Err(io::Error::from(ErrorKind::Other));
        }
        self.reads += 1;
        let Some((first, rest)) = self.bytes.split_first() else {
            return Ok(0);
        };
        if buffer.is_empty() {
            return Ok(0);
        }
        buffer[0] = *first;
        self.bytes = rest;
        Ok(1)
    }
}

/// Holds what it was given, and from a write on fails or takes no byte. A flush may fail too.
#[derive(Drop)]
pub struct Filling {
    held: Vec<u8>,
    writes: u64,
    full_at: u64,
    fails: bool,
    is_closed: bool,
}

impl Write for Filling {
    fn write(&mut self, bytes: &[u8]) -> io::Result<usize> {
        if self.writes >= self.full_at {
            if self.fails {
                return Err(io::Error::from(ErrorKind::StorageFull));
            }
            return Ok(0);
        }
        self.writes += 1;
        if self.held.extend_from_slice(bytes).is_err() {
            return Err(io::Error::from(ErrorKind::OutOfMemory));
        }
        Ok(bytes.len())
    }

    fn flush(&mut self) -> io::Result<()> {
        if self.is_closed {
            return Err(io::Error::from(ErrorKind::BrokenPipe));
        }
        Ok(())
    }
}

// The words of a command line, with a space between them; an empty one ends them.
#[derive(Drop)]
struct Words<'a> {
    words: &'a str,
}

impl Env for Words<'_> {
    fn arg(&self, i: usize, buffer: &mut [u8]) -> Result<usize, FillError> {
        let word = self.words.split(' ').nth(i).unwrap_or("").as_bytes();
        if word.is_empty() {
            return Err(FillError::NotPresent);
        }
        if word.len() > buffer.len() {
            return Err(FillError::TooLong);
        }
        buffer[..word.len()].copy_from_slice(word);
        Ok(word.len())
    }

    fn var(&self, _name: &str, _buffer: &mut [u8]) -> Result<usize, FillError> {
        Err(FillError::NotPresent)
    }

    fn var_at(&self, _i: usize, _buffer: &mut [u8]) -> Result<usize, FillError> {
        Err(FillError::NotPresent)
    }
}

/// What was written on both outputs, in how many writes on the first, and the status.
#[derive(Drop)]
pub struct Ran {
    pub out: Vec<u8>,
    pub writes: u64,
    pub errors: Vec<u8>,
    pub status: u8,
}

/// A reader of these bytes.
pub fn dripping_of(input: &[u8], limits: Limits) -> Dripping<'_> {
    Dripping {
        bytes: input,
        reads: 0,
        fails_at: limits.reads,
    }
}

/// A writer without a buffer, which holds what it took.
pub fn sink_of(alloc: Global, limits: Limits) -> TrackedSink<Noted<Filling>, Global> {
    let filling = Filling {
        held: Vec::new(alloc),
        writes: 0,
        full_at: limits.writes,
        fails: limits.fails,
        is_closed: limits.is_closed,
    };
    TrackedSink::unbuffered(alloc, Noted::new(filling))
}

/// What came of a writer.
pub fn ran_of(out: TrackedSink<Noted<Filling>, Global>, errors: Vec<u8>, status: u8) -> Ran {
    let filling = out.writer.into_parts().0.into_inner();
    Ran {
        writes: filling.writes,
        out: filling.held,
        errors,
        status,
    }
}

/// The program with these words, the program's name first, over such streams; a script's cores run one after another.
pub fn run_words<A: Allocator, T: Files + Threads + Wait + Sync>(
    (alloc, rt): (Global, &T),
    for_words: &A,
    words: &str,
    input: &[u8],
    limits: Limits,
) -> Ran {
    let mut out = sink_of(alloc, limits);
    let mut errors = Vec::new(alloc);
    let status = program(
        Words { words },
        for_words,
        alloc,
        (rt, rt, &InTurn),
        dripping_of(input, limits),
        &mut out,
        &mut errors,
        NO_TERMINALS,
    );
    ran_of(out, errors, status)
}

/// The row's lines, which stand with `; ` between them, each with its newline.
pub fn text_of(alloc: Global, row: &str) -> Option<Vec<u8>> {
    let mut text = Vec::new(alloc);
    for line in row.split("; ") {
        if text.extend_from_slice(line.as_bytes()).is_err() || text.push(b'\n').is_err() {
            return None;
        }
    }
    Some(text)
}
