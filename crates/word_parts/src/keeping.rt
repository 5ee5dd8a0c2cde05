//! A reader that keeps the end of what it gave, for who tells more of a fault than its text.
ghost use Rattle.std.specs.Prelude.{◌≡◌};

use std::alloc::Global;
use std::io;
use std::io::{ErrorKind, Read};

// How many bytes are kept at most, where not all are, and how many of them stay where there are more: twice as many as are
// read at once, so that the line at which a text ends early is among them.
const MOST: usize = 262_144;

const LAST: usize = 131_072;

/// How much of a text is kept.
#[derive(Clone, Copy)]
pub enum Keeps {
    /// Nothing.
    Nothing,
    /// The end of it.
    End,
    /// All of it.
    All,
}

/// What is kept of a text. Where no memory is left for it, nothing is.
#[derive(Drop)]
pub struct KeptText {
    keeps: Keeps,
    text: Vec<u8>,
    // How many lines end before it.
    before: u64,
}

// How many newlines these bytes have.
fn newlines_in(bytes: &[u8]) -> u64 {
    let mut count = 0u64;
    for byte in bytes {
        if *byte == b'\n' {
            count = count.saturating_add(1);
        }
    }
    count
}

impl KeptText {
    ghost use Rattle.std.specs.Prelude.{◌≡◌};

    // Nothing is kept yet.
    fn new(alloc: Global, keeps: Keeps) -> KeptText {
        KeptText {
            keeps,
            text: Vec::new(alloc),
            before: 0,
        }
    }

    // Nothing is kept any more.
    fn give_up(&mut self) {
        self.keeps = Keeps::Nothing;
        self.text.clear();
    }

    // Drops all but the end.
    fn shorten(&mut self, alloc: Global) {
        let (front, end) = self.text.split_at(self.text.len().saturating_sub(LAST));
        let lines = newlines_in(front);
        let mut text = Vec::new(alloc);
        let is_whole = text.extend_from_slice(end).is_ok();
        self.before = self.before.saturating_add(lines);
        self.text = text;
        if !is_whole {
            self.give_up();
        }
    }

    // Adds bytes that were read.
    fn add(&mut self, alloc: Global, bytes: &[u8]) {
        if self.keeps == Keeps::Nothing {
            return;
        }
        if self.keeps == Keeps::End && self.text.len() > MOST {
            self.shorten(alloc);
        }
        if self.text.extend_from_slice(bytes).is_err() {
            self.give_up();
        }
    }

    /// The text that is kept.
    pub fn text(&self) -> &[u8]
        ensures { result.now ≡ self.now.text.items }
    {
        self.text.as_slice()
    }

    /// How many lines end before it.
    pub fn before(&self) -> u64
        ensures { result ≡ self.now.before }
    {
        self.before
    }

    /// The line with this number, counted from 1, where it is kept.
    pub fn line(&self, number: u64) -> Option<&[u8]> {
        let mut at = self.before;
        for line in self.text.as_slice().split(|byte| *byte == b'\n') {
            at = at.saturating_add(1);
            if at == number {
                return Some(line);
            }
        }
        None
    }
}

/// A reader that keeps the end of what it gave, and why a read failed.
#[derive(Drop)]
pub struct Keeping<R> {
    reader: R,
    alloc: Global,
    /// What is kept.
    pub kept: KeptText,
    /// Why the last read failed, where one did.
    pub cause: Option<ErrorKind>,
}

impl<R: Read> Keeping<R> {
    ghost use Rattle.std.specs.Prelude.{◌≡◌, None};

    /// The reader, before its first read.
    pub fn new(alloc: Global, reader: R, keeps: Keeps) -> Keeping<R>
        ensures reader { result.reader ≡ reader }
        ensures cause { result.cause ≡ None }
    {
        Keeping {
            reader,
            alloc,
            kept: KeptText::new(alloc, keeps),
            cause: None,
        }
    }
}

impl<R: Read> Read for Keeping<R> {
    ghost remaining = { λ k. R.remaining k.reader };

    fn read(&mut self, buffer: &mut [u8]) -> io::Result<usize> {
        match self.reader.read(buffer) {
            Ok(count) => {
                self.kept.add(self.alloc, &buffer[..count]);
                Ok(count)
            }
            Err(error) => {
                self.cause = Some(error.kind());
                Err(error)
            }
        }
    }
}
