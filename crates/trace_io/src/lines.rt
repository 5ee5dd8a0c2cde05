//! Lines of at most 256 bytes, read in chunks of fixed size: once made, a reader of lines takes no
//! memory. Before it reads, what was written goes out.
//!
//! A space before `#` makes a line with words. An interrupted read is a failed one. Nothing is read after a text's
//! end.
ghost use Rattle.std.specs.Prelude.{◌≡◌, ◌+◌, ◌-◌, ◌<◌, ◌≤◌, ◌^◌, ◌∷◌, length, take};
ghost use Rattle.std.specs.Prelude.{drop, slice_range, IfOk, IfSome, OnOk, OnErr};
ghost use Rattle.trace_io.specs.Lines.{lines_of};
ghost use Rattle.trace_io.specs.Source.{Gives, HasEnded, HasStopped, read_bytes};
ghost use Rattle.trace_io.specs.Window.{opening};

use crate::sink::Sink;
use crate::source::{ReadFailed, Source};
use memchr::memchr;
use std::alloc::{AllocError, Allocator};
use std::marker::Model;

/// How many bytes a line may have without its newline.
pub const LINE_LIMIT: usize = 256;

/// How many bytes are read at once.
const CHUNK: usize = 65_536;

// What the bytes held begin with: a line and its newline, more bytes without one than a line may
// have, or neither.
#[derive(Clone, Copy)]
enum Scan {
    Line,
    TooLong,
    Nothing,
}

/// What the text goes on with.
#[derive(Clone, Copy, PartialEq, Eq)]
pub enum NextLine {
    /// A line of at most `LINE_LIMIT` bytes. The last line need not have a newline.
    Line,
    /// A line of more bytes, which isn't taken.
    TooLong,
    /// No byte is left.
    End,
}

/// Why the next line wasn't found.
#[derive(Clone, Copy, PartialEq, Eq)]
pub enum NoLine {
    /// A read failed, or one more than `READ_LIMIT` was due.
    ReadFailed,
    /// A read was due, and what was written before could not go out.
    WriteFailed,
}

/// The lines of a reader, one at a time.
#[derive(Drop)]
pub struct LineReader<A: Allocator> {
    chunk: Vec<u8, A>,
    line_start: usize,
    line_end: usize,
    start: usize,
    end: usize,
}

impl<A: Allocator> Model for LineReader<A> {
    ghost use Rattle.std.specs.Prelude.{◌≡◌, ◌≤◌, length, slice_range};
    ghost use Rattle.trace_io.specs.Window.{Window};

    ghost Value = { Window };

    ghost view = { λ s. record {
      line = slice_range s.chunk.items s.line_start s.line_end;
      held = slice_range s.chunk.items s.start s.end;
    } };

    ghost invariant = { λ s. (s.line_start ≤ s.line_end) × (s.line_end ≤ length s.chunk.items)
        × (s.start ≤ s.end) × (s.end ≤ length s.chunk.items) × (length s.chunk.items ≡ 65536) };
}

impl<A: Allocator> LineReader<A> {
    ghost use Rattle.std.specs.Prelude.{◌≡◌, ◌+◌, ◌<◌, ◌≤◌, ◌⊎◌, length, IfOk, OnOk};
    ghost use Rattle.std.specs.Prelude.{OnErr, Err, true, false};
    ghost use Rattle.trace_io.specs.Window.{opening, left, budget, TakesHeld};
    ghost use Rattle.trace_io.specs.Lines.{IsUnbroken};
    ghost use Rattle.trace_io.specs.Scans.{Scans};
    ghost use Rattle.trace_io.specs.Founds.{TakesLast, Finds};
    ghost use Rattle.trace_io.specs.Source.{HasEnded, HasStopped, Reads};
    ghost use Rattle.std.specs.Io.KnownBytes.{Keeps};

    /// A reader of lines that has read nothing. It takes all of its memory here, 64 KiB; `Err`
    /// where there is none.
    pub fn new(alloc: A) -> Result<LineReader<A>, AllocError>
        ensures { IfOk result (λ r. r ≡ opening) }
    {
        let chunk = vec![in alloc; 0; CHUNK]?;
        Ok(LineReader {
            chunk,
            line_start: 0,
            line_end: 0,
            start: 0,
            end: 0,
        })
    }

    /// The line that was found last, without its newline. Empty before the first.
    pub fn line(&self) -> &[u8]
        ensures { result.now ≡ self.now.line }
    {
        &self.chunk[self.line_start..self.line_end]
    }

    // Takes a line from the bytes held, if a newline is among them.
    #[inline(always)]
    fn scan(&mut self) -> Scan
        ensures found { Scans self.old self.new result }
        ensures few { length self.new.held ≤ 65536 }
    {
        match memchr(b'\n', &self.chunk[self.start..self.end]) {
            Some(n) if n <= LINE_LIMIT => {
                self.line_start = self.start;
                self.line_end = self.start + n;
                self.start += n + 1;
                Scan::Line
            }
            Some(_) => Scan::TooLong,
            None if self.end - self.start > LINE_LIMIT => Scan::TooLong,
            None => Scan::Nothing,
        }
    }

    // Reads more after the bytes held.
    fn fill<S: Source>(&mut self, reader: &mut S) -> Result<usize, ReadFailed>
        requires { length self.old.held ≤ 256 }
        ensures kept { Reads (S.stream reader.old) (S.stream reader.new)
            (λ xs ys. left ys self.new ≡ left xs self.old) }
        ensures more { IfOk result (λ n. length self.new.held ≡ length self.old.held + n) }
        ensures same { IfOk result (λ n. n ≡ 0 → self.new.held ≡ self.old.held) }
        ensures end { IfOk result (λ n. n ≡ 0 → HasEnded (S.stream reader.new)) }
        ensures held { OnErr result (self.new.held ≡ self.old.held) }
        ensures few { OnOk result (length self.new.held ≤ 65536) }
        ensures budget { OnOk result
            (budget (S.reads reader.new) self.new ≤ budget (S.reads reader.old) self.old) }
        ensures stopped { OnErr result (HasStopped (S.failed reader.new) (S.reads reader.new)) }
    {
        if self.start > 0 {
            move_to_front(&mut self.chunk, self.start, self.end);
            self.end -= self.start;
            self.start = 0;
        }
        let n = read_behind(&mut self.chunk, self.end, reader)?;
        self.end += n;
        Ok(n)
    }

    // Takes all that is held as the last line.
    fn take_last(&mut self) -> NextLine
        requires short { length self.old.held ≤ 256 }
        requires unbroken { IsUnbroken self.old.held }
        ensures { TakesLast self.old self.new result }
    {
        if self.start == self.end {
            return NextLine::End;
        }
        self.line_start = self.start;
        self.line_end = self.end;
        self.start = self.end;
        NextLine::Line
    }

    // Reads until a whole line is held, or the text ends.
    #[inline(never)]
    fn read_line<S: Source>(&mut self, reader: &mut S) -> Result<NextLine, ReadFailed>
        requires short { length self.old.held ≤ 256 }
        requires unbroken { IsUnbroken self.old.held }
        ensures found { IfOk result (λ f. Reads (S.stream reader.old) (S.stream reader.new)
            (λ xs ys. Finds (left xs self.old) (left ys self.new) self.new f)) }
        ensures budget { IfOk result (λ f. f ≡ NextLine.Line
            → budget (S.reads reader.new) self.new < budget (S.reads reader.old) self.old) }
        ensures kept { OnErr result (Reads (S.stream reader.old) (S.stream reader.new)
            (λ xs ys. left ys self.new ≡ left xs self.old)) }
        ensures unbroken { OnErr result (IsUnbroken self.new.held) }
        ensures few { length self.new.held ≤ 65536 }
        ensures stopped { OnErr result (HasStopped (S.failed reader.new) (S.reads reader.new)) }
    {
        loop {
            if self.fill(reader)? == 0 {
                return Ok(self.take_last());
            }
            match self.scan() {
                Scan::Line => return Ok(NextLine::Line),
                Scan::TooLong => return Ok(NextLine::TooLong),
                Scan::Nothing => {}
            }
        }
    }

    /// Goes on to the next line, which `line` then gives. A line that is too long isn't taken, and
    /// is found again by the next call. Where no whole line is held, what was written goes out
    /// before the first read, so whoever waits for it before they go on sees it. At an `Err` no
    /// byte is lost, and no newline is among the bytes held; where the writer failed, no read was
    /// made.
    #[inline(always)]
    pub fn next_line<S: Source, W: Sink>(
        &mut self,
        reader: &mut S,
        writer: &mut W,
    ) -> Result<NextLine, NoLine>
        ensures found { IfOk result (λ f. Reads (S.stream reader.old) (S.stream reader.new)
            (λ xs ys. Finds (left xs self.old) (left ys self.new) self.new f)) }
        // Each line takes a byte, and the reads are limited.
        ensures budget { IfOk result (λ f. f ≡ NextLine.Line
            → budget (S.reads reader.new) self.new < budget (S.reads reader.old) self.old) }
        ensures kept { OnErr result (Reads (S.stream reader.old) (S.stream reader.new)
            (λ xs ys. left ys self.new ≡ left xs self.old)) }
        ensures unbroken { OnErr result (IsUnbroken self.new.held) }
        ensures few { length self.new.held ≤ 65536 }
        ensures written { Keeps (W.contents writer.old) (W.contents writer.new) }
        ensures at_once { OnOk result ((S.reads reader.new ≡ S.reads reader.old)
            ⊎ (W.is_flushed writer.new ≡ true)) }
        ensures ok { OnOk result (W.failed writer.new ≡ W.failed writer.old) }
        ensures read { result ≡ Err NoLine.ReadFailed
            → HasStopped (S.failed reader.new) (S.reads reader.new)
            × (W.is_flushed writer.new ≡ true) × (W.failed writer.new ≡ W.failed writer.old) }
        ensures write { result ≡ Err NoLine.WriteFailed
            → (W.failed writer.new ≡ true) × (S.reads reader.new ≡ S.reads reader.old)
            × (S.stream reader.new ≡ S.stream reader.old) }
    {
        match self.scan() {
            Scan::Line => return Ok(NextLine::Line),
            Scan::TooLong => return Ok(NextLine::TooLong),
            Scan::Nothing => {}
        }
        if let Err(_) = writer.flush() {
            return Err(NoLine::WriteFailed);
        }
        match self.read_line(reader) {
            Ok(found) => Ok(found),
            Err(_) => Err(NoLine::ReadFailed),
        }
    }
}

/// A reader of lines that takes its memory from this allocator; None where there is none.
pub fn line_reader<A: Allocator + Clone>(alloc: &A) -> Option<LineReader<A>>
    ensures { IfSome result (λ r. r ≡ opening) }
{
    let Ok(for_lines) = alloc.clone() else {
        return None;
    };
    match LineReader::new(for_lines) {
        Ok(lines) => Some(lines),
        Err(_) => None,
    }
}

// Moves a part of the bytes to the front.
fn move_to_front<A: Allocator>(chunk: &mut Vec<u8, A>, start: usize, end: usize)
    requires low { start ≤ end }
    requires high { end ≤ length chunk.old.items }
    ensures moved { take (end - start) chunk.new.items ≡ slice_range chunk.old.items start end }
    ensures same { length chunk.new.items ≡ length chunk.old.items }
{
    chunk.copy_within(start..end, 0);
}

// Reads into the chunk from a place on.
fn read_behind<A: Allocator, S: Source>(
    chunk: &mut Vec<u8, A>,
    end: usize,
    reader: &mut S,
) -> Result<usize, ReadFailed>
    requires { end < length chunk.old.items }
    ensures same { length chunk.new.items ≡ length chunk.old.items }
    ensures front { take end chunk.new.items ≡ take end chunk.old.items }
    ensures room { IfOk result (λ n. end + n ≤ length chunk.new.items) }
    ensures bytes { Gives (S.stream reader.old) (S.stream reader.new)
        (read_bytes result (drop end chunk.new.items)) }
    ensures end { IfOk result (λ n. n ≡ 0 → HasEnded (S.stream reader.new)) }
    ensures count { OnOk result (S.reads reader.new ≡ S.reads reader.old + 1) }
    ensures limit { OnOk result (S.reads reader.old < 2 ^ 32) }
    ensures stopped { OnErr result (HasStopped (S.failed reader.new) (S.reads reader.new)) }
{
    reader.read(&mut chunk[end..])
}

// What follows all of the bytes: nothing.
fn nothing_after(text: &[u8]) -> &[u8]
    ensures { length result.now ≡ 0 }
{
    let (_, rest) = text.split_at(text.len());
    rest
}

/// The first line of a text, of any length, without its newline, and what follows it.
pub fn front_line(text: &[u8]) -> (&[u8], &[u8])
    requires { 0 < length text.now }
    ensures lines { lines_of text.now ≡ result.0.now ∷ lines_of result.1.now }
    ensures less { length result.1.now < length text.now }
{
    match memchr(b'\n', text) {
        Some(end) => {
            let (line, _) = text.split_at(end);
            let (_, rest) = text.split_at(end + 1);
            (line, rest)
        }
        None => (text, nothing_after(text)),
    }
}
