//! The lines of a text, of any length, heard one after another as they are read.
ghost use Rattle.std.specs.Prelude.{◌≡◌, ◌≢◌, ◌++◌, ℕ, Err, List, OnErr, OnOk};
ghost use Rattle.trace_io.specs.Lines.{lines_of};
ghost use Rattle.trace_io.specs.Source.{HasStopped, Reads};
ghost use Rattle.import_lines.specs.Reading.{HearsMore, IsBreak};

use std::alloc::{AllocError, Global};
use trace_io::IoFault;
use trace_io::lines::front_line;
use trace_io::source::{Source, new_chunk, read_chunk};

/// Who hears lines.
pub trait Listener {
    ghost use Rattle.std.specs.Prelude.{ℕ, List, ◌++◌, ◌∷◌, [], OnOk};

    // It has heard these lines.
    ghost has_heard: { Self → List (List ℕ) → Type 0 };

    /// Hears one more line.
    fn hear(&mut self, line: &[u8]) -> Result<(), AllocError>
        ensures { OnOk result ((lines : List (List ℕ)) → has_heard self.old lines
            → has_heard self.new (lines ++ line.now ∷ [])) };
}

// How many bytes there are up to the last newline, with it.
fn last_break(text: &[u8]) -> usize
    ensures { IsBreak text.now result }
{
    let mut at = text.len();
    'bytes: while at > 0 {
        if text[at - 1] == b'\n' {
            return at;
        }
        at -= 1;
    }
    0
}

/// Hears all lines of a text.
pub fn hear_text<L: Listener>(listener: &mut L, text: &[u8]) -> Result<(), AllocError>
    ensures { OnOk result ((lines : List (List ℕ)) → L.has_heard listener.old lines
        → L.has_heard listener.new (lines ++ lines_of text.now)) }
{
    let mut rest = text;
    'lines: while !rest.is_empty() {
        let (line, more) = front_line(rest);
        listener.hear(line)?;
        rest = more;
    }
    Ok(())
}

// Hears all whole lines of what is held and of these bytes behind it, and holds the others.
fn hear_more<L: Listener>(
    listener: &mut L,
    held: &mut Vec<u8>,
    bytes: &[u8],
) -> Result<(), AllocError>
    ensures { OnOk result (HearsMore L.has_heard listener.old listener.new
        (held.old.items ++ bytes.now) held.new.items) }
{
    let end = last_break(bytes);
    if end == 0 {
        held.extend_from_slice(bytes)?;
        return Ok(());
    }
    let (whole, part) = bytes.split_at(end);
    held.extend_from_slice(whole)?;
    hear_text(listener, held.as_slice())?;
    held.clear();
    held.extend_from_slice(part)?;
    Ok(())
}

/// Hears all lines of what is read until the input ends. Where a read fails, or there is no memory, some of it was
/// read.
pub fn read_lines<S: Source, L: Listener>(
    alloc: Global,
    reader: &mut S,
    listener: &mut L,
) -> Result<(), IoFault>
    ensures heard { OnOk result (Reads (S.stream reader.old) (S.stream reader.new) (λ input unread.
        (lines : List (List ℕ)) → L.has_heard listener.old lines
        → L.has_heard listener.new (lines ++ lines_of input))) }
    ensures kept { OnErr result
        (Reads (S.stream reader.old) (S.stream reader.new) (λ input unread. input ≡ input)) }
    ensures read { result ≡ Err IoFault.ReadFailed →
        HasStopped (S.failed reader.new) (S.reads reader.new) }
    ensures write { result ≢ Err IoFault.WriteFailed }
{
    let Ok(mut chunk) = new_chunk(alloc) else {
        return Err(IoFault::NoMemory);
    };
    let mut held: Vec<u8> = Vec::new(alloc);
    'reads: loop {
        let count = match read_chunk(&mut chunk, reader) {
            Ok(count) => count,
            Err(_) => return Err(IoFault::ReadFailed),
        };
        if count == 0 {
            return match hear_text(listener, held.as_slice()) {
                Ok(()) => Ok(()),
                Err(_) => Err(IoFault::NoMemory),
            };
        }
        if let Err(_) = hear_more(listener, &mut held, &chunk[..count]) {
            return Err(IoFault::NoMemory);
        }
    }
}
