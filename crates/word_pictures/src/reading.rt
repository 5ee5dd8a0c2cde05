//! A text that is read up to one of its lines.
ghost use Rattle.std.specs.Prelude.{◌≡◌, ◌≢◌, Err, IfOk, OnErr};
ghost use Rattle.word_pictures.specs.Reading.{IsEnough, newlines};
ghost use Rattle.trace_io.specs.Source.{HasStopped, Reads};

use std::alloc::Allocator;
use trace_io::IoFault;
use trace_io::source::{Source, new_chunk, read_chunk};

// How many newlines there are.
fn newlines(bytes: &[u8]) -> u64
    ensures { result ≡ newlines bytes.now }
{
    let mut count = 0u64;
    let mut at = 0usize;
    'bytes: while at < bytes.len() {
        if bytes[at] == b'\n' {
            count += 1;
        }
        at += 1;
    }
    count
}

/// Reads until so many lines are read or the input ends. Where a read fails, or there is no memory, some of it was read.
pub fn read_lines<A: Allocator + Clone, S: Source>(
    alloc: A,
    reader: &mut S,
    lines: u64,
) -> Result<Vec<u8, A>, IoFault>
    ensures text { IfOk result (λ text. Reads (S.stream reader.old) (S.stream reader.new)
        (λ input unread. IsEnough lines text.items input unread)) }
    ensures kept { OnErr result
        (Reads (S.stream reader.old) (S.stream reader.new) (λ input unread. input ≡ input)) }
    ensures read { result ≡ Err IoFault.ReadFailed →
        HasStopped (S.failed reader.new) (S.reads reader.new) }
    ensures write { result ≢ Err IoFault.WriteFailed }
{
    let Ok(for_text) = alloc.clone() else {
        return Err(IoFault::NoMemory);
    };
    let Ok(mut chunk) = new_chunk(alloc) else {
        return Err(IoFault::NoMemory);
    };
    let mut text: Vec<u8, A> = Vec::new(for_text);
    let mut left = lines;
    'reads: loop {
        let count = match read_chunk(&mut chunk, reader) {
            Ok(count) => count,
            Err(_) => return Err(IoFault::ReadFailed),
        };
        if count == 0 {
            return Ok(text);
        }
        if let Err(_) = text.extend_from_slice(&chunk[..count]) {
            return Err(IoFault::NoMemory);
        }
        let ended = newlines(&chunk[..count]);
        left = left.saturating_sub(ended);
        if left == 0 {
            return Ok(text);
        }
    }
}
