//! The whole text of a call at the line in which it returns, and the line in which it began.
ghost use Rattle.std.specs.Prelude.{◌≡◌, ◌<◌, ◌≤◌, IfOk, length, unwrap_or};
ghost use Rattle.import_lines.specs.Joining.{acting_text, speech_at};
ghost use Rattle.import_lines.specs.Made.{began_at, last_line, thread_at};
ghost use Rattle.import_lines.specs.Returning.{returned_at};

use crate::joining::{front_for, last_of, put_joined};
use crate::threads::ThreadLines;
use import_forms::speech::{begun, returned};
use std::alloc::AllocError;

/// Makes the whole text of the call that returns at this line, which has this text, and tells whether one does.
pub fn put_returned(
    lines: &ThreadLines,
    place: usize,
    line: &[u8],
    text: &mut Vec<u8>,
) -> Result<bool, AllocError>
    requires place { place < length lines.now }
    requires line { line.now ≡ (speech_at lines.now place).1 }
    ensures { IfOk result (λ returns. acting_text returns text.new.items ≡ returned_at lines.now place) }
{
    if begun(line).is_some() {
        return Ok(false);
    }
    match returned(line) {
        Some((name, rest)) => {
            let earlier = last_of(lines, place, lines.thread(place));
            put_joined(text, front_for(name, earlier), rest)?;
        }
        None => {
            text.clear();
            text.extend_from_slice(line)?;
        }
    }
    Ok(true)
}

// The thread's last line before this one, and this one where there is none.
fn last_or_here(lines: &ThreadLines, place: usize) -> usize
    requires { place < length lines.now }
    ensures value { result ≡ unwrap_or (last_line lines.now place (thread_at lines.now place)) place }
    ensures within { result ≤ place }
{
    let thread = lines.thread(place);
    let mut at = place;
    'earlier: while at > 0 {
        at -= 1;
        if lines.thread(at) == thread {
            return at;
        }
    }
    place
}

/// The line in which the call began that returns at this line, which has this text.
pub fn began_place(lines: &ThreadLines, place: usize, line: &[u8]) -> usize
    requires place { place < length lines.now }
    requires line { line.now ≡ (speech_at lines.now place).1 }
    ensures value { result ≡ began_at lines.now place }
    ensures within { result ≤ place }
{
    match returned(line) {
        Some(_) => last_or_here(lines, place),
        None => place,
    }
}
