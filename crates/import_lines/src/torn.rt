//! Calls whose two lines don't belong together: `strace -z` and `-Z` write such ones, and in another order than they
//! were made.
ghost use Rattle.std.specs.Prelude.{◌≡◌, ◌+◌, ◌<◌, ◌≤◌, IfSome, drop, length};
ghost use Rattle.import_lines.specs.Joining.{speech_at};
ghost use Rattle.import_lines.specs.Lines.{kept_text};
ghost use Rattle.import_lines.specs.Torn.{begins_call, ends_by, ends_thread, is_torn, last_text, next_text, place_text, says_something, speaks, torn_at, torn_begun, torn_returned};
ghost use Rattle.import_forms.specs.Speech.{begun_of};

use crate::joining::{half_text, is_named, returns_by};
use crate::threads::ThreadLines;
use import_forms::said::Said;
use import_forms::speech::{begun, returned};

// Tells whether a thread ends by what is said.
fn ends_thread(said: Said) -> bool
    ensures { result ≡ ends_thread said }
{
    match said {
        Said::Ends => true,
        _ => false,
    }
}

/// Tells whether a thread ends by this line.
pub fn ends_at(lines: &ThreadLines, place: usize) -> bool
    requires { place < length lines.now }
    ensures { result ≡ ends_by (kept_text (speech_at lines.now place).1) }
{
    let line = lines.line(place);
    if line.half {
        false
    } else {
        ends_thread(line.said)
    }
}

// Tells whether this says something.
fn says_something(said: Said) -> bool
    ensures { result ≡ says_something said }
{
    match said {
        Said::Other => false,
        _ => true,
    }
}

/// Tells whether this line is of a call that is looked at, of half of any, or of a thread's end.
pub fn speaks_at(lines: &ThreadLines, place: usize) -> bool
    requires { place < length lines.now }
    ensures { result ≡ speaks (kept_text (speech_at lines.now place).1) }
{
    let line = lines.line(place);
    if line.half {
        true
    } else {
        says_something(line.said)
    }
}

// Where the thread's next line stands behind this place, if there is one.
fn next_place(lines: &ThreadLines, place: usize, thread: u64) -> Option<usize>
    requires { place < length lines.now }
    ensures text { place_text lines.now result ≡ next_text thread (drop (place + 1) lines.now) }
    ensures within { IfSome result (λ at. at < length lines.now) }
{
    let count = lines.len();
    prove!(place < count);
    let mut at = place + 1;
    'later: while at < count {
        if lines.thread(at) == thread {
            return Some(at);
        }
        at += 1;
    }
    None
}

// Where the thread's last line stands before this place, if there is one.
fn last_place(lines: &ThreadLines, place: usize, thread: u64) -> Option<usize>
    requires { place ≤ length lines.now }
    ensures text { place_text lines.now result ≡ last_text thread lines.now place }
    ensures within { IfSome result (λ at. at < length lines.now) }
{
    let mut at = place;
    'earlier: while at > 0 {
        at -= 1;
        if lines.thread(at) == thread {
            return Some(at);
        }
    }
    None
}

// Tells whether a call that began so at this place never returns, though its thread goes on.
fn torn_begun(lines: &ThreadLines, place: usize, thread: u64, front: &[u8]) -> bool
    requires { place < length lines.now }
    ensures { result ≡ torn_begun front.now (next_text thread (drop (place + 1) lines.now)) }
{
    match next_place(lines, place, thread) {
        Some(at) => {
            if ends_at(lines, at) {
                return false;
            }
            !returns_by(front, half_text(lines, at))
        }
        None => false,
    }
}

// Tells whether the call of this name began that begins so, if one does.
fn begins_call(name: &[u8], earlier: &[u8]) -> bool
    ensures { result ≡ begins_call name.now (begun_of earlier.now) }
{
    match begun(earlier) {
        Some(front) => is_named(front, name),
        None => false,
    }
}

// Tells whether a call of this name that returns at this place never began, though its thread's last line is there.
fn torn_returned(lines: &ThreadLines, place: usize, thread: u64, name: &[u8]) -> bool
    requires { place < length lines.now }
    ensures { result ≡ torn_returned name.now (last_text thread lines.now place) }
{
    match last_place(lines, place, thread) {
        Some(at) => !begins_call(name, half_text(lines, at)),
        None => false,
    }
}

// Tells whether this line is half of a call, and the other half isn't where it should be.
fn torn_at(lines: &ThreadLines, place: usize) -> bool
    requires { place < length lines.now }
    ensures { result ≡ torn_at lines.now place }
{
    let half = half_text(lines, place);
    let thread = lines.thread(place);
    if let Some(front) = begun(half) {
        return torn_begun(lines, place, thread, front);
    }
    if let Some((name, _)) = returned(half) {
        return torn_returned(lines, place, thread, name);
    }
    false
}

/// Tells whether some line is half of a call, and the other half isn't where it should be.
pub fn is_torn(lines: &ThreadLines) -> bool
    ensures { result ≡ is_torn lines.now (length lines.now) }
{
    let mut at = lines.len();
    'lines: while at > 0 {
        at -= 1;
        if torn_at(lines, at) {
            return true;
        }
    }
    false
}
