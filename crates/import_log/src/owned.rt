//! Whose lines they are that name no thread: those that strace writes to a terminal while it follows one thread alone.
ghost use Rattle.std.specs.Prelude.{◌≡◌, ◌<◌, ◌&&◌, ◌||◌, IfOk, false, length, map, unwrap_or};
ghost use Rattle.import_lines.specs.Joining.{speech_at};
ghost use Rattle.import_lines.specs.Lines.{kept_text};
ghost use Rattle.import_lines.specs.Threads.{renamed};
ghost use Rattle.import_lines.specs.Torn.{ends_by};
ghost use Rattle.import_log.specs.Owned.{goes_on, has_loose, has_numbered, has_other, is_loose, is_mixed, is_other, is_root, is_unclear, owned, root_of, unclear_by};

use import_lines::joining::Room;
use import_lines::lines::KeptLines;
use import_lines::made::{Made, all_makings, is_made};
use import_lines::threads::ThreadLines;
use import_lines::torn::{ends_at, speaks_at};
use import_steps::meter::Meter;
use std::alloc::{AllocError, Global};

/// The lines of a log, each about its thread.
#[derive(Drop)]
pub struct OwnedLines {
    /// The lines.
    pub lines: ThreadLines,
    /// Whether that can't be told of all of them.
    pub unclear: bool,
}

// Tells whether this line names no thread, and speaks.
fn is_loose(lines: &ThreadLines, place: usize) -> bool
    requires { place < length lines.now }
    ensures { result ≡ is_loose lines.now place }
{
    lines.thread(place) == 0 && speaks_at(lines, place)
}

// Tells whether such a line is there.
fn has_loose(lines: &ThreadLines) -> bool
    ensures { result ≡ has_loose lines.now (length lines.now) }
{
    let mut at = lines.len();
    'lines: while at > 0 {
        at -= 1;
        if is_loose(lines, at) {
            return true;
        }
    }
    false
}

/// Tells whether a line names a thread.
pub(crate) fn has_numbered(lines: &ThreadLines) -> bool
    ensures { result ≡ has_numbered lines.now (length lines.now) }
{
    let mut at = lines.len();
    'lines: while at > 0 {
        at -= 1;
        if lines.thread(at) != 0 {
            return true;
        }
    }
    false
}

// Tells whether the thread has a number, and no line says who made it.
fn is_root(made: &Made, thread: u64) -> bool
    ensures { result ≡ is_root made.now thread }
{
    if thread == 0 {
        false
    } else {
        !is_made(made, thread)
    }
}

// The last such thread.
fn root_of(made: &Made, lines: &ThreadLines) -> Option<u64>
    ensures { result ≡ root_of made.now lines.now (length lines.now) }
{
    let mut at = lines.len();
    'lines: while at > 0 {
        at -= 1;
        let thread = lines.thread(at);
        if is_root(made, thread) {
            return Some(thread);
        }
    }
    None
}

// Tells whether it is another such thread than this one.
fn is_other(made: &Made, root: u64, thread: u64) -> bool
    ensures { result ≡ is_other made.now root thread }
{
    if thread == root {
        false
    } else {
        is_root(made, thread)
    }
}

// Tells whether a line is about another one.
fn has_other(made: &Made, root: u64, lines: &ThreadLines) -> bool
    ensures { result ≡ has_other made.now root lines.now (length lines.now) }
{
    let mut at = lines.len();
    'lines: while at > 0 {
        at -= 1;
        if is_other(made, root, lines.thread(at)) {
            return true;
        }
    }
    false
}

// Tells whether a thread ends at this line, and a loose one is said to be later.
fn ends_before(later: bool, lines: &ThreadLines, place: usize) -> bool
    requires { place < length lines.now }
    ensures { result ≡ later && ends_by (kept_text (speech_at lines.now place).1) }
{
    if later { ends_at(lines, place) } else { false }
}

// Tells whether a loose line is from this one on, where one is said to be later or not.
fn loose_from(later: bool, lines: &ThreadLines, place: usize) -> bool
    requires { place < length lines.now }
    ensures { result ≡ later || is_loose lines.now place }
{
    if later { true } else { is_loose(lines, place) }
}

// Tells whether a line that names no thread speaks after the thread ended.
fn goes_on(root: u64, lines: &ThreadLines) -> bool
    ensures { result ≡ goes_on root lines.now false (length lines.now) }
{
    let mut later = false;
    let mut at = lines.len();
    'lines: while at > 0 {
        at -= 1;
        if lines.thread(at) == root {
            if ends_before(later, lines, at) {
                return true;
            }
        } else {
            later = loose_from(later, lines, at);
        }
    }
    false
}

// Tells whether it can't be told whose lines are that name no thread.
fn is_unclear(made: &Made, root: Option<u64>, lines: &ThreadLines) -> bool
    ensures { result ≡ unclear_by made.now lines.now root }
{
    match root {
        Some(root) => has_other(made, root, lines) || goes_on(root, lines),
        None => false,
    }
}

// Tells whether lines that name no thread speak, and others name one.
fn is_mixed(lines: &ThreadLines) -> bool
    ensures { result ≡ is_mixed lines.now }
{
    has_numbered(lines) && has_loose(lines)
}

// The lines, of which those that name no thread are about this one, if it is known.
fn own_by(lines: ThreadLines, root: Option<u64>) -> ThreadLines
    ensures { result ≡ map (renamed (unwrap_or root 0)) lines }
{
    match root {
        Some(root) => lines.with_first(root),
        None => lines.with_first(0),
    }
}

/// The lines, each about its thread.
pub fn own_lines<M: Meter>(
    alloc: Global,
    lines: KeptLines,
    meter: &mut M,
) -> Result<OwnedLines, AllocError>
    ensures lines { IfOk result (λ o. o.lines ≡ owned lines) }
    ensures unclear { IfOk result (λ o. o.unclear ≡ is_unclear lines) }
{
    let lines = ThreadLines::new(lines);
    if !is_mixed(&lines) {
        return Ok(OwnedLines {
            lines: own_by(lines, None),
            unclear: false,
        });
    }
    let mut room = Room::new(alloc);
    let made = all_makings(alloc, &lines, false, &mut room, meter)?;
    let root = root_of(&made, &lines);
    let unclear = is_unclear(&made, root, &lines);
    drop(made);
    drop(room);
    Ok(OwnedLines {
        lines: own_by(lines, root),
        unclear,
    })
}
