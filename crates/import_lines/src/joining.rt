//! The whole text of a call that strace tells in two lines, and the line at which it acts.
ghost use Rattle.std.specs.Prelude.{◌≡◌, ◌+◌, ◌<◌, ◌≤◌, IfOk, OnOk, drop, length, true};
ghost use Rattle.import_lines.specs.Joining.{acting_text, call_at, call_begun, call_returned, front_for, is_named, joined};
ghost use Rattle.import_lines.specs.Joining.{last_of, next_of, returns_by, speech_at};
ghost use Rattle.import_lines.specs.Lines.{is_half, told_at, told_by};
ghost use Rattle.import_forms.specs.Speech.{begun_of, returned_of};

use crate::line::name_in;
use crate::threads::ThreadLines;
use import_forms::said::{Said, read_call};
use import_forms::speech::{begun, returned};
use import_forms::tokens::next_token;
use std::alloc::{AllocError, Global};

/// Tells whether the call has this name.
pub(crate) fn is_named(text: &[u8], name: &[u8]) -> bool
    ensures { result ≡ is_named name.now text.now }
{
    match next_token(text) {
        Some((first, _)) => first == name,
        None => false,
    }
}

/// Of half of a call its text, and else nothing: either tells whether a call begins or returns here, and how.
#[tactic(auto, using(crate::proofs::HalfLemmas::whole_returned))]
pub fn half_text(lines: &ThreadLines, place: usize) -> &[u8]
    requires { place < length lines.now }
    ensures begun { begun_of result.now ≡ begun_of (speech_at lines.now place).1 }
    ensures returned { returned_of result.now ≡ returned_of (speech_at lines.now place).1 }
{
    let line = lines.line(place);
    if line.half { line.name } else { b"".as_slice() }
}

/// How the thread's last line before this place began a call, if it did.
pub(crate) fn last_of(lines: &ThreadLines, place: usize, thread: u64) -> &[u8]
    requires { place ≤ length lines.now }
    ensures { begun_of result.now ≡ begun_of (last_of thread lines.now place) }
{
    let mut at = place;
    'earlier: while at > 0 {
        at -= 1;
        if lines.thread(at) == thread {
            return half_text(lines, at);
        }
    }
    b"".as_slice()
}

/// How the thread's next line behind this place returns from a call, if it does.
pub fn next_of(lines: &ThreadLines, place: usize, thread: u64) -> &[u8]
    requires { place < length lines.now }
    ensures { returned_of result.now ≡ returned_of (next_of thread (drop (place + 1) lines.now)) }
{
    let count = lines.len();
    prove!(place < count);
    let mut at = place + 1;
    'later: while at < count {
        if lines.thread(at) == thread {
            return half_text(lines, at);
        }
        at += 1;
    }
    b"".as_slice()
}

/// Tells whether a call that began so returns by this text, its thread's next.
pub fn returns_by(front: &[u8], later: &[u8]) -> bool
    ensures { result ≡ returns_by front.now (returned_of later.now) }
{
    match returned(later) {
        Some((name, _)) => is_named(front, name),
        None => false,
    }
}

/// Makes the text of these two parts.
pub(crate) fn put_joined(text: &mut Vec<u8>, front: &[u8], rest: &[u8]) -> Result<(), AllocError>
    ensures { OnOk result (text.new.items ≡ joined front.now rest.now) }
{
    text.clear();
    text.extend_from_slice(front)?;
    text.extend_from_slice(b" ")?;
    text.extend_from_slice(rest)?;
    Ok(())
}

/// What a call of this name began with, if this is how it began; else its name.
pub(crate) fn front_for<'a>(name: &'a [u8], earlier: &'a [u8]) -> &'a [u8]
    ensures { result.now ≡ front_for name.now (begun_of earlier.now) }
{
    match begun(earlier) {
        Some(front) => { if is_named(front, name) { front } else { name } }
        None => name,
    }
}

// Makes the text of a call that begins so and returns in a later line, and tells whether it acts as it begins.
fn put_begun(front: &[u8], later: &[u8], text: &mut Vec<u8>) -> Result<bool, AllocError>
    ensures { IfOk result (λ acts. acting_text acts text.new.items ≡ call_begun front.now later.now) }
{
    if !is_named(front, b"munmap".as_slice()) {
        return Ok(false);
    }
    let Some((name, rest)) = returned(later) else {
        return Ok(false);
    };
    if name != b"munmap".as_slice() {
        return Ok(false);
    }
    put_joined(text, front, rest)?;
    Ok(true)
}

// Makes the text of a call that returns so and began in an earlier line, and tells whether it acts as it returns.
fn put_returned(
    name: &[u8],
    rest: &[u8],
    earlier: &[u8],
    text: &mut Vec<u8>,
) -> Result<bool, AllocError>
    ensures { IfOk result (λ acts. acting_text acts text.new.items ≡ call_returned (name.now, rest.now) earlier.now) }
{
    if name == b"munmap".as_slice() {
        return Ok(false);
    }
    put_joined(text, front_for(name, earlier), rest)?;
    Ok(true)
}

// Makes the whole text of the call that acts at this line, of half of a call, and tells whether one does. A call that
// stands in two lines acts where it returns; `munmap` acts where it begins, since its pages are gone before it
// returns. What begins in a line that isn't there is its name.
fn put_half(
    lines: &ThreadLines,
    place: usize,
    half: &[u8],
    text: &mut Vec<u8>,
) -> Result<bool, AllocError>
    requires place { place < length lines.now }
    requires half { half.now ≡ (speech_at lines.now place).1 }
    requires is_half { is_half half.now ≡ true }
    ensures { IfOk result (λ acts. acting_text acts text.new.items ≡ call_at lines.now place) }
{
    let thread = lines.thread(place);
    if let Some(front) = begun(half) {
        let later = next_of(lines, place, thread);
        return put_begun(front, later, text);
    }
    if let Some((name, rest)) = returned(half) {
        let earlier = last_of(lines, place, thread);
        return put_returned(name, rest, earlier, text);
    }
    unreachable!()
}

/// Room for the text of a call, and for the name that it shows.
#[derive(Drop)]
pub struct Room {
    text: Vec<u8>,
    /// The name.
    pub name: Vec<u8>,
}

impl Room {
    ghost use Rattle.std.specs.Prelude.{[]};

    /// Nothing.
    pub fn new(alloc: Global) -> Room
        ensures { result.name.items ≡ [] }
    {
        Room {
            text: Vec::new(alloc),
            name: Vec::new(alloc),
        }
    }
}

// What the call says that acts at this line, of half of a call, and the name that it shows.
fn told_half(
    lines: &ThreadLines,
    place: usize,
    half: &[u8],
    room: &mut Room,
) -> Result<Option<Said>, AllocError>
    requires place { place < length lines.now }
    requires half { half.now ≡ (speech_at lines.now place).1 }
    requires is_half { is_half half.now ≡ true }
    ensures { IfOk result (λ said. told_by said room.new.name.items ≡ told_at lines.now place) }
{
    if !put_half(lines, place, half, &mut room.text)? {
        return Ok(None);
    }
    let said = read_call(room.text.as_slice());
    room.name.clear();
    room.name
        .extend_from_slice(name_in(said, room.text.as_slice()))?;
    Ok(Some(said))
}

/// What the call says that acts at this line, if one does, and the name that it shows.
#[tactic(auto, using(crate::proofs::HalfLemmas::told_whole, crate::proofs::HalfLemmas::half_kept, crate::proofs::HalfLemmas::half_is))]
pub fn told_at(
    lines: &ThreadLines,
    place: usize,
    room: &mut Room,
) -> Result<Option<Said>, AllocError>
    requires { place < length lines.now }
    ensures { IfOk result (λ said. told_by said room.new.name.items ≡ told_at lines.now place) }
{
    let line = lines.line(place);
    if line.half {
        return told_half(lines, place, line.name, room);
    }
    room.name.clear();
    room.name.extend_from_slice(line.name)?;
    Ok(Some(line.said))
}
