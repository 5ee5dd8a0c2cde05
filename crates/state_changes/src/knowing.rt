//! What the text of a state says of a page, and since which line of the trace.
ghost use Rattle.std.specs.Prelude.{◌≡◌, ◌++◌, IfOk, OnOk, if◌then◌else◌};
ghost use Rattle.std.specs.List.{flat_map};
ghost use Rattle.trace.specs.Numbered.{texts_of};
ghost use Rattle.trace_io.specs.Lines.{lines_of};
ghost use Rattle.trace_text.specs.Words.{words_of};
ghost use Rattle.state_changes.specs.Knowing.{before_dash, behind_dash, came_at, concerns, frame_beside, frame_in, frames_of};
ghost use Rattle.state_changes.specs.Knowing.{is_among, is_within, known_line, known_text, last_with, number_in_front, word_has, words_name};

use crate::marks::stands_in;
use std::alloc::{AllocError, Global};
use trace_io::lines::front_line;
use trace_text::number::read_number;
use trace_text::pieces::{Piece, put_all};
use trace_text::words::next_word;

// What stands before the first `-`, and behind it.
fn at_dash(word: &[u8]) -> (&[u8], &[u8])
    ensures before { result.0.now ≡ before_dash word.now }
    ensures behind { result.1.now ≡ behind_dash word.now }
{
    let mut at = 0;
    'bytes: while at < word.len() {
        if word[at] == b'-' {
            let (before, _) = word.split_at(at);
            let (_, behind) = word.split_at(at + 1);
            return (before, behind);
        }
        at += 1;
    }
    word.split_at(at)
}

// Whether the bytes from the first address up to the end, or those of a page, have this one.
fn is_within(first: Option<u64>, end: Option<u64>, addr: u64) -> bool
    ensures { result ≡ is_within first end addr }
{
    match (first, end) {
        (Some(first), Some(end)) => first <= addr && addr < end,
        (Some(first), None) => first <= addr && addr - first < 4096,
        (None, _) => false,
    }
}

// Whether a word `START` or `START-END` has the address.
fn word_has(addr: u64, word: &[u8]) -> bool
    ensures { result ≡ word_has addr word.now }
{
    let (before, behind) = at_dash(word);
    is_within(read_number(before), read_number(behind), addr)
}

// Whether the line names a page that has the address, by its first word that begins with 0x.
fn names(addr: u64, line: &[u8]) -> bool
    ensures { result ≡ words_name addr (words_of line.now) }
{
    let mut rest = line;
    'words: while let Some((word, more)) = next_word(rest) {
        if word.starts_with(b"0x") {
            return word_has(addr, word);
        }
        rest = more;
    }
    false
}

// The number that the first word spells.
fn number_in_front(bytes: &[u8]) -> Option<u64>
    ensures { result ≡ number_in_front (words_of bytes.now) }
{
    let (word, _) = next_word(bytes)?;
    read_number(word)
}

// The number of the frame that the line names.
fn frame_in(line: &[u8]) -> Option<u64>
    ensures { result ≡ frame_in (words_of line.now) }
{
    let mut rest = line;
    'words: while let Some((word, more)) = next_word(rest) {
        if word == b"frame".as_slice() {
            return number_in_front(more);
        }
        rest = more;
    }
    None
}

// Adds the frame that a line names beside the page.
fn push_frame(frames: &mut Vec<u64>, addr: u64, line: &[u8]) -> Result<(), AllocError>
    ensures { OnOk result (frames.new.items ≡ frames.old.items ++ frame_beside addr line.now) }
{
    if !names(addr, line) {
        return Ok(());
    }
    if let Some(frame) = frame_in(line) {
        frames.push(frame)?;
    }
    Ok(())
}

// The frames of the lines that name the page.
fn frames_of(alloc: Global, addr: u64, state: &[u8]) -> Result<Vec<u64>, AllocError>
    ensures { IfOk result (λ frames. frames.items ≡ frames_of addr (lines_of state.now)) }
{
    let mut frames = Vec::new(alloc);
    let mut rest = state;
    'lines: while !rest.is_empty() {
        let (line, more) = front_line(rest);
        push_frame(&mut frames, addr, line)?;
        rest = more;
    }
    Ok(frames)
}

// Whether the frame is one of these.
fn is_among(frame: Option<u64>, frames: &[u64]) -> bool
    ensures { result ≡ is_among frame frames.now }
{
    let Some(frame) = frame else {
        return false;
    };
    let mut at = 0;
    'frames: while at < frames.len() {
        if frames[at] == frame {
            return true;
        }
        at += 1;
    }
    false
}

// Whether the line has to do with the page: it names it, or one of these frames.
fn concerns(addr: u64, frames: &[u64], line: &[u8]) -> bool
    ensures { result ≡ concerns addr frames.now line.now }
{
    names(addr, line) || is_among(frame_in(line), frames)
}

// The number, or the other one.
fn number_where(has: bool, number: usize, other: usize) -> usize
    ensures { result ≡ (if has then number else other) }
{
    if has { number } else { other }
}

// The number of the last of the texts that has the line, counted from 1, or 0.
fn last_with(line: &[u8], texts: &[Vec<u8>]) -> usize
    ensures { result ≡ last_with 1 line.now (texts_of texts.now) }
{
    let mut last = 0;
    let mut at = 0;
    'texts: while at < texts.len() {
        let has = stands_in(line, texts[at].as_slice());
        at += 1;
        last = number_where(has, at, last);
    }
    last
}

// The number of the last line of the trace at which this line came, or 0.
fn came_at(alloc: Global, line: &[u8], changes: &[Vec<u8>]) -> Result<usize, AllocError>
    ensures { IfOk result (λ n. n ≡ came_at line.now (texts_of changes.now)) }
{
    let mut mark = Vec::new(alloc);
    mark.extend_from_slice(b"+ ")?;
    mark.extend_from_slice(line)?;
    Ok(last_with(mark.as_slice(), changes))
}

// Appends a line of the state's text, where it has to do with the page, behind the number of the line at which it came.
fn put_known(
    out: &mut Vec<u8>,
    alloc: Global,
    addr: u64,
    frames: &[u64],
    changes: &[Vec<u8>],
    line: &[u8],
) -> Result<(), AllocError>
    ensures { OnOk result (out.new.items ≡ out.old.items ++ known_line addr frames.now (texts_of changes.now) line.now) }
{
    if !concerns(addr, frames, line) {
        return Ok(());
    }
    let since = came_at(alloc, line, changes)?;
    put_all(out, &[Piece::Number(since as u64), Piece::Words(": ")])?;
    out.extend_from_slice(line)?;
    out.push(b'\n')?;
    Ok(())
}

/// Each line of a state's text that has to do with the page at the address: it names the page, or a frame that another line names beside it.
/// It stands behind the number of the last line of the trace at which it came, where these are the changes of the lines.
pub fn known_of(
    alloc: Global,
    addr: u64,
    changes: &[Vec<u8>],
    state: &[u8],
) -> Result<Vec<u8>, AllocError>
    ensures { IfOk result (λ text. text.items ≡ known_text addr (texts_of changes.now) state.now) }
{
    let frames = frames_of(alloc, addr, state)?;
    let mut text = Vec::new(alloc);
    let mut rest = state;
    'lines: while !rest.is_empty() {
        let (line, more) = front_line(rest);
        put_known(&mut text, alloc, addr, frames.as_slice(), changes, line)?;
        rest = more;
    }
    Ok(text)
}
