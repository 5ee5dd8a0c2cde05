//! The calls of a history, which `audit --overlapping` reads, or of its answer.
ghost use Rattle.std.specs.Prelude.{◌≡◌, ◌++◌, IfOk, OnOk, option_map};
ghost use Rattle.trace_io.specs.Lines.{lines_of};
ghost use Rattle.trace_text.specs.Words.{words_of};
ghost use Rattle.draw_lives.specs.Calls.{before_colon, behind_colon, call_in, core_in, has_calls, is_change, listed_calls, listed_in, optional, own_from, tells_call};

use std::alloc::{AllocError, Global};
use std::marker::Model;
use trace_io::lines::front_line;
use trace_text::core_line::read_core_number;
use trace_text::number::{next_number, read_number};
use trace_text::words::next_word;
use vm_base::CoreId;

/// A call. A clause sees it as `CallView`.
#[derive(Drop)]
pub struct Call<'a> {
    /// The number of its line.
    pub line: u64,
    /// The core that made it.
    pub core: CoreId,
    /// When it began.
    pub begin: u64,
    /// When it ended.
    pub end: u64,
    /// Whether it changes mappings.
    pub is_change: bool,
    /// What it asked for, and its reply.
    pub words: &'a [u8],
}

impl<'a> Model for Call<'a> {
    ghost use Rattle.trace_text.specs.Words.{words_of};
    ghost use Rattle.draw_lives.specs.Calls.{CallView};

    ghost Value = { CallView };

    ghost view = { λ c. record {
      line = c.line;
      core = c.core;
      begin = c.begin;
      end = c.end;
      is_change = c.is_change;
      words = words_of c.words.now;
    } };
}

// The core of a word `cC!`.
fn core_in(word: &[u8]) -> Option<CoreId>
    ensures { result ≡ core_in word.now }
{
    match word {
        [b'c', d, b'!'] => read_core_number(&[*d]),
        [b'c', d, e, b'!'] => read_core_number(&[*d, *e]),
        _ => None,
    }
}

// Whether a call of this kind changes mappings.
fn is_change(word: &[u8]) -> bool
    ensures { result ≡ is_change word.now }
{
    word == b"mmap".as_slice() || word == b"munmap".as_slice() || word == b"mprotect".as_slice()
}

// The call that a line with this number tells.
#[tactic(auto, unfolding(crate::specs::Calls::call_in))]
fn call_in(line: u64, bytes: &[u8]) -> Option<Call<'_>>
    ensures { result ≡ call_in line (words_of bytes.now) }
{
    let (begin, rest) = next_number(bytes)?;
    let (end, rest) = next_number(rest)?;
    let (named, words) = next_word(rest)?;
    let core = core_in(named)?;
    let (kind, _) = next_word(words)?;
    Some(Call {
        line,
        core,
        begin,
        end,
        is_change: is_change(kind),
        words,
    })
}

// What stands before the first `:`, and behind it.
fn at_colon(line: &[u8]) -> (&[u8], &[u8])
    ensures before { result.0.now ≡ before_colon line.now }
    ensures behind { result.1.now ≡ behind_colon line.now }
{
    let mut at = 0;
    'bytes: while at < line.len() {
        if line[at] == b':' {
            let (before, _) = line.split_at(at);
            let (_, behind) = line.split_at(at + 1);
            return (before, behind);
        }
        at += 1;
    }
    line.split_at(at)
}

// The call that a line of audit's answer shows.
#[tactic(auto, unfolding(crate::specs::Calls::listed_in))]
fn listed_in(line: &[u8]) -> Option<Call<'_>>
    ensures { result ≡ listed_in line.now }
{
    let (before, behind) = at_colon(line);
    let number = read_number(before)?;
    call_in(number, behind)
}

// Adds a call, where there is one.
fn push_some<'a>(calls: &mut Vec<Call<'a>>, call: Option<Call<'a>>) -> Result<(), AllocError>
    ensures { OnOk result (calls.new.items ≡ calls.old.items ++ optional call.entry) }
{
    if let Some(call) = call {
        calls.push(call)?;
    }
    Ok(())
}

/// The calls that the lines of a history tell, in their order.
pub fn own_calls(alloc: Global, text: &[u8]) -> Result<Vec<Call<'_>>, AllocError>
    ensures { IfOk result (λ calls. calls.items ≡ own_from 1 (lines_of text.now)) }
{
    let mut calls = Vec::new(alloc);
    let mut rest = text;
    let mut number = 1u64;
    'lines: while !rest.is_empty() {
        let (line, more) = front_line(rest);
        push_some(&mut calls, call_in(number, line))?;
        rest = more;
        number += 1;
    }
    Ok(calls)
}

/// The calls that the lines of audit's answer show, in their order.
pub fn listed_calls(alloc: Global, text: &[u8]) -> Result<Vec<Call<'_>>, AllocError>
    ensures { IfOk result (λ calls. calls.items ≡ listed_calls (lines_of text.now)) }
{
    let mut calls = Vec::new(alloc);
    let mut rest = text;
    'lines: while !rest.is_empty() {
        let (line, more) = front_line(rest);
        push_some(&mut calls, listed_in(line))?;
        rest = more;
    }
    Ok(calls)
}

// Whether a line tells a call.
fn tells_call(line: &[u8]) -> bool
    ensures { result ≡ tells_call line.now }
{
    call_in(0, line).is_some() || listed_in(line).is_some()
}

/// Whether a line of the text tells a call.
pub fn has_calls(text: &[u8]) -> bool
    ensures { result ≡ has_calls text.now }
{
    let mut rest = text;
    'lines: while !rest.is_empty() {
        let (line, more) = front_line(rest);
        if tells_call(line) {
            return true;
        }
        rest = more;
    }
    false
}
