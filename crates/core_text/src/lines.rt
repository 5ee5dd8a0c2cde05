//! Lines of a text, each behind its number.
ghost use Rattle.std.specs.Prelude.{◌≡◌, ◌++◌, [], IfOk, OnOk, codes, decimal, get_or};
ghost use Rattle.trace_io.specs.Lines.{lines_of};
ghost use Rattle.core_text.specs.Told.{core_text, kept_text, numbered_text, told_line};

use cores::{Core, Kept};
use std::alloc::Allocator;
use trace_io::lines::front_line;
use trace_text::{LineText, push_number};
use vm_base::NoMemory;

/// The line with this number, counted from 0, if the text has it; else nothing.
#[tactic(auto, using(crate::proofs::Behind::no_line, crate::proofs::Behind::some_left, crate::proofs::Behind::this_line, crate::proofs::Behind::next_line))]
fn line_at(text: &[u8], number: u64) -> &[u8]
    ensures { result.now ≡ get_or (lines_of text.now) number [] }
{
    let mut rest = text;
    let mut left = number;
    'lines: loop {
        if rest.is_empty() {
            return rest;
        }
        let (line, more) = front_line(rest);
        if left == 0 {
            return line;
        }
        rest = more;
        left -= 1;
    }
}

/// A number and a colon.
fn front(number: u64) -> LineText
    ensures { result.bytes ≡ decimal number ++ codes ": " }
{
    let mut text = LineText::new();
    push_number(&mut text, number);
    text.push_str(": ");
    text
}

/// Appends the line with this number, counted from 1, behind it.
#[tactic(auto, using(crate::proofs::Behind::pushed_line))]
fn push_line<A: Allocator>(out: &mut Vec<u8, A>, text: &[u8], number: u64) -> Result<(), NoMemory>
    ensures { OnOk result (out.new.items ≡ out.old.items ++ told_line (lines_of text.now) number) }
{
    let front = front(number);
    out.extend_from_slice(front.as_str().as_bytes())?;
    let line = line_at(text, number.saturating_sub(1));
    out.extend_from_slice(line)?;
    out.extend_from_slice(b"\n")?;
    Ok(())
}

/// The number of a call's line.
fn number_of(lines: &[u64], call: usize) -> u64
    ensures { result ≡ get_or lines.now call 0 }
{
    match lines.get(call).copied() {
        Some(number) => number,
        None => 0,
    }
}

/// Appends the lines of calls.
#[tactic(auto, using(crate::proofs::Behind::pushed_kept, crate::proofs::Behind::pushed_none))]
fn push_kept<A: Allocator>(
    out: &mut Vec<u8, A>,
    text: &[u8],
    lines: &[u64],
    kept: &[Kept],
) -> Result<(), NoMemory>
    ensures { OnOk result (out.new.items ≡ out.old.items ++ kept_text (lines_of text.now) lines.now kept.now) }
{
    let [first, rest @ ..] = kept else {
        return Ok(());
    };
    push_line(out, text, number_of(lines, first.number))?;
    push_kept(out, text, lines, rest)
}

/// The lines of a core's calls in the text of its history, where these are the numbers of the lines of all its calls.
pub fn core_text<A: Allocator + Clone + Drop>(
    alloc: &A,
    text: &[u8],
    lines: &[u64],
    core: &Core<A>,
) -> Result<Vec<u8, A>, NoMemory>
    ensures { IfOk result (λ told. told.items ≡ core_text (lines_of text.now) lines.now core.now.number core.now.kept.items) }
{
    let mut out = Vec::new(alloc.clone()?);
    push_line(&mut out, text, number_of(lines, core.number))?;
    push_kept(&mut out, text, lines, core.kept.as_slice())?;
    Ok(out)
}

/// Appends the lines of a text with these numbers, each behind its own. What an error leaves of it isn't told.
#[tactic(auto, using(crate::proofs::Behind::pushed_numbers, crate::proofs::Behind::pushed_no_number))]
pub fn push_numbered<A: Allocator>(
    out: &mut Vec<u8, A>,
    text: &[u8],
    numbers: &[u64],
) -> Result<(), NoMemory>
    ensures { OnOk result (out.new.items ≡ out.old.items ++ numbered_text (lines_of text.now) numbers.now) }
{
    let [first, rest @ ..] = numbers else {
        return Ok(());
    };
    push_line(out, text, *first)?;
    push_numbered(out, text, rest)
}
