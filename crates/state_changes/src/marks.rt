//! The lines by which one text differs from another.
ghost use Rattle.std.specs.Prelude.{◌≡◌, ◌++◌, ◌+◌, ◌<◌, [], IfOk, List, OnOk, codes, length, ℕ};
ghost use Rattle.std.specs.List.{list_any};
ghost use Rattle.std.specs.Str.{bytes_eq};
ghost use Rattle.trace_io.specs.Lines.{lines_of};
ghost use Rattle.state_changes.specs.Marks.{IsOther, PassesOn, SaysDifference};

use std::alloc::{AllocError, Global};
use trace_io::lines::front_line;

// Appends a line behind a sign.
fn put_mark(out: &mut Vec<u8>, sign: &str, line: &[u8]) -> Result<(), AllocError>
    ensures { OnOk result (out.new.items ≡ out.old.items ++ sign.now ++ line.now ++ codes "\n") }
{
    out.extend_from_slice(sign.as_bytes())?;
    out.extend_from_slice(line)?;
    out.extend_from_slice(b"\n")
}

/// Whether the line is one of the text's.
pub(crate) fn stands_in(line: &[u8], text: &[u8]) -> bool
    ensures { result ≡ list_any (bytes_eq line.now) (lines_of text.now) }
{
    let mut rest = text;
    'lines: while !rest.is_empty() {
        let (front, more) = front_line(rest);
        if line == front {
            return true;
        }
        rest = more;
    }
    false
}

// Puts that the first line of the old text goes, which isn't that of the new one, and answers what follows it.
fn put_gone<'a>(out: &mut Vec<u8>, old: &'a [u8]) -> Result<&'a [u8], AllocError>
    requires { 0 < length old.now }
    ensures passes { IfOk result (λ rest. (new : List ℕ) → IsOther old.now new → PassesOn out.old.items out.new.items old.now rest.now new new) }
    ensures less { IfOk result (λ rest. length rest.now < length old.now) }
{
    let (line, rest) = front_line(old);
    put_mark(out, "- ", line)?;
    Ok(rest)
}

// Puts that the first line of the new text comes, which isn't that of the old one, and answers what follows it.
fn put_come<'a>(out: &mut Vec<u8>, new: &'a [u8]) -> Result<&'a [u8], AllocError>
    requires { 0 < length new.now }
    ensures passes { IfOk result (λ more. (old : List ℕ) → IsOther new.now old → PassesOn out.old.items out.new.items old old new.now more.now) }
    ensures less { IfOk result (λ more. length more.now < length new.now) }
{
    let (line, more) = front_line(new);
    put_mark(out, "+ ", line)?;
    Ok(more)
}

// Passes lines of texts that have some: the first of both, where they are the same. Else that of the old text goes, unless it comes
// later in the new one.
fn pass<'a>(
    out: &mut Vec<u8>,
    old: &'a [u8],
    new: &'a [u8],
) -> Result<(&'a [u8], &'a [u8]), AllocError>
    requires old { 0 < length old.now }
    requires new { 0 < length new.now }
    ensures passes { IfOk result (λ left. PassesOn out.old.items out.new.items old.now left.0.now new.now left.1.now) }
    ensures less { IfOk result (λ left. length left.0.now + length left.1.now < length old.now + length new.now) }
{
    let (line, rest) = front_line(old);
    let (other, more) = front_line(new);
    if line == other {
        return Ok((rest, more));
    }
    if stands_in(line, more) {
        return Ok((old, put_come(out, new)?));
    }
    Ok((put_gone(out, old)?, new))
}

// Puts that all lines of the old text go, where none is left of the new one.
fn put_all_gone(out: &mut Vec<u8>, old: &[u8]) -> Result<(), AllocError>
    ensures { OnOk result (PassesOn out.old.items out.new.items old.now [] [] []) }
{
    let mut rest = old;
    'lines: while !rest.is_empty() {
        rest = put_gone(out, rest)?;
    }
    Ok(())
}

// Puts that all lines of the new text come, where none is left of the old one.
fn put_all_come(out: &mut Vec<u8>, new: &[u8]) -> Result<(), AllocError>
    ensures { OnOk result (PassesOn out.old.items out.new.items [] [] new.now []) }
{
    let mut rest = new;
    'lines: while !rest.is_empty() {
        rest = put_come(out, rest)?;
    }
    Ok(())
}

// Appends the lines that go and come.
fn put_marks(out: &mut Vec<u8>, before: &[u8], after: &[u8]) -> Result<(), AllocError>
    ensures { OnOk result (PassesOn out.old.items out.new.items before.now [] after.now []) }
{
    let mut old = before;
    let mut new = after;
    'both: loop {
        let no_old = old.is_empty();
        if no_old {
            put_all_come(out, new)?;
            return Ok(());
        }
        let no_new = new.is_empty();
        if no_new {
            put_all_gone(out, old)?;
            return Ok(());
        }
        let (rest, more) = pass(out, old, new)?;
        old = rest;
        new = more;
    }
}

/// The lines by which the text before differs from that after: a line `- LINE` for each that goes, `+ LINE` for each that comes.
pub fn difference_text(alloc: Global, before: &[u8], after: &[u8]) -> Result<Vec<u8>, AllocError>
    ensures { IfOk result (λ text. SaysDifference text.items before.now after.now) }
{
    let mut text = Vec::new(alloc);
    if before == after {
        return Ok(text);
    }
    put_marks(&mut text, before, after)?;
    Ok(text)
}
