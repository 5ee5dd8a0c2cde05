//! The text of a ruling.
ghost use Rattle.std.specs.Prelude.{◌≡◌, ◌≤◌, ◌++◌, IfOk, codes, decimal, length};
ghost use Rattle.trace_text.specs.Printing.{text_of};
ghost use Rattle.overlapping.specs.Ends.{ruling_text};

use crate::judging::Ruling;
use std::alloc::Allocator;
use trace_text::{LineText, push_number, push_reply};
use vm_base::{NoMemory, Reply};

/// The line that tells a ruling.
pub fn ruling_text(ruling: Ruling) -> LineText
    ensures { result.bytes ≡ ruling_text ruling }
{
    match ruling {
        Ruling::Legal(calls) => line_text("legal ", calls),
        Ruling::NoOrder { line, reply } => no_order_text(line, reply),
        Ruling::Undecided(line) => line_text("undecided ", line),
    }
}

// A line of a word and a number.
fn line_text(word: &str, number: u64) -> LineText
    requires { length word.now ≤ 10 }
    ensures { result.bytes ≡ word.now ++ decimal number ++ codes "\n" }
{
    let mut text = LineText::new();
    text.push_str(word);
    push_number(&mut text, number);
    text.push_str("\n");
    text
}

// The line that tells that there is no order.
fn no_order_text(line: u64, reply: Reply) -> LineText
    ensures { result.bytes ≡ codes "no order " ++ decimal line ++ codes ": replied " ++ text_of reply ++ codes "\n" }
{
    let mut text = LineText::new();
    text.push_str("no order ");
    push_number(&mut text, line);
    text.push_str(": replied ");
    push_reply(&mut text, reply);
    text.push_str("\n");
    text
}

/// The line of a ruling, and behind it what explains it.
pub fn told_text<A: Allocator + Clone + Drop>(
    alloc: &A,
    ruling: Ruling,
    explanation: &[u8],
) -> Result<Vec<u8, A>, NoMemory>
    ensures { IfOk result (λ told. told.items ≡ ruling_text ruling ++ explanation.now) }
{
    let line = ruling_text(ruling);
    let mut told = Vec::new(alloc.clone()?);
    told.extend_from_slice(line.as_str().as_bytes())?;
    told.extend_from_slice(explanation)?;
    Ok(told)
}
