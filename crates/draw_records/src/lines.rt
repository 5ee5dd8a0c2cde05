//! Which lines of a trace ask for steps.
ghost use Rattle.std.specs.Prelude.{◌≡◌, ◌++◌, IfOk, OnOk};
ghost use Rattle.draw_records.specs.Lines.{asked_by, asking_from, asking_lines};
ghost use Rattle.trace_io.specs.Lines.{lines_of};

use std::alloc::{AllocError, Allocator};
use trace_io::lines::front_line;
use trace_text::{Line, read_line};

/// A line that asks for steps.
#[derive(Clone, Copy)]
pub struct Asking {
    /// Its number in the trace, from 1 on.
    pub number: u64,
    /// Whether it asks for a call's steps up to one that doesn't go on, and not for one step.
    pub is_whole: bool,
}

// What the line with this number asks for, if it asks for steps.
fn asked_by(number: u64, line: &[u8]) -> Option<Asking>
    ensures { result ≡ asked_by number line.now }
{
    match read_line(line) {
        Some(Line::Act(..)) | Some(Line::Fold(_)) => Some(Asking {
            number,
            is_whole: false,
        }),
        Some(Line::Finish(_)) | Some(Line::Now(..)) => Some(Asking {
            number,
            is_whole: true,
        }),
        Some(Line::Blank) | Some(Line::Space { .. }) | Some(Line::File { .. }) | None => None,
    }
}

// Appends what the line with this number asks for, if it asks for steps.
fn put_asking<A: Allocator>(
    all: &mut Vec<Asking, A>,
    number: u64,
    line: &[u8],
) -> Result<(), AllocError>
    ensures { OnOk result (all.new.items ≡ all.old.items ++ asking_lines number line.now) }
{
    if let Some(one) = asked_by(number, line) {
        all.push(one)?;
    }
    Ok(())
}

/// The lines of the text that ask for steps, in order.
pub fn asking_of<A: Allocator>(alloc: A, text: &[u8]) -> Result<Vec<Asking, A>, AllocError>
    ensures { IfOk result (λ all. all.items ≡ asking_from 1 (lines_of text.now)) }
{
    let mut all: Vec<Asking, A> = Vec::new(alloc);
    let mut rest = text;
    let mut number = 1u64;
    'lines: while !rest.is_empty() {
        let (line, more) = front_line(rest);
        put_asking(&mut all, number, line)?;
        rest = more;
        number = number.saturating_add(1);
    }
    Ok(all)
}
