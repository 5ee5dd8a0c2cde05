//! The name of a file, in the comment before the file's line.
ghost use Rattle.std.specs.Prelude.{◌≡◌, []};
ghost use Rattle.draw_steps.specs.Names.{behind, is_line_of, name_of, named};
ghost use Rattle.trace_text.specs.Line.{line_of};

use trace_io::lines::front_line;
use trace_text::{Line, number_text, read_line};

// The first bytes of a text: none.
fn nothing_of(text: &[u8]) -> &[u8]
    ensures { result.now ≡ [] }
{
    let (nothing, _) = text.split_at(0);
    nothing
}

// What stands in a line behind these bytes: nothing where it doesn't begin with them.
#[tactic(auto, using(std::proofs::lemmas::List::take_min, std::proofs::lemmas::List::drop_min))]
fn behind<'a>(line: &'a [u8], front: &[u8]) -> &'a [u8]
    ensures { result.now ≡ behind front.now line.entry.now }
{
    let (head, rest) = line.split_at(front.len().min(line.len()));
    if head == front {
        return rest;
    }
    nothing_of(line)
}

// The name that a comment gives to the file of this number; nothing where the line is no such comment.
fn named(line: &[u8], number: u64) -> &[u8]
    ensures { result.now ≡ named number line.now }
{
    let digits = number_text(number);
    let rest = behind(line, b"# file ");
    let rest = behind(rest, digits.as_str().as_bytes());
    behind(rest, b" ")
}

// Tells whether a line is that of the file of this number.
fn is_line_of(line: &[u8], number: u64) -> bool
    ensures { result ≡ is_line_of number (line_of line.now) }
{
    match read_line(line) {
        Some(Line::File { number: other, .. }) => other == number,
        _ => false,
    }
}

/// The name of the file of this number, as it stands in the comment `# file N NAME` right before the file's line in the text of a
/// trace; no bytes where there is no such comment.
pub fn name_of(text: &[u8], number: u64) -> &[u8]
    ensures { result.now ≡ name_of text.now number }
{
    let mut rest = text;
    let mut before = nothing_of(text);
    'lines: while !rest.is_empty() {
        let (line, more) = front_line(rest);
        if is_line_of(line, number) {
            return named(before, number);
        }
        before = line;
        rest = more;
    }
    nothing_of(text)
}
