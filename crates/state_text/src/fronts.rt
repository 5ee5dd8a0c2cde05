//! The front of a trace, up to one of its lines.
ghost use Rattle.std.specs.Prelude.{◌≡◌, Some, length};
ghost use Rattle.state_text.specs.Fronts.{IsFront, lacking_line};
ghost use Rattle.trace_io.specs.Lines.{lines_of};

use trace_io::lines::front_line;

// How many lines the text has.
fn lines_in(text: &[u8]) -> usize
    ensures { result ≡ length (lines_of text.now) }
{
    let mut rest = text;
    let mut lines = 0;
    'lines: while !rest.is_empty() {
        let (_, more) = front_line(rest);
        rest = more;
        lines += 1;
    }
    lines
}

// The front of the text that has this many of its lines, or all, where it has fewer.
fn first_lines(text: &[u8], lines: u64) -> &[u8]
    ensures { IsFront (Some lines) text.now result.now }
{
    let mut at = 0;
    let mut left = lines;
    'bytes: while at < text.len() && left > 0 {
        if text[at] == b'\n' {
            left -= 1;
        }
        at += 1;
    }
    let (front, _) = text.split_at(at);
    front
}

/// The front of the text up to this line, or the whole text.
pub fn front_of(text: &[u8], at: Option<u64>) -> &[u8]
    ensures { IsFront at text.now result.now }
{
    match at {
        None => text,
        Some(line) => first_lines(text, line),
    }
}

/// How many lines there are, where the one that is asked for is behind them all.
pub fn lacking_line(text: &[u8], at: Option<u64>) -> Option<u64>
    ensures { result ≡ lacking_line at (lines_of text.now) }
{
    let line = at?;
    let lines = lines_in(text) as u64;
    if lines < line {
        return Some(lines);
    }
    None
}
