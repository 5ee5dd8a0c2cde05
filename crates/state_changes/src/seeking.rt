//! The first line of a trace behind which the text of the state has these words.
ghost use Rattle.std.specs.Prelude.{◌≡◌, ◌↔◌, IfOk, IsTrue, length};
ghost use Rattle.trace_io.specs.Lines.{lines_of};
ghost use Rattle.state_changes.specs.Pages.{text_behind};
ghost use Rattle.state_changes.specs.Seeking.{HasWords, Seeks};

use crate::StateRecorder;
use crate::behind::text_after;
use crate::spans::span_of;
use memchr::memmem;
use std::alloc::{AllocError, Global};
use trace_io::lines::front_line;

/// Where a text was sought.
#[derive(Drop)]
pub struct Sought {
    /// So many lines.
    pub lines: usize,
    /// The text of the state behind them.
    pub text: Vec<u8>,
    /// Whether it has the words.
    pub has: bool,
}

// Whether the words stand somewhere in the text.
fn has_words(text: &[u8], words: &[u8]) -> bool
    ensures { IsTrue result ↔ HasWords words.now text.now }
{
    memmem::find(text, words).is_some()
}

/// The first lines of the trace, whose steps were recorded, behind which the text of the state has these words, or all lines.
pub fn first_with(
    alloc: Global,
    trace: &[u8],
    recorder: &StateRecorder,
    words: &[u8],
) -> Result<Sought, AllocError>
    ensures { IfOk result (Seeks words.now (length (lines_of trace.now))
        (λ n. text_behind n (lines_of trace.now) recorder.now.moments recorder.now.first)) }
{
    let mut text = Vec::new(alloc);
    text.extend_from_slice(recorder.first())?;
    let mut rest = trace;
    let mut left = recorder.moments();
    let mut lines = 0;
    'lines: loop {
        let has = has_words(text.as_slice(), words);
        let is_end = rest.is_empty();
        if has || is_end {
            return Ok(Sought { lines, text, has });
        }
        let (line, more) = front_line(rest);
        let (own, others) = left.split_at(span_of(line, left));
        text = text_after(alloc, text.as_slice(), own)?;
        rest = more;
        left = others;
        lines += 1;
    }
}
