//! What each line of a trace changes in the text of the state.
ghost use Rattle.std.specs.Prelude.{◌≡◌, IfOk};
ghost use Rattle.state_changes.specs.Behind.{SaysSteps};
ghost use Rattle.trace.specs.Numbered.{texts_of};
ghost use Rattle.trace_io.specs.Lines.{lines_of};
ghost use Rattle.state_changes.specs.Pages.{all_changed};

use crate::marks::difference_text;
use crate::spans::span_of;
use crate::{StateRecorder, StateStep};
use std::alloc::{AllocError, Global};
use trace_io::lines::front_line;

/// What the steps make of the text, one after another.
pub(crate) fn text_after(
    alloc: Global,
    text: &[u8],
    moments: &[StateStep],
) -> Result<Vec<u8>, AllocError>
    ensures { IfOk result (λ after. after.items ≡ all_changed text.now moments.now) }
{
    let mut after = Vec::new(alloc);
    after.extend_from_slice(text)?;
    let mut at = 0;
    'moments: while at < moments.len() {
        after = moments[at].change().apply(alloc, after.as_slice())?;
        at += 1;
    }
    Ok(after)
}

/// For each line of the trace, whose steps were recorded, the lines that go from the text of the state, and those that come.
pub fn changes_of(
    alloc: Global,
    trace: &[u8],
    recorder: &StateRecorder,
) -> Result<Vec<Vec<u8>>, AllocError>
    ensures { IfOk result (λ texts. SaysSteps (lines_of trace.now) recorder.now (texts_of texts.items)) }
{
    let mut texts = Vec::new(alloc);
    let mut text = Vec::new(alloc);
    text.extend_from_slice(recorder.first())?;
    let mut rest = trace;
    let mut left = recorder.moments();
    'lines: while !rest.is_empty() {
        let (line, more) = front_line(rest);
        let (own, others) = left.split_at(span_of(line, left));
        let after = text_after(alloc, text.as_slice(), own)?;
        texts.push(difference_text(alloc, text.as_slice(), after.as_slice())?)?;
        text = after;
        rest = more;
        left = others;
    }
    Ok(texts)
}
