//! What `state --who` does: what is known of a page is said.
ghost use Rattle.std.specs.Prelude.{◌≡◌, ◌≢◌, ◌⊎◌, Err, IfErr, IfOk, true};
ghost use Rattle.machine_model.specs.declared.setup.CallLimit.TheVariants.{Usual};
ghost use Rattle.state_changes.specs.Behind.{SaysChanges, SaysSteps};
ghost use Rattle.trace.specs.Numbered.{texts_of};
ghost use Rattle.trace_io.specs.Lines.{lines_of};
ghost use Rattle.trace_words.specs.declared.fault.TraceFault.TheVariants as Of;
ghost use Rattle.word_pictures.specs.Picture.{Fails, TextEnds};
ghost use Rattle.word_pictures.specs.Saying.{FailsKnown, SaysKnown, lacking_said, text_said};

use crate::saying::{Say, write_said};
use crate::seeking::recorded;
use crate::stating::text_at;
use state_changes::knowing::known_of;
use state_changes::{StateRecorder, changes_of};
use state_text::fronts::{front_of, lacking_line};
use std::alloc::Global;
use trace_io::sink::Sink;
use trace_words::fault::TraceFault;
use word_parts::asked::PageAsked;

// What each line changes in the state, where there is memory for it.
fn changes_told(
    alloc: Global,
    trace: &[u8],
    recorder: &StateRecorder,
) -> Result<Vec<Vec<u8>>, TraceFault>
    ensures ok { IfOk result (λ texts. SaysSteps (lines_of trace.now) recorder.now (texts_of texts.items)) }
    ensures err { IfErr result (λ f. f ≡ Of.NoMemory) }
    ensures read { result ≢ Err Of.ReadFailed }
    ensures unwritten { result ≢ Err Of.WriteFailed }
{
    match changes_of(alloc, trace, recorder) {
        Ok(texts) => Ok(texts),
        Err(_) => Err(TraceFault::NoMemory),
    }
}

// Replays the trace, and tells what each line changes in the state.
fn changes_in(alloc: Global, trace: &[u8]) -> Result<Vec<Vec<u8>>, TraceFault>
    ensures ok { IfOk result (λ texts. SaysChanges (lines_of trace.now) (texts_of texts.items)) }
    ensures err { IfErr result (Fails Usual trace.now) }
    ensures read { result ≢ Err Of.ReadFailed }
    ensures unwritten { result ≢ Err Of.WriteFailed }
{
    let recorder = match recorded(alloc, trace) {
        Ok(recorder) => recorder,
        Err(fault) => return Err(fault),
    };
    let changes = changes_told(alloc, trace, &recorder);
    drop(recorder);
    changes
}

// What is known of a page.
fn say_known(alloc: Global, trace: &[u8], page: PageAsked) -> Result<Say, TraceFault>
    ensures ok { IfOk result (SaysKnown page trace.now) }
    ensures err { IfErr result (FailsKnown page trace.now) }
    ensures read { result ≢ Err Of.ReadFailed }
    ensures unwritten { result ≢ Err Of.WriteFailed }
{
    let state = match text_at(alloc, trace, page.at) {
        Ok(state) => state,
        Err(fault) => return Err(fault),
    };
    let front = front_of(trace, page.at);
    let lacking = lacking_line(trace, page.at);
    let changes = match changes_in(alloc, front) {
        Ok(changes) => changes,
        Err(fault) => return Err(fault),
    };
    match known_of(alloc, page.addr, changes.as_slice(), state.as_slice()) {
        Ok(text) => Ok(Say { text, lacking }),
        Err(_) => Err(TraceFault::NoMemory),
    }
}

/// Replays the trace up to a line, or to its end, and writes the lines of the state there that have to do with the page, each with the
/// number of the line at which it came; or tells how many lines there are, where that one is behind them all.
pub(crate) fn draw_known<W: Sink>(
    alloc: Global,
    trace: &[u8],
    out: &mut W,
    page: PageAsked,
) -> Result<Option<u64>, TraceFault>
    ensures ends { TextEnds (SaysKnown page trace.now) (FailsKnown page trace.now) lacking_said text_said
        (W.contents out.old) (W.contents out.new) result }
    ensures read { result ≢ Err Of.ReadFailed }
    ensures write { result ≡ Err Of.WriteFailed → W.failed out.new ≡ true }
    ensures kept { (result ≡ Err Of.WriteFailed) ⊎ (W.failed out.new ≡ W.failed out.old) }
{
    match say_known(alloc, trace, page) {
        Ok(say) => write_said(&say, out),
        Err(fault) => Err(fault),
    }
}
