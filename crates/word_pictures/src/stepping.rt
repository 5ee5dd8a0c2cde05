//! What the word `page` does: a trace is replayed, and a page that steps through it is written.
ghost use Rattle.std.specs.Prelude.{◌≡◌, ◌≢◌, ◌⊎◌, Err, IfErr, IfOk, None, true};
ghost use Rattle.std.specs.Io.KnownBytes.{Appends, Keeps};
ghost use Rattle.word_pictures.specs.Stepping.{Paged, is_whole, lacking_page, made_of, page_written};
ghost use Rattle.word_pictures.specs.Picture.{Fails, TextEnds};
ghost use Rattle.machine_model.specs.declared.setup.CallLimit.TheVariants.{Usual};
ghost use Rattle.trace_words.specs.declared.fault.TraceFault.TheVariants as Of;
ghost use Rattle.trace_io.specs.Sink.{AppendsFront};

use crate::picturing::record_shown;
use machine_model::CallLimit;
use state_changes::StateRecorder;
use state_changes::data::page_of;
use state_changes::template::{BACK, FRONT};
use std::alloc::{AllocError, Global};
use trace_io::sink::{Sink, write_all};
use trace_words::fault::TraceFault;
use trace_words::show::Show;
use word_parts::held::Held;

// The page of what was recorded and shown.
#[tactic(auto, unfolding(crate::specs::Stepping::page_written))]
fn page_made(
    alloc: Global,
    trace: &[u8],
    recorder: &StateRecorder,
    shown: &[u8],
) -> Result<Vec<u8>, AllocError>
    ensures { IfOk result (λ page. page.items ≡ page_written trace.now (made_of recorder.now shown.now)) }
{
    page_of(alloc, FRONT, BACK, trace, shown, recorder)
}

// Writes it, where all was recorded. No line is lacking.
fn write_page<W: Sink>(
    alloc: Global,
    trace: &[u8],
    recorder: &StateRecorder,
    shown: &[u8],
    out: &mut W,
) -> Result<Option<u64>, TraceFault>
    ensures ok { IfOk result (λ x. is_whole recorder.now × (x ≡ None) × Appends (W.contents out.old) (W.contents out.new)
        (page_written trace.now (made_of recorder.now shown.now))) }
    ensures err { IfErr result (λ f. ((f ≡ Of.NoMemory) × Keeps (W.contents out.old) (W.contents out.new))
        ⊎ ((f ≡ Of.WriteFailed) × is_whole recorder.now × AppendsFront (W.contents out.old) (W.contents out.new)
        (page_written trace.now (made_of recorder.now shown.now)))) }
    ensures read { result ≢ Err Of.ReadFailed }
    ensures write { result ≡ Err Of.WriteFailed → W.failed out.new ≡ true }
    ensures kept { (result ≡ Err Of.WriteFailed) ⊎ (W.failed out.new ≡ W.failed out.old) }
{
    if !recorder.is_whole() {
        return Err(TraceFault::NoMemory);
    }
    let Ok(page) = page_made(alloc, trace, recorder, shown) else {
        return Err(TraceFault::NoMemory);
    };
    if write_all(out, page.as_slice()).is_err() {
        return Err(TraceFault::WriteFailed);
    }
    Ok(None)
}

/// Replays the trace, and writes the page that steps through it, with what `run --log` writes of it.
pub(crate) fn draw_page<W: Sink>(
    alloc: Global,
    trace: &[u8],
    out: &mut W,
) -> Result<Option<u64>, TraceFault>
    ensures ends { TextEnds (Paged trace.now) (Fails Usual trace.now) lacking_page (page_written trace.now)
        (W.contents out.old) (W.contents out.new) result }
    ensures read { result ≢ Err Of.ReadFailed }
    ensures write { result ≡ Err Of.WriteFailed → W.failed out.new ≡ true }
    ensures kept { (result ≡ Err Of.WriteFailed) ⊎ (W.failed out.new ≡ W.failed out.old) }
{
    let Ok(recorder) = StateRecorder::new(alloc) else {
        return Err(TraceFault::NoMemory);
    };
    let bytes = Vec::new(alloc);
    let mut held = Held::new(bytes);
    let show = Show::OutcomesAndLog;
    match record_shown(alloc, trace, &mut held, show, CallLimit::Usual, recorder) {
        Ok(recorder) => write_page(alloc, trace, &recorder, held.bytes.as_slice(), out),
        Err(fault) => Err(fault),
    }
}
