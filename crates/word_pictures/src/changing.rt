//! What `run --state` does: a trace is replayed, and each line is shown with what it changes in the state.
ghost use Rattle.std.specs.Prelude.{◌≡◌, ◌≢◌, ◌⊎◌, [], Err, IfErr, IfOk, IfSome, List, Some, true, ℕ};
ghost use Rattle.std.specs.Io.KnownBytes.{Keeps};
ghost use Rattle.word_pictures.specs.Changing.{SaysStates, as_it_is, lacking_change};
ghost use Rattle.trace.specs.Echo.{EchoesAll};
ghost use Rattle.word_pictures.specs.Picture.{Fails, ShowsText, TextEnds};
ghost use Rattle.word_pictures.specs.Stepping.{is_whole};
ghost use Rattle.machine_model.specs.declared.setup.CallLimit.TheVariants.{Usual};
ghost use Rattle.state_changes.specs.Behind.{SaysSteps};
ghost use Rattle.trace.specs.Numbered.{texts_of};
ghost use Rattle.trace_words.specs.declared.fault.TraceFault.TheVariants as Of;
ghost use Rattle.trace_io.specs.Lines.{lines_of};
ghost use Rattle.trace_io.specs.Sink.{AppendsFront};

use crate::picturing::record;
use machine_model::CallLimit;
use state_changes::{StateRecorder, changes_of};
use std::alloc::Global;
use trace::echo::replay_echoing;
use trace_io::sink::{Sink, write_all};
use trace_io::source::Counted;
use trace_words::fault::TraceFault;
use word_parts::asked::Echoed;
use word_parts::held::Held;

// What the lines show, with these texts below them, where there is memory for it.
fn echoed(alloc: Global, trace: &[u8], shows: Echoed, texts: &[Vec<u8>]) -> Option<Vec<u8>>
    ensures { IfSome result (λ text. EchoesAll shows.coloured shows.logs (texts_of texts.now) Usual trace.now (Some []) (Some text.items)) }
{
    let mut reader = Counted::new(trace);
    let bytes = Vec::new(alloc);
    let mut held = Held::new(bytes);
    let replayed = replay_echoing(
        alloc,
        &mut reader,
        &mut held,
        CallLimit::Usual,
        shows.coloured,
        shows.logs,
        texts,
    );
    match replayed.ended {
        Ok(()) => Some(held.bytes),
        Err(_) => None,
    }
}

// The changes of what was recorded, where all was.
fn changes_seen(alloc: Global, trace: &[u8], recorder: &StateRecorder) -> Option<Vec<Vec<u8>>>
    ensures whole { IfSome result (λ texts. is_whole recorder.now) }
    ensures says { IfSome result (λ texts. SaysSteps (lines_of trace.now) recorder.now (texts_of texts.items)) }
{
    if !recorder.is_whole() {
        return None;
    }
    match changes_of(alloc, trace, recorder) {
        Ok(texts) => Some(texts),
        Err(_) => None,
    }
}

// What the lines show with these changes.
fn shown(alloc: Global, trace: &[u8], recorder: &StateRecorder, shows: Echoed) -> Option<Vec<u8>>
    ensures whole { IfSome result (λ text. is_whole recorder.now) }
    ensures says { IfSome result (λ text. (changes : List (List ℕ)) × SaysSteps (lines_of trace.now) recorder.now changes
        × EchoesAll shows.coloured shows.logs changes Usual trace.now (Some []) (Some text.items)) }
{
    let texts = changes_seen(alloc, trace, recorder)?;
    echoed(alloc, trace, shows, texts.as_slice())
}

// The whole text of the trace.
fn states_text(alloc: Global, trace: &[u8], shows: Echoed) -> Result<Vec<u8>, TraceFault>
    ensures ok { IfOk result (λ text. SaysStates shows trace.now text.items) }
    ensures err { IfErr result (Fails Usual trace.now) }
    ensures read { result ≢ Err Of.ReadFailed }
    ensures unwritten { result ≢ Err Of.WriteFailed }
{
    let Ok(recorder) = StateRecorder::new(alloc) else {
        return Err(TraceFault::NoMemory);
    };
    let recorder = match record(alloc, trace, CallLimit::Usual, recorder) {
        Ok(recorder) => recorder,
        Err(fault) => return Err(fault),
    };
    match shown(alloc, trace, &recorder, shows) {
        Some(text) => Ok(text),
        None => Err(TraceFault::NoMemory),
    }
}

// Writes it.
fn write_text<W: Sink>(text: &[u8], out: &mut W) -> Result<Option<u64>, TraceFault>
    ensures ok { IfOk result (λ x. (x ≡ lacking_change text.now) × ShowsText x text.now (W.contents out.old) (W.contents out.new)) }
    ensures err { IfErr result (λ f. ((f ≡ Of.NoMemory) × Keeps (W.contents out.old) (W.contents out.new))
        ⊎ ((f ≡ Of.WriteFailed) × AppendsFront (W.contents out.old) (W.contents out.new) text.now)) }
    ensures read { result ≢ Err Of.ReadFailed }
    ensures write { result ≡ Err Of.WriteFailed → W.failed out.new ≡ true }
    ensures kept { (result ≡ Err Of.WriteFailed) ⊎ (W.failed out.new ≡ W.failed out.old) }
{
    if write_all(out, text).is_err() {
        return Err(TraceFault::WriteFailed);
    }
    Ok(None)
}

/// Replays the trace, and writes each line with what it gave, and below it the lines of the state's text that went, and those that came.
pub(crate) fn draw_changes<W: Sink>(
    alloc: Global,
    trace: &[u8],
    out: &mut W,
    shows: Echoed,
) -> Result<Option<u64>, TraceFault>
    ensures ends { TextEnds (SaysStates shows trace.now) (Fails Usual trace.now) lacking_change as_it_is
        (W.contents out.old) (W.contents out.new) result }
    ensures read { result ≢ Err Of.ReadFailed }
    ensures write { result ≡ Err Of.WriteFailed → W.failed out.new ≡ true }
    ensures kept { (result ≡ Err Of.WriteFailed) ⊎ (W.failed out.new ≡ W.failed out.old) }
{
    match states_text(alloc, trace, shows) {
        Ok(text) => write_text(text.as_slice(), out),
        Err(fault) => Err(fault),
    }
}
