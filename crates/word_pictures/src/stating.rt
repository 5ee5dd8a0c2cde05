//! What the word `state` does beside reading: a trace is replayed, and the state at its end is written, or that behind one of its lines.
ghost use Rattle.std.specs.Prelude.{◌≡◌, ◌≢◌, ◌⊎◌, ◌++◌, Err, IfErr, IfOk, OnOk, true};
ghost use Rattle.std.specs.Io.KnownBytes.{Keeps};
ghost use Rattle.word_pictures.specs.Picture.{ShowsText, TextEnds};
ghost use Rattle.word_pictures.specs.State.{FailsTo, SeesState, lacking_state, sight_text};
ghost use Rattle.state_text.specs.Fronts.{lines_to};
ghost use Rattle.state_text.specs.declared.form.Form.TheVariants.{Text};
ghost use Rattle.word_pictures.specs.Saying.{TellsState};
ghost use Rattle.state_text.specs.Traces.{told_text};
ghost use Rattle.state_changes.specs.Leads.{IsTold};
ghost use Rattle.trace_words.specs.declared.fault.TraceFault.TheVariants as Of;
ghost use Rattle.trace_io.specs.Lines.{lines_of};
ghost use Rattle.trace_io.specs.Sink.{AppendsFront};

use crate::picturing::in_memory;
use state_seen::mirror::Mirror;
use state_text::Form;
use state_text::counts::put_counts_at;
use state_text::fronts::{front_of, lacking_line};
use state_text::texts::put_state;
use std::alloc::{AllocError, Global};
use trace::standing::replay_standing;
use trace_io::sink::{Sink, write_all};
use trace_io::source::Counted;
use trace_words::fault::TraceFault;
use word_parts::held::Held;

/// What is seen at the end of a trace.
#[derive(Drop)]
pub(crate) struct Sight {
    /// What its cores do and hold.
    pub(crate) mirror: Mirror<Global>,
    /// Its mappings, as text.
    pub(crate) maps: Vec<u8>,
    /// Its counts, as text.
    pub(crate) counts: Vec<u8>,
}

// All that was seen.
fn put_sight(out: &mut Vec<u8>, sight: &Sight, form: Form) -> Result<(), AllocError>
    ensures { OnOk result (out.new.items ≡ out.old.items ++ sight_text form sight.now) }
{
    put_state(out, form, &sight.mirror, sight.maps.as_slice())?;
    out.extend_from_slice(sight.counts.as_slice())
}

// Replays the trace beside the mirror, and lists the mappings and the counts at its end.
fn see(alloc: Global, trace: &[u8], mirror: Mirror<Global>, form: Form) -> Result<Sight, TraceFault>
    ensures ends { SeesState form mirror trace.now result }
    ensures read { result ≢ Err Of.ReadFailed }
    ensures unwritten { result ≢ Err Of.WriteFailed }
{
    let mut reader = Counted::new(trace);
    let bytes = Vec::new(alloc);
    let mut held = Held::new(bytes);
    let stood = replay_standing(alloc, &mut reader, &mut held, mirror);
    if let Err(fault) = stood.ended {
        return Err(in_memory(fault));
    }
    let mut counts = Vec::new(alloc);
    if put_counts_at(&mut counts, form, &stood.machine).is_err() {
        return Err(TraceFault::NoMemory);
    }
    Ok(Sight {
        mirror: stood.watch,
        maps: held.bytes,
        counts,
    })
}

// Writes what was seen, where all of it was, and no line is lacking.
fn write_seen<W: Sink>(
    alloc: Global,
    sight: &Sight,
    form: Form,
    lacking: Option<u64>,
    out: &mut W,
) -> Result<Option<u64>, TraceFault>
    ensures ok { IfOk result (λ x. (sight.now.mirror.whole ≡ true) × (x ≡ lacking)
        × ShowsText x (sight_text form sight.now) (W.contents out.old) (W.contents out.new)) }
    ensures err { IfErr result (λ f. ((f ≡ Of.NoMemory) × Keeps (W.contents out.old) (W.contents out.new))
        ⊎ ((f ≡ Of.WriteFailed) × (sight.now.mirror.whole ≡ true)
        × AppendsFront (W.contents out.old) (W.contents out.new) (sight_text form sight.now))) }
    ensures read { result ≢ Err Of.ReadFailed }
    ensures write { result ≡ Err Of.WriteFailed → W.failed out.new ≡ true }
    ensures kept { (result ≡ Err Of.WriteFailed) ⊎ (W.failed out.new ≡ W.failed out.old) }
{
    if !sight.mirror.is_whole() {
        return Err(TraceFault::NoMemory);
    }
    if let Some(lines) = lacking {
        return Ok(Some(lines));
    }
    let mut text = Vec::new(alloc);
    if put_sight(&mut text, sight, form).is_err() {
        return Err(TraceFault::NoMemory);
    }
    if write_all(out, text.as_slice()).is_err() {
        return Err(TraceFault::WriteFailed);
    }
    Ok(None)
}

// The text of what was seen, where all of it was.
fn text_of(alloc: Global, sight: &Sight) -> Result<Vec<u8>, TraceFault>
    ensures whole { IfOk result (λ text. sight.now.mirror.whole ≡ true) }
    ensures text { IfOk result (λ text. text.items ≡ sight_text Text sight.now) }
    ensures err { IfErr result (λ f. f ≡ Of.NoMemory) }
{
    if !sight.mirror.is_whole() {
        return Err(TraceFault::NoMemory);
    }
    let mut text = Vec::new(alloc);
    match put_sight(&mut text, sight, Form::Text) {
        Ok(()) => Ok(text),
        Err(_) => Err(TraceFault::NoMemory),
    }
}

/// The text of the state behind this line of the trace, or at its end.
pub(crate) fn text_at(alloc: Global, trace: &[u8], at: Option<u64>) -> Result<Vec<u8>, TraceFault>
    ensures ok { IfOk result (λ text. TellsState at trace.now text.items) }
    ensures err { IfErr result (FailsTo at trace.now) }
    ensures read { result ≢ Err Of.ReadFailed }
    ensures unwritten { result ≢ Err Of.WriteFailed }
{
    let Ok(mirror) = Mirror::new(alloc) else {
        return Err(TraceFault::NoMemory);
    };
    match see(alloc, front_of(trace, at), mirror, Form::Text) {
        Ok(sight) => text_of(alloc, &sight),
        Err(fault) => Err(fault),
    }
}

/// Replays the trace up to this line, or to its end, and writes the state there in this form; or tells how many lines there are, where that one is
/// behind them all. What stands behind the line isn't looked at.
pub(crate) fn draw_state<W: Sink>(
    alloc: Global,
    trace: &[u8],
    out: &mut W,
    at: Option<u64>,
    form: Form,
) -> Result<Option<u64>, TraceFault>
    ensures ends { TextEnds (IsTold (lines_to at (lines_of trace.now))) (FailsTo at trace.now)
        (lacking_state at (lines_of trace.now)) (told_text form) (W.contents out.old) (W.contents out.new) result }
    ensures read { result ≢ Err Of.ReadFailed }
    ensures write { result ≡ Err Of.WriteFailed → W.failed out.new ≡ true }
    ensures kept { (result ≡ Err Of.WriteFailed) ⊎ (W.failed out.new ≡ W.failed out.old) }
{
    let Ok(mirror) = Mirror::new(alloc) else {
        return Err(TraceFault::NoMemory);
    };
    let front = front_of(trace, at);
    let lacking = lacking_line(trace, at);
    match see(alloc, front, mirror, form) {
        Ok(sight) => write_seen(alloc, &sight, form, lacking, out),
        Err(fault) => Err(fault),
    }
}
