//! What `state --until` does: the first state of a kind is sought.
ghost use Rattle.std.specs.Prelude.{◌≡◌, ◌≢◌, ◌⊎◌, ◌++◌, Err, IfErr, IfOk, OnOk, true};
ghost use Rattle.machine_model.specs.declared.setup.CallLimit.TheVariants.{Usual};
ghost use Rattle.state_changes.specs.Pages.{ShowsStates};
ghost use Rattle.trace_io.specs.Lines.{lines_of};
ghost use Rattle.trace_words.specs.declared.fault.TraceFault.TheVariants as Of;
ghost use Rattle.word_pictures.specs.Picture.{Fails, TextEnds};
ghost use Rattle.word_pictures.specs.Saying.{SaysFirst, SeeksIn, TellsSought, lacking_said, lacking_sought, sought_text, text_said, words_for};

use crate::picturing::record;
use crate::saying::{Say, write_said};
use machine_model::CallLimit;
use state_changes::StateRecorder;
use state_changes::seeking::{Sought, first_with};
use std::alloc::{AllocError, Global};
use trace_io::sink::Sink;
use trace_text::pieces::{Piece, put_all};
use trace_words::fault::TraceFault;
use word_parts::asked::Condition;

/// Replays the trace beside a recorder of states, where there is memory for all.
pub(crate) fn recorded(alloc: Global, trace: &[u8]) -> Result<StateRecorder, TraceFault>
    ensures ok { IfOk result (ShowsStates (lines_of trace.now)) }
    ensures err { IfErr result (Fails Usual trace.now) }
    ensures read { result ≢ Err Of.ReadFailed }
    ensures unwritten { result ≢ Err Of.WriteFailed }
{
    let Ok(recorder) = StateRecorder::new(alloc) else {
        return Err(TraceFault::NoMemory);
    };
    let recorder = match record(alloc, trace, CallLimit::Usual, recorder) {
        Ok(recorder) => recorder,
        Err(fault) => return Err(fault),
    };
    if !recorder.is_whole() {
        return Err(TraceFault::NoMemory);
    }
    Ok(recorder)
}

// The words by which a state's text shows it.
fn words_for(condition: Condition) -> &'static str
    ensures { result.now ≡ words_for condition }
{
    match condition {
        Condition::Stale => " stale: ",
        Condition::Waits => " awaits cores",
        Condition::Unused => " count 0 global",
    }
}

// The number of lines, and the text behind them.
fn put_sought(out: &mut Vec<u8>, sought: &Sought) -> Result<(), AllocError>
    ensures { OnOk result (out.new.items ≡ out.old.items ++ sought_text sought.now) }
{
    let number = sought.lines as u64;
    put_all(
        out,
        &[
            Piece::Words("line "),
            Piece::Number(number),
            Piece::Words("\n"),
        ],
    )?;
    out.extend_from_slice(sought.text.as_slice())
}

// How many lines there are, where behind none of them the state is such.
fn lacking_sought(has: bool, lines: u64) -> Option<u64>
    ensures { result ≡ lacking_sought has lines }
{
    if has { None } else { Some(lines) }
}

// What was sought, as text.
fn sought_said(alloc: Global, sought: &Sought) -> Result<Say, AllocError>
    ensures { IfOk result (TellsSought sought.now) }
{
    let mut text = Vec::new(alloc);
    put_sought(&mut text, sought)?;
    let lacking = lacking_sought(sought.has, sought.lines as u64);
    Ok(Say { text, lacking })
}

// Seeks the first state of a kind among those that were recorded.
fn seek(
    alloc: Global,
    trace: &[u8],
    recorder: &StateRecorder,
    condition: Condition,
) -> Result<Say, AllocError>
    ensures { IfOk result (SeeksIn condition trace.now recorder.now) }
{
    let sought = first_with(alloc, trace, recorder, words_for(condition).as_bytes())?;
    sought_said(alloc, &sought)
}

// The first state of a kind.
fn say_first(alloc: Global, trace: &[u8], condition: Condition) -> Result<Say, TraceFault>
    ensures ok { IfOk result (SaysFirst condition trace.now) }
    ensures err { IfErr result (Fails Usual trace.now) }
    ensures read { result ≢ Err Of.ReadFailed }
    ensures unwritten { result ≢ Err Of.WriteFailed }
{
    let recorder = match recorded(alloc, trace) {
        Ok(recorder) => recorder,
        Err(fault) => return Err(fault),
    };
    match seek(alloc, trace, &recorder, condition) {
        Ok(say) => Ok(say),
        Err(_) => Err(TraceFault::NoMemory),
    }
}

/// Replays the trace, and writes the number of the first line behind which the state is such, and the state there; or tells how many lines
/// there are, where it is such behind none.
pub(crate) fn draw_first<W: Sink>(
    alloc: Global,
    trace: &[u8],
    out: &mut W,
    condition: Condition,
) -> Result<Option<u64>, TraceFault>
    ensures ends { TextEnds (SaysFirst condition trace.now) (Fails Usual trace.now) lacking_said text_said
        (W.contents out.old) (W.contents out.new) result }
    ensures read { result ≢ Err Of.ReadFailed }
    ensures write { result ≡ Err Of.WriteFailed → W.failed out.new ≡ true }
    ensures kept { (result ≡ Err Of.WriteFailed) ⊎ (W.failed out.new ≡ W.failed out.old) }
{
    match say_first(alloc, trace, condition) {
        Ok(say) => write_said(&say, out),
        Err(fault) => Err(fault),
    }
}
