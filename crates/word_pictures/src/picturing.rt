//! What the word `picture` does.
ghost use Rattle.std.specs.Prelude.{◌≡◌, ◌≢◌, ◌≤◌, ◌⊎◌, Err, IfErr, IfOk, None, OnOk, true};
ghost use Rattle.std.specs.Io.KnownBytes.{Appends, Keeps};
ghost use Rattle.word_pictures.specs.Picture.{AnswerEnds, Fails, PictureEnds, Records, RecordsShown, ShowsText, TextEnds, Watched};
ghost use Rattle.word_pictures.specs.Picture.{in_memory, lacking, lacking_none, lives_of, picture_of, pictured_text};
ghost use Rattle.word_pictures.specs.Words.{PicturesTrace};
ghost use Rattle.draw_records.specs.Changes.{ChangesRecorded, nothing_changed};
ghost use Rattle.draw_records.specs.Looking.{recorded};
ghost use Rattle.draw_records.specs.Recording.{nothing_recorded};
ghost use Rattle.trace.specs.Shown.{limit_for};
ghost use Rattle.trace_words.specs.Faults.{fault_named};
ghost use Rattle.word_pictures.specs.Words.{lacking_status, picture_status};
ghost use Rattle.machine_model.specs.declared.setup.CallLimit.TheVariants.{Usual, Long};
ghost use Rattle.trace_words.specs.declared.fault.TraceFault.TheVariants as Of;
ghost use Rattle.trace_io.specs.Io.{TellsIo, read_from, written_to};
ghost use Rattle.trace_io.specs.Sink.{AppendsFront};
ghost use Rattle.trace_io.specs.Source.{Reads};
ghost use Rattle.watched.specs.Watching.{makes};

use crate::between::draw_between;
use crate::changing::draw_changes;
use crate::histories::draw_calls;
use crate::knowing::draw_known;
use crate::lining::{draw_front, draw_lines};
use crate::listing::list_named;
use crate::seeking::draw_first;
use crate::stating::draw_state;
use crate::stepping::draw_page;
use crate::traced::traced;
use draw_lives::drawing::draw_lives;
use draw_records::{ChangeRecorder, Recorder};
use draw_steps::canvas::draw;
use draw_steps::places::view_of;
use machine_model::CallLimit;
use state_text::Form;
use std::alloc::{AllocError, Global};
use std::io::Write;
use trace::replay::replay_watched;
use trace_io::IoFault;
use trace_io::sink::{Nowhere, Sink, write_all};
use trace_io::source::{Counted, Source, read_all};
use trace_words::fault::{TraceFault, status_of_fault};
use trace_words::show::Show;
use watched::Watch;
use word_parts::asked::{Condition, Drawing, Question, StepRange};
use word_parts::ended::{Ended, Trouble};

/// The fault of a replay in memory, which can be read and written: where it can't, there was no memory.
pub(crate) fn in_memory(fault: TraceFault) -> TraceFault
    ensures value { result ≡ in_memory fault }
    ensures read { result ≢ Of.ReadFailed }
    ensures unwritten { result ≢ Of.WriteFailed }
{
    match fault {
        TraceFault::BadLine(number) => TraceFault::BadLine(number),
        TraceFault::TooLong(number) => TraceFault::TooLong(number),
        TraceFault::NoVmLine => TraceFault::NoVmLine,
        TraceFault::Setup(fault) => TraceFault::Setup(fault),
        TraceFault::ReadFailed => TraceFault::NoMemory,
        TraceFault::NoMemory => TraceFault::NoMemory,
        TraceFault::WriteFailed => TraceFault::NoMemory,
    }
}

/// Replays the trace beside one who watches each step, and writes this of it.
pub(crate) fn record_shown<W: Sink, X: Watch + Drop>(
    alloc: Global,
    trace: &[u8],
    out: &mut W,
    show: Show,
    limit: CallLimit,
    watch: X,
) -> Result<X, TraceFault>
    ensures ends { RecordsShown X.after watch show (limit_for show limit) trace.now (W.contents out.old) (W.contents out.new) result }
    ensures read { result ≢ Err Of.ReadFailed }
    ensures unwritten { result ≢ Err Of.WriteFailed }
{
    let mut reader = Counted::new(trace);
    let beside = replay_watched(alloc, &mut reader, out, show, limit, watch);
    match beside.replayed.ended {
        Ok(()) => Ok(beside.watch),
        Err(fault) => Err(in_memory(fault)),
    }
}

/// The same, and writes nothing.
pub(crate) fn record<X: Watch + Drop>(
    alloc: Global,
    trace: &[u8],
    limit: CallLimit,
    watch: X,
) -> Result<X, TraceFault>
    ensures ends { Records X.after watch limit trace.now result }
    ensures read { result ≢ Err Of.ReadFailed }
    ensures unwritten { result ≢ Err Of.WriteFailed }
{
    let mut unshown = Nowhere::new();
    record_shown(alloc, trace, &mut unshown, Show::Outcomes, limit, watch)
}

// Writes the picture of what was recorded in these steps of the trace.
fn write_picture<W: Sink>(
    alloc: Global,
    trace: &[u8],
    recorder: &Recorder<Global>,
    steps: StepRange,
    out: &mut W,
) -> Result<(), TraceFault>
    ensures ok { OnOk result (Appends (W.contents out.old) (W.contents out.new)
        (picture_of steps.first steps.last trace.now recorder.now)) }
    ensures err { IfErr result (λ f. ((f ≡ Of.NoMemory) × Keeps (W.contents out.old) (W.contents out.new))
        ⊎ ((f ≡ Of.WriteFailed) × AppendsFront (W.contents out.old) (W.contents out.new)
        (picture_of steps.first steps.last trace.now recorder.now))) }
    ensures write { result ≡ Err Of.WriteFailed → W.failed out.new ≡ true }
    ensures kept { (result ≡ Err Of.WriteFailed) ⊎ (W.failed out.new ≡ W.failed out.old) }
{
    let cores = recorder.cores().min(64) as u8;
    let view = view_of(cores, steps.first, steps.last.min(recorder.steps()));
    let Ok(text) = draw(alloc, view, trace, recorder.moments()) else {
        return Err(TraceFault::NoMemory);
    };
    if write_all(out, text.as_slice()).is_err() {
        return Err(TraceFault::WriteFailed);
    }
    Ok(())
}

// How many steps there are, where the first that is asked for is after them all.
fn lacking(recorder: &Recorder<Global>, first: u64) -> Option<u64>
    ensures { result ≡ lacking first recorder.now }
{
    let all = recorder.steps();
    if first > 1 && all < first {
        return Some(all);
    }
    None
}

// Says which steps are shown, where that isn't all of those that are asked for, or that there are none.
fn tell_steps<E: Write>(recorder: &Recorder<Global>, steps: StepRange, errors: &mut E) {
    let all = recorder.steps();
    let first = steps.first;
    let last = first.saturating_add(1999);
    if all < first {
        let _ = writeln!(errors, "picture: the trace has {all} steps");
    } else if all.min(steps.last) > last {
        let _ = writeln!(errors, "picture: shows steps {first} to {last} of {all}");
    }
}

// Writes the picture of what was recorded in these steps, and says on `errors` which they are where that is due; or tells how many
// there are, where the first is after them all.
fn show_steps<W: Sink, E: Write>(
    alloc: Global,
    trace: &[u8],
    recorder: &Recorder<Global>,
    steps: StepRange,
    out: &mut W,
    errors: &mut E,
) -> Result<Option<u64>, TraceFault>
    ensures ok { IfOk result (λ x. (x ≡ lacking steps.first recorder.now)
        × ShowsText x (picture_of steps.first steps.last trace.now recorder.now) (W.contents out.old) (W.contents out.new)) }
    ensures err { IfErr result (λ f. ((f ≡ Of.NoMemory) × Keeps (W.contents out.old) (W.contents out.new))
        ⊎ ((f ≡ Of.WriteFailed) × AppendsFront (W.contents out.old) (W.contents out.new)
        (picture_of steps.first steps.last trace.now recorder.now))) }
    ensures write { result ≡ Err Of.WriteFailed → W.failed out.new ≡ true }
    ensures kept { (result ≡ Err Of.WriteFailed) ⊎ (W.failed out.new ≡ W.failed out.old) }
{
    if let Some(all) = lacking(recorder, steps.first) {
        return Ok(Some(all));
    }
    tell_steps(recorder, steps, errors);
    match write_picture(alloc, trace, recorder, steps, out) {
        Ok(()) => Ok(None),
        Err(fault) => Err(fault),
    }
}

// Replays the trace, and writes the picture of these steps, as `show_steps`.
fn draw_steps<W: Sink, E: Write>(
    alloc: Global,
    trace: &[u8],
    out: &mut W,
    errors: &mut E,
    steps: StepRange,
) -> Result<Option<u64>, TraceFault>
    ensures ends { TextEnds (Watched (makes recorded) (nothing_recorded steps.first steps.last) trace.now) (Fails Usual trace.now)
        (lacking steps.first) (picture_of steps.first steps.last trace.now) (W.contents out.old) (W.contents out.new) result }
    ensures read { result ≢ Err Of.ReadFailed }
    ensures write { result ≡ Err Of.WriteFailed → W.failed out.new ≡ true }
    ensures kept { (result ≡ Err Of.WriteFailed) ⊎ (W.failed out.new ≡ W.failed out.old) }
{
    let Ok(recorder) = Recorder::new(alloc, steps.first, steps.last) else {
        return Err(TraceFault::NoMemory);
    };
    match record(alloc, trace, CallLimit::Usual, recorder) {
        Ok(recorder) => show_steps(alloc, trace, &recorder, steps, out, errors),
        Err(fault) => Err(fault),
    }
}

// The lives of what was mapped in the run.
fn lives_drawn(
    alloc: Global,
    trace: &[u8],
    recorder: &ChangeRecorder<Global>,
) -> Result<Vec<u8>, AllocError>
    ensures { IfOk result (λ text. text.items ≡ lives_of trace.now recorder.now) }
{
    let moments = recorder.moments()?;
    let text = draw_lives(alloc, recorder.steps(), trace, moments)?;
    Ok(text)
}

// Writes the lives of what was mapped in the run. No step is lacking.
fn write_lives<W: Sink>(
    alloc: Global,
    trace: &[u8],
    recorder: &ChangeRecorder<Global>,
    out: &mut W,
) -> Result<Option<u64>, TraceFault>
    ensures ok { IfOk result (λ x. (x ≡ lacking_none recorder.now)
        × ShowsText x (lives_of trace.now recorder.now) (W.contents out.old) (W.contents out.new)) }
    ensures err { IfErr result (λ f. ((f ≡ Of.NoMemory) × Keeps (W.contents out.old) (W.contents out.new))
        ⊎ ((f ≡ Of.WriteFailed)
        × AppendsFront (W.contents out.old) (W.contents out.new) (lives_of trace.now recorder.now))) }
    ensures write { result ≡ Err Of.WriteFailed → W.failed out.new ≡ true }
    ensures kept { (result ≡ Err Of.WriteFailed) ⊎ (W.failed out.new ≡ W.failed out.old) }
{
    let Ok(text) = lives_drawn(alloc, trace, recorder) else {
        return Err(TraceFault::NoMemory);
    };
    if write_all(out, text.as_slice()).is_err() {
        return Err(TraceFault::WriteFailed);
    }
    Ok(None)
}

// Replays the trace, and writes the lives of its mappings.
fn draw_all_lives<W: Sink>(
    alloc: Global,
    trace: &[u8],
    out: &mut W,
) -> Result<Option<u64>, TraceFault>
    ensures ends { TextEnds (Watched ChangesRecorded nothing_changed trace.now) (Fails Long trace.now) lacking_none (lives_of trace.now)
        (W.contents out.old) (W.contents out.new) result }
    ensures read { result ≢ Err Of.ReadFailed }
    ensures write { result ≡ Err Of.WriteFailed → W.failed out.new ≡ true }
    ensures kept { (result ≡ Err Of.WriteFailed) ⊎ (W.failed out.new ≡ W.failed out.old) }
{
    let recorder = ChangeRecorder::new(alloc);
    match record(alloc, trace, CallLimit::Long, recorder) {
        Ok(recorder) => write_lives(alloc, trace, &recorder, out),
        Err(fault) => Err(fault),
    }
}

// Replays the trace, and answers this question about its states.
fn draw_answer<W: Sink>(
    alloc: Global,
    trace: &[u8],
    out: &mut W,
    question: Question,
) -> Result<Option<u64>, TraceFault>
    ensures ends { AnswerEnds question trace.now (W.contents out.old) (W.contents out.new) result }
    ensures read { result ≢ Err Of.ReadFailed }
    ensures write { result ≡ Err Of.WriteFailed → W.failed out.new ≡ true }
    ensures kept { (result ≡ Err Of.WriteFailed) ⊎ (W.failed out.new ≡ W.failed out.old) }
{
    match question {
        Question::Between(pair) => draw_between(alloc, trace, out, pair),
        Question::Page(page) => draw_known(alloc, trace, out, page),
        Question::First(condition) => draw_first(alloc, trace, out, condition),
    }
}

/// Replays the trace, and writes this picture of it.
pub fn draw_text<W: Sink, E: Write>(
    alloc: Global,
    trace: &[u8],
    out: &mut W,
    errors: &mut E,
    drawing: Drawing,
) -> Result<Option<u64>, TraceFault>
    ensures ends { PictureEnds drawing trace.now (W.contents out.old) (W.contents out.new) result }
    ensures read { result ≢ Err Of.ReadFailed }
    ensures write { result ≡ Err Of.WriteFailed → W.failed out.new ≡ true }
    ensures kept { (result ≡ Err Of.WriteFailed) ⊎ (W.failed out.new ≡ W.failed out.old) }
{
    match drawing {
        Drawing::Lines(lines) => draw_lines(alloc, trace, out, errors, lines),
        Drawing::Steps(steps) => draw_steps(alloc, trace, out, errors, steps),
        Drawing::Lives => draw_all_lives(alloc, trace, out),
        Drawing::State(at) => draw_state(alloc, trace, out, at, Form::Text),
        Drawing::Objects(at) => draw_state(alloc, trace, out, at, Form::Json),
        Drawing::History => draw_calls(alloc, trace, out),
        Drawing::Answer(question) => draw_answer(alloc, trace, out, question),
        Drawing::Page => draw_page(alloc, trace, out),
        Drawing::Changes(shows) => draw_changes(alloc, trace, out, shows),
        Drawing::Listing(limit) => list_named(alloc, trace, out, limit),
    }
}

// The text of the trace that is pictured: for a picture of lines, of steps or of lives, what notes tell.
fn pictured_text(alloc: Global, text: Vec<u8>, drawing: Drawing) -> Result<Vec<u8>, AllocError>
    ensures { IfOk result (λ trace. trace.items ≡ pictured_text drawing text.items) }
{
    match drawing {
        Drawing::Lines(_) | Drawing::Steps(_) | Drawing::Lives => traced(alloc, text),
        _ => Ok(text),
    }
}

// Replays the trace that a text tells, and writes this picture of it.
fn draw_told<W: Sink, E: Write>(
    alloc: Global,
    text: Vec<u8>,
    out: &mut W,
    errors: &mut E,
    drawing: Drawing,
) -> Result<Option<u64>, TraceFault>
    ensures ends { PictureEnds drawing (pictured_text drawing text.items) (W.contents out.old) (W.contents out.new) result }
    ensures read { result ≢ Err Of.ReadFailed }
    ensures write { result ≡ Err Of.WriteFailed → W.failed out.new ≡ true }
    ensures kept { (result ≡ Err Of.WriteFailed) ⊎ (W.failed out.new ≡ W.failed out.old) }
{
    match pictured_text(alloc, text, drawing) {
        Ok(trace) => draw_text(alloc, trace.as_slice(), out, errors, drawing),
        Err(_) => Err(TraceFault::NoMemory),
    }
}

// Reads the whole trace, whose comments name files, replays it, and writes this picture of it.
fn draw_whole<S: Source, W: Sink, E: Write>(
    alloc: Global,
    reader: &mut S,
    out: &mut W,
    errors: &mut E,
    drawing: Drawing,
) -> Result<Option<u64>, TraceFault>
    ensures ends { Reads (S.stream reader.old) (S.stream reader.new) (λ input unread.
        PictureEnds drawing (pictured_text drawing input) (W.contents out.old) (W.contents out.new) result) }
    ensures told { TellsIo fault_named result (read_from S.Source reader.old reader.new) (written_to W.Sink out.old out.new) }
{
    match read_all(alloc, reader) {
        Ok(text) => draw_told(alloc, text, out, errors, drawing),
        Err(IoFault::ReadFailed) => Err(TraceFault::ReadFailed),
        Err(_) => Err(TraceFault::NoMemory),
    }
}

// Reads the trace, or as much of it as is asked for, and writes this picture of it.
fn draw_trace<S: Source, W: Sink, E: Write>(
    alloc: Global,
    reader: &mut S,
    out: &mut W,
    errors: &mut E,
    drawing: Drawing,
) -> Result<Option<u64>, TraceFault>
    ensures ends { Reads (S.stream reader.old) (S.stream reader.new) (λ input unread.
        PictureEnds drawing (pictured_text drawing input) (W.contents out.old) (W.contents out.new) result) }
    ensures told { TellsIo fault_named result (read_from S.Source reader.old reader.new) (written_to W.Sink out.old out.new) }
{
    match drawing {
        Drawing::Lines(lines) => draw_front(alloc, reader, out, errors, lines),
        _ => draw_whole(alloc, reader, out, errors, drawing),
    }
}

// What a state is like, as the end of a sentence.
fn words_of_condition(condition: Condition) -> &'static str {
    match condition {
        Condition::Stale => "is a translation stale",
        Condition::Waits => "does a core wait for others",
        Condition::Unused => "is the count of a frame in use 0",
    }
}

// The status where what is asked for is lacking.
fn lacking_status(drawing: Drawing) -> u8
    ensures value { result ≡ lacking_status drawing }
    ensures within { result ≤ 2 }
{
    match drawing {
        Drawing::Answer(Question::First(_)) => 1,
        _ => 2,
    }
}

// Says that what is asked for is behind all that there is.
fn tell_lacking<E: Write>(all: u64, drawing: Drawing, errors: &mut E) {
    let _ = match drawing {
        Drawing::Lines(_) => writeln!(
            errors,
            "radixvm: the trace has {all} lines: --from is after them"
        ),
        Drawing::History => writeln!(
            errors,
            "radixvm: no line has a call of a history\n  expected lines BEGIN END cC! REQ = REPLY, or those of run --echo"
        ),
        Drawing::Answer(Question::First(condition)) => writeln!(
            errors,
            "radixvm: the trace has {all} lines: after none of them {}",
            words_of_condition(condition)
        ),
        Drawing::Answer(_) => writeln!(
            errors,
            "radixvm: the trace has {all} lines: the one asked for is after them"
        ),
        Drawing::State(_) | Drawing::Objects(_) => writeln!(
            errors,
            "radixvm: the trace has {all} lines: --at is after them"
        ),
        _ => writeln!(
            errors,
            "radixvm: the trace has {all} steps: --from is after them"
        ),
    };
}

/// Prints that the steps or the line asked for are lacking, where they are, and answers how a picture ended.
pub fn tell_end<E: Write>(
    ended: Result<Option<u64>, TraceFault>,
    drawing: Drawing,
    errors: &mut E,
) -> Ended
    ensures value { result.status ≡ picture_status drawing ended }
    ensures within { result.status ≤ 3 }
{
    match ended {
        Ok(None) => Ended {
            status: 0,
            trouble: Trouble::Nothing,
        },
        Ok(Some(all)) => {
            tell_lacking(all, drawing, errors);
            Ended {
                status: lacking_status(drawing),
                trouble: Trouble::Nothing,
            }
        }
        Err(fault) => Ended {
            status: status_of_fault(fault),
            trouble: Trouble::Fault(fault),
        },
    }
}

/// Reads the trace into memory, replays it, and writes a picture of it, with the names of files that its comments tell: of what happened
/// in these steps, or in the first 2,000 of them, which is then said on `errors`; or of the lives of mappings over all steps; or, in
/// place of a picture, the state behind a line or at the end, each line with what it changes in it, or the list of the mappings at the end. Answers how that
/// ended: with 0, or the status of an error, of which there is no picture. A trace that ends before the first of the steps, or before the line, has no picture either: that is reported,
/// and the status is 2.
pub fn picture<S: Source, W: Sink, E: Write>(
    alloc: Global,
    reader: &mut S,
    out: &mut W,
    errors: &mut E,
    drawing: Drawing,
) -> Ended
    ensures ends { PicturesTrace drawing
        (read_from S.Source reader.old reader.new) (written_to W.Sink out.old out.new) result.status }
    ensures within { result.status ≤ 3 }
{
    let drawn = draw_trace(alloc, reader, out, errors, drawing);
    match out.flush() {
        Ok(()) => tell_end(drawn, drawing, errors),
        Err(_) => tell_end(Err(TraceFault::WriteFailed), drawing, errors),
    }
}
