//! What the word `picture` does beside reading: a trace is replayed, and the picture of what happened in the columns of its lines is
//! written.
ghost use Rattle.std.specs.Prelude.{◌≡◌, ◌≢◌, ◌⊎◌, Err, IfErr, IfOk, Some, true};
ghost use Rattle.std.specs.Io.KnownBytes.{Keeps};
ghost use Rattle.word_pictures.specs.Lining.{FailsUpTo, Lined, begun_at, lacking_from, lacking_of, lines_picture, picture_drawn};
ghost use Rattle.word_pictures.specs.Picture.{ShowsText, TextEnds};
ghost use Rattle.word_pictures.specs.Notes.{traced_text};
ghost use Rattle.trace_words.specs.declared.fault.TraceFault.TheVariants as Of;
ghost use Rattle.trace_io.specs.Lines.{lines_of};
ghost use Rattle.trace_words.specs.Faults.{fault_named};
ghost use Rattle.trace_io.specs.Io.{TellsIo, read_from, written_to};
ghost use Rattle.trace_io.specs.Sink.{AppendsFront};
ghost use Rattle.trace_io.specs.Source.{Reads};

use crate::picturing::record;
use crate::reading::read_lines;
use crate::traced::traced;
use draw_lines::canvas::{Scene, draw};
use draw_records::lines::asking_of;
use draw_records::margin::Margin;
use draw_records::{ColumnRecorder, Recorder};
use machine_model::CallLimit;
use state_text::fronts::{front_of, lacking_line};
use std::alloc::{AllocError, Global};
use std::io::Write;
use trace_io::IoFault;
use trace_io::sink::{Sink, write_all};
use trace_io::source::Source;
use trace_words::fault::TraceFault;
use word_parts::asked::LineRange;

// A recorder of what happens from the first line on.
fn recorder_from(
    alloc: Global,
    front: &[u8],
    first: u64,
) -> Result<ColumnRecorder<Global>, AllocError>
    ensures { IfOk result (λ r. r ≡ begun_at first (lines_of front.now)) }
{
    let moments = Recorder::new(alloc, u64::MAX, u64::MAX)?;
    let margin = Margin::new(alloc, alloc)?;
    let asking = asking_of(alloc, front)?;
    Ok(ColumnRecorder::new(moments, margin, asking, first))
}

// The picture of what was recorded.
fn drawn(
    alloc: Global,
    trace: &[u8],
    recorder: &ColumnRecorder<Global>,
) -> Result<Vec<u8>, AllocError>
    ensures { IfOk result (λ text. text.items ≡ lines_picture trace.now recorder.now) }
{
    let moments = recorder.moments();
    let margin = recorder.margin();
    draw(
        alloc,
        trace,
        &Scene {
            first: moments.first(),
            heads: margin.heads(),
            moments: moments.moments(),
            waits: margin.waits(),
        },
    )
}

// Writes the picture of what was recorded, where no line is lacking.
fn write_lines<W: Sink>(
    alloc: Global,
    trace: &[u8],
    recorder: &ColumnRecorder<Global>,
    lacking: Option<u64>,
    out: &mut W,
) -> Result<Option<u64>, TraceFault>
    ensures ok { IfOk result (λ x. (x ≡ lacking)
        × ShowsText x (lines_picture trace.now recorder.now) (W.contents out.old) (W.contents out.new)) }
    ensures err { IfErr result (λ f. ((f ≡ Of.NoMemory) × Keeps (W.contents out.old) (W.contents out.new))
        ⊎ ((f ≡ Of.WriteFailed)
        × AppendsFront (W.contents out.old) (W.contents out.new) (lines_picture trace.now recorder.now))) }
    ensures read { result ≢ Err Of.ReadFailed }
    ensures write { result ≡ Err Of.WriteFailed → W.failed out.new ≡ true }
    ensures kept { (result ≡ Err Of.WriteFailed) ⊎ (W.failed out.new ≡ W.failed out.old) }
{
    if let Some(lines) = lacking {
        return Ok(Some(lines));
    }
    let Ok(text) = drawn(alloc, trace, recorder) else {
        return Err(TraceFault::NoMemory);
    };
    if write_all(out, text.as_slice()).is_err() {
        return Err(TraceFault::WriteFailed);
    }
    Ok(None)
}

// How many lines there are, where the first that is asked for isn't line 1 and is behind them all.
fn lacking_from(front: &[u8], first: u64) -> Option<u64>
    ensures { result ≡ lacking_from first (lines_of front.now) }
{
    if first <= 1 {
        return None;
    }
    lacking_line(front, Some(first))
}

// Says how many columns are shown, where there are more.
fn tell_columns<E: Write>(recorder: &ColumnRecorder<Global>, errors: &mut E) {
    let moments = recorder.moments();
    let all = moments
        .steps()
        .saturating_sub(moments.first())
        .saturating_add(1);
    if all > 2000 {
        let _ = writeln!(errors, "picture: shows the first 2000 columns of {all}");
    }
}

/// Replays the lines up to the last, and writes the picture of what happened from the first on, and says on `errors` how much of it is
/// shown where that isn't all; or tells how many lines there are, where the first is behind them all. What stands behind the last isn't
/// looked at.
pub(crate) fn draw_lines<W: Sink, E: Write>(
    alloc: Global,
    trace: &[u8],
    out: &mut W,
    errors: &mut E,
    lines: LineRange,
) -> Result<Option<u64>, TraceFault>
    ensures ends { TextEnds (Lined lines trace.now) (FailsUpTo (Some lines.last) trace.now) (lacking_of lines) picture_drawn
        (W.contents out.old) (W.contents out.new) result }
    ensures read { result ≢ Err Of.ReadFailed }
    ensures write { result ≡ Err Of.WriteFailed → W.failed out.new ≡ true }
    ensures kept { (result ≡ Err Of.WriteFailed) ⊎ (W.failed out.new ≡ W.failed out.old) }
{
    let front = front_of(trace, Some(lines.last));
    let lacking = lacking_from(front, lines.first);
    let Ok(recorder) = recorder_from(alloc, front, lines.first) else {
        return Err(TraceFault::NoMemory);
    };
    match record(alloc, front, CallLimit::Usual, recorder) {
        Ok(recorder) => {
            tell_columns(&recorder, errors);
            write_lines(alloc, front, &recorder, lacking, out)
        }
        Err(fault) => Err(fault),
    }
}

// The same of the trace that a text tells.
fn draw_told<W: Sink, E: Write>(
    alloc: Global,
    text: Vec<u8>,
    out: &mut W,
    errors: &mut E,
    lines: LineRange,
) -> Result<Option<u64>, TraceFault>
    ensures ends { TextEnds (Lined lines (traced_text text.items)) (FailsUpTo (Some lines.last) (traced_text text.items)) (lacking_of lines)
        picture_drawn (W.contents out.old) (W.contents out.new) result }
    ensures read { result ≢ Err Of.ReadFailed }
    ensures write { result ≡ Err Of.WriteFailed → W.failed out.new ≡ true }
    ensures kept { (result ≡ Err Of.WriteFailed) ⊎ (W.failed out.new ≡ W.failed out.old) }
{
    match traced(alloc, text) {
        Ok(trace) => draw_lines(alloc, trace.as_slice(), out, errors, lines),
        Err(_) => Err(TraceFault::NoMemory),
    }
}

/// Reads the trace up to the last line, whose comments name files, and draws its lines. What stands behind the last isn't read, but for
/// what came with it in one read.
pub(crate) fn draw_front<S: Source, W: Sink, E: Write>(
    alloc: Global,
    reader: &mut S,
    out: &mut W,
    errors: &mut E,
    lines: LineRange,
) -> Result<Option<u64>, TraceFault>
    ensures ends { Reads (S.stream reader.old) (S.stream reader.new) (λ input unread.
        TextEnds (Lined lines (traced_text input)) (FailsUpTo (Some lines.last) (traced_text input)) (lacking_of lines) picture_drawn
        (W.contents out.old) (W.contents out.new) result) }
    ensures told { TellsIo fault_named result (read_from S.Source reader.old reader.new) (written_to W.Sink out.old out.new) }
{
    match read_lines(alloc, reader, lines.last) {
        Ok(text) => draw_told(alloc, text, out, errors, lines),
        Err(IoFault::ReadFailed) => Err(TraceFault::ReadFailed),
        Err(_) => Err(TraceFault::NoMemory),
    }
}
