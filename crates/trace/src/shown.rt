//! What a replay shows beside the text of each line.
ghost use Rattle.std.specs.Prelude.{◌≡◌, ◌≤◌, ℕ, List, ◌++◌, OnErr, OnOk, length, true};
ghost use Rattle.std.specs.Io.KnownBytes.{Appends};
ghost use Rattle.machine_log.specs.Packing.{listed};
ghost use Rattle.trace_io.specs.Io.{IsWritten, written_to};
ghost use Rattle.trace_io.specs.Sink.{AppendsFront};
ghost use Rattle.trace.specs.Shown.{told, IsBegunBehind, IsBehind};
ghost use Rattle.trace_text.specs.Lists.{log_text};
ghost use Rattle.trace.specs.LogLines.{HasRoom, so_far};

use crate::LogLines;
use crate::replayer::Staged;
use machine_log::LoggedEntries;
use trace_io::sink::{Sink, WriteFailed, write_all};
use trace_text::{LineText, write_map_line};
use trace_words::show::Show;

/// What a replay shows of a line.
pub trait Showing {
    // Of this line, which gave this text.
    ghost shown: { Self → List ℕ → List ℕ → List ℕ };

    /// Writes that. At an `Err` a front of it was written.
    fn write_line<W: Sink>(
        &self,
        writer: &mut W,
        line: &[u8],
        text: &LineText,
    ) -> Result<(), WriteFailed>
        requires { length line.now ≤ 256 }
        ensures { IsWritten result (written_to W.Sink writer.old writer.new)
            (shown self.now line.now text.now.bytes) };
}

impl Showing for Show {
    ghost shown = { λ show line text. told show text };

    fn write_line<W: Sink>(
        &self,
        writer: &mut W,
        line: &[u8],
        text: &LineText,
    ) -> Result<(), WriteFailed> {
        match self {
            Show::Outcomes | Show::OutcomesAndLog => write_all(writer, text.as_str().as_bytes()),
            Show::Maps => Ok(()),
        }
    }
}

// Hands the lines on, where there may be no room for one more.
#[inline(always)]
fn make_room<W: Sink>(writer: &mut W, lines: &mut LogLines) -> Result<(), WriteFailed>
    ensures room { OnOk result (HasRoom lines.new) }
    ensures ok { OnOk result ((text : List ℕ) × Appends (W.contents writer.old) (W.contents writer.new) text
        × (so_far lines.old ≡ text ++ so_far lines.new)) }
    ensures kept { OnOk result (W.failed writer.new ≡ W.failed writer.old) }
    ensures front { OnErr result
        (AppendsFront (W.contents writer.old) (W.contents writer.new) (so_far lines.old)) }
    ensures err { OnErr result (W.failed writer.new ≡ true) }
{
    if !lines.is_full() {
        return Ok(());
    }
    if let Err(failed) = write_all(writer, lines.as_bytes()) {
        return Err(failed);
    }
    lines.clear();
    Ok(())
}

/// Writes a line for each entry of a log, in order. At an `Err` a front of them was
/// written. The text is where rare lines are made.
pub(crate) fn write_log<W: Sink>(
    writer: &mut W,
    log: &LoggedEntries<'_>,
    text: &mut LineText,
) -> Result<(), WriteFailed>
    ensures { IsWritten result (written_to W.Sink writer.old writer.new) (log_text (listed log.now)) }
{
    let mut lines = LogLines::new();
    let mut at = 0;
    'entries: while at < log.len() {
        if let Err(failed) = make_room(writer, &mut lines) {
            return Err(failed);
        }
        let entry = log.get(at);
        lines.push(entry, text);
        at += 1;
    }
    if let Err(failed) = write_all(writer, lines.as_bytes()) {
        return Err(failed);
    }
    Ok(())
}

/// Writes a line for each mapping, in order. At an `Err` a front of them was written. The
/// text is where each line is made.
pub(crate) fn write_maps<W: Sink, R: Staged>(
    writer: &mut W,
    replayer: &R,
    text: &mut LineText,
) -> Result<(), WriteFailed>
    ensures ok { OnOk result ((text : List ℕ) × IsBehind Show.Maps (R.stage replayer.now) text
        × Appends (W.contents writer.old) (W.contents writer.new) text) }
    ensures kept { OnOk result (W.failed writer.new ≡ W.failed writer.old) }
    ensures front { OnErr result ((text : List ℕ) × IsBegunBehind Show.Maps (R.stage replayer.now) text
        × AppendsFront (W.contents writer.old) (W.contents writer.new) text) }
    ensures err { OnErr result (W.failed writer.new ≡ true) }
{
    let mut from = 1;
    'lines: while let Some(line) = replayer.next_map_line(from) {
        write_map_line(text, line.range, line.prot, line.back);
        if let Err(failed) = write_all(writer, text.as_str().as_bytes()) {
            return Err(failed);
        }
        from = line.range.end;
    }
    Ok(())
}
