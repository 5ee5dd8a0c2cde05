//! A history that is written: what is declared, and a line of each call.
ghost use Rattle.std.specs.Prelude.{◌≡◌, OnOk, true};
ghost use Rattle.std.specs.List.{flat_map};
ghost use Rattle.trace_io.specs.Io.{IsWritten, written_to};
ghost use Rattle.live_script.specs.Text.{call_text, history_text};

use crate::line::put_call;
use orders::Timed;
use trace_io::sink::{Sink, WriteFailed, write_all};
use trace_text::LineText;
use trace_words::declaration::Declaration;
use trace_words::declaring::write_declaration;

// Writes a line of each call.
fn write_each<W: Sink>(writer: &mut W, calls: &[Timed]) -> Result<(), WriteFailed>
    ensures { IsWritten result (written_to W.Sink writer.old writer.new) (flat_map call_text calls.now) }
{
    let mut text = LineText::new();
    let mut at = 0;
    'calls: while at < calls.len() {
        let call = calls[at];
        put_call(&mut text, &call);
        if let Err(failed) = write_all(writer, text.as_str().as_bytes()) {
            return Err(failed);
        }
        at += 1;
    }
    Ok(())
}

// Writes what is declared and the calls.
fn write_lines<W: Sink>(
    writer: &mut W,
    declaration: &Declaration,
    calls: &[Timed],
) -> Result<(), WriteFailed>
    ensures { IsWritten result (written_to W.Sink writer.old writer.new) (history_text declaration.now calls.now) }
{
    if let Err(failed) = write_declaration(writer, declaration) {
        return Err(failed);
    }
    write_each(writer, calls)
}

/// Writes the history of calls of what is declared: the `vm` line, always with CALLS, and the `file` lines, and then of each call the
/// line `BEGIN END cC! REQ = REPLY`, in the order of the list. What was written has gone out then. At an `Err` a front of it was
/// written.
pub fn write_history<W: Sink>(
    writer: &mut W,
    declaration: &Declaration,
    calls: &[Timed],
) -> Result<(), WriteFailed>
    ensures wrote { IsWritten result (written_to W.Sink writer.old writer.new) (history_text declaration.now calls.now) }
    ensures out { OnOk result (W.is_flushed writer.new ≡ true) }
{
    if let Err(failed) = write_lines(writer, declaration, calls) {
        return Err(failed);
    }
    writer.flush()
}
