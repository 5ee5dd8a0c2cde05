//! The text of a finished call: one line, in a buffer of fixed size.
ghost use Rattle.std.specs.Prelude.{◌≡◌};
ghost use Rattle.trace.specs.FinishedText.{finished_text};

use core_steps::Finished;
use machine_model::Outcome;
use trace_text::LineText;
use trace_words::outcome_text::{write_outcome, write_reply, write_word};

/// Replaces the text by that of a finished call, with its newline: its last outcome, or `stuck`.
#[inline(always)]
pub fn write_finished(text: &mut LineText, finished: Finished)
    ensures { text.new.bytes ≡ finished_text finished }
{
    match finished {
        Finished::Last(Outcome::Answered(reply)) => write_reply(text, reply),
        Finished::Last(outcome) => write_outcome(text, outcome),
        Finished::Stuck => write_word(text, "stuck"),
    }
}
