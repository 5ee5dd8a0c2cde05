//! The text of an outcome: one line, in a buffer of fixed size.
ghost use Rattle.std.specs.Prelude.{◌≡◌, ◌+◌, ◌<◌, ◌≤◌, ◌++◌, [], cond, codes, decimal, length};
ghost use Rattle.vm_base.specs.Cores.{members};
ghost use Rattle.trace_words.specs.OutcomeText.{outcome_text};
ghost use Rattle.trace_text.specs.Printing.{core_text, cores_text};

use machine_model::{Blocker, Outcome};
use trace_text::{LineText, number_text, push_reply};
use vm_base::{CoreId, CoreSet, Reply};

// A core behind a space, if it is a member.
fn push_member(text: &mut LineText, cores: CoreSet, core: CoreId)
    requires { length text.old.bytes + 3 ≤ 256 }
    ensures bytes { text.new.bytes ≡ text.old.bytes ++ cond (members cores core) (core_text core) [] }
    ensures short { length text.new.bytes ≤ length text.old.bytes + 3 }
{
    if cores.contains(core) {
        text.push_str(" ");
        text.push_str(number_text(u64::from(core.index())).as_str());
    }
}

// The members, each behind a space, ascending.
fn push_cores(text: &mut LineText, cores: CoreSet)
    requires { length text.old.bytes ≤ 10 }
    ensures bytes { text.new.bytes ≡ text.old.bytes ++ cores_text cores }
    ensures short { length text.new.bytes ≤ 202 }
{
    'cores: for index in 0..64u8 {
        push_member(text, cores, CoreId::new(index));
    }
}

/// Replaces the text by the word and a newline.
pub fn write_word(text: &mut LineText, word: &str)
    requires { length word.now ≤ 255 }
    ensures { text.new.bytes ≡ word.now ++ codes "\n" }
{
    text.clear();
    text.push_str(word);
    text.push_str("\n");
}

fn write_wait(text: &mut LineText, blocker: Blocker)
    ensures { text.new.bytes ≡ outcome_text (Outcome.Wait blocker) }
{
    text.clear();
    match blocker {
        Blocker::Slot(core) => {
            text.push_str("wait slot ");
            text.push_str(number_text(u64::from(core.index())).as_str());
        }
        Blocker::Acks(cores) => {
            text.push_str("wait acks");
            push_cores(text, cores);
        }
    }
    text.push_str("\n");
}

/// Replaces the text by that of a reply, with its newline.
#[inline(always)]
pub fn write_reply(text: &mut LineText, reply: Reply)
    ensures { text.new.bytes ≡ outcome_text (Outcome.Answered reply) }
{
    text.clear();
    push_reply(text, reply);
    text.push_str("\n");
}

/// Replaces the text by that of the outcome, with its newline.
pub fn write_outcome(text: &mut LineText, outcome: Outcome)
    ensures { text.new.bytes ≡ outcome_text outcome }
{
    match outcome {
        Outcome::Stepped => write_word(text, "step"),
        Outcome::Wait(blocker) => write_wait(text, blocker),
        Outcome::Idle => write_word(text, "idle"),
        Outcome::Answered(reply) => write_reply(text, reply),
        Outcome::Full => write_word(text, "full"),
    }
}
