//! The commonest lines of one word behind a core's name: each is read once, from left to right, into two small numbers.
ghost use Rattle.std.specs.Prelude.{◌≡◌, ℕ, IfSome, Some, true};
ghost use Rattle.trace_text.specs.Words.{words_of};
ghost use Rattle.trace_text.specs.Front.{step_asked};
ghost use Rattle.trace_text.specs.Line.{are_printable, line_of, task_of};
ghost use Rattle.trace_text.specs.declared.line.Line.TheVariants.{Act};

use crate::action::{Action, is_flush, is_review, is_take};
use crate::line::front_core;
use vm_base::CoreId;

/// A step that a line tells a core to make, by one word.
#[derive(Clone, Copy)]
pub enum AskedStep {
    /// `take`: act on the oldest message.
    Take,
    /// `flush`: flush a count, or end the core's part of the epoch.
    Flush,
    /// `review`: review the object at the front of the queue.
    Review,
}

impl AskedStep {
    ghost use Rattle.std.specs.Prelude.{◌≡◌};
    ghost use Rattle.trace_text.specs.Front.{step_asked};

    /// The action that it is.
    pub fn action(&self) -> Action
        ensures { result ≡ step_asked self.now }
    {
        match self {
            AskedStep::Take => Action::Take,
            AskedStep::Flush => Action::Flush,
            AskedStep::Review => Action::Review,
        }
    }
}

// The step that the word says.
#[inline(always)]
fn asked(word: &[u8]) -> Option<AskedStep>
    ensures { IfSome result (λ step. (core : ℕ) → Some (Act core (step_asked step)) ≡ task_of core (words_of word.now)) }
{
    if is_flush(word) {
        return Some(AskedStep::Flush);
    }
    if is_review(word) {
        return Some(AskedStep::Review);
    }
    if is_take(word) {
        return Some(AskedStep::Take);
    }
    None
}

/// The step of the line, and the core that is to make it, where it is written in the usual form: nothing before the core, one
/// space before the word, and nothing behind it; `None` where it is any other line, which `read_line` reads.
#[inline(always)]
pub fn read_step(bytes: &[u8]) -> Option<(CoreId, AskedStep)>
    ensures said { IfSome result (λ f. Some (Act f.0 (step_asked f.1)) ≡ line_of bytes.now) }
    ensures printable { IfSome result (λ f. are_printable bytes.now ≡ true) }
{
    if let Some(begun) = front_core(bytes) {
        let step = asked(begun.1)?;
        return Some((begun.0, step));
    }
    None
}
