//! What is run of a litmus test, and what came out of a run.
ghost use Rattle.std.specs.Prelude.{true};

use litmus_merges::Asked;
use litmus_report::HasOutcome;
use slot_lock::MapLine;
use trace_words::ScriptLine;
use trace_words::declaration::Declaration;
use vm_base::Reply;

/// What is run of a litmus test.
#[derive(Clone, Copy)]
pub struct TestRun<'a> {
    /// The space.
    pub declared: &'a Declaration,
    /// What is done before, one line after another.
    pub opening: &'a [ScriptLine],
    /// The calls of the opening.
    pub before: &'a [Asked],
    /// The calls of the lists: each core makes its own in their order.
    pub calls: &'a [Asked],
    /// The loads behind them.
    pub loads: &'a [Asked],
}

/// What came out of a run.
#[derive(Drop)]
pub struct Came {
    /// The reply to each call, in the order of the calls.
    pub replies: Vec<Reply>,
    /// What each load was answered.
    pub finals: Vec<Reply>,
}

impl HasOutcome for Came {
    ghost use Rattle.std.specs.Prelude.{[], true};

    ghost outcome = { λ o. record { replies = o.replies.items; finals = o.finals.items; maps = []; reached = true } };

    fn replies(&self) -> &[Reply] {
        self.replies.as_slice()
    }

    fn finals(&self) -> &[Reply] {
        self.finals.as_slice()
    }

    fn maps(&self) -> &[MapLine] {
        // (threads tell of no mappings)
        &[]
    }

    fn is_reached(&self) -> bool {
        true
    }
}
