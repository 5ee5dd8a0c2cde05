//! The end of a call: its reply is fixed and logged, its pages are unlocked, and the
//! reply is handed out.
ghost use Rattle.std.specs.Prelude.{◌≡◌, ◌+◌, ◌<◌, ◌≤◌, length};
ghost use Rattle.machine_model.specs.Actions.{let_go, after_reply, answer_entry, with_entry};
ghost use Rattle.machine_model.specs.Locks.{held_after};
ghost use Rattle.machine_model.specs.Step.{Goes, event_limit};
ghost use Rattle.machine_model.specs.Orderly.{answer_count};
ghost use Rattle.core_steps.specs.State.{world};
ghost use Rattle.core_steps.specs.Moving.{IsAt};
ghost use Rattle.core_steps.specs.OnePage.{logged_later, replied};

use crate::engine::Engine;
use machine_log::ledger::Ledger;
use machine_model::{Outcome, Phase};
use mmu::Hardware;
use slot_lock::{SlotMap, Touch};
use std::alloc::Allocator;
use vm_base::{CoreId, Entry, PageRange, Reply};

/// Where a call goes on that has its reply: what it holds is unlocked, and then the reply
/// is handed out.
pub fn let_go(held: Option<PageRange>, reply: Reply) -> Phase
    ensures { result ≡ let_go held reply }
{
    match held {
        Some(held) => Phase::Unlock { held, reply },
        None => Phase::Answer(reply),
    }
}

/// What is still held once the pages up to `unlocked_to` are let go.
pub fn held_after(held: PageRange, unlocked_to: u64) -> Option<PageRange>
    ensures { result ≡ held_after held unlocked_to }
{
    if unlocked_to == held.end {
        return None;
    }
    Some(PageRange {
        first: unlocked_to,
        end: held.end,
    })
}

impl<M: SlotMap, H: Hardware, A: Allocator, L: Ledger> Engine<M, H, A, L> {
    /// It is logged that the call of a core has this reply.
    pub fn log_reply(&mut self, core: CoreId, reply: Reply)
        requires here { core < length self.old.calls.phases.items }
        requires room { answer_count (L.entries self.old.calls.ledger) < self.old.calls.limit }
        ensures log { world M.slots self.new ≡ with_entry (answer_entry (world M.slots self.old) core reply)
            (world M.slots self.old) }
        ensures cores { length self.new.calls.phases.items ≡ length self.old.calls.phases.items }
    {
        self.calls.ledger.push(Entry::Answer {
            step: self.calls.events,
            call: self.calls.numbers[core.index() as usize],
            core,
            reply,
        });
    }

    /// The call of a core, which holds these pages, has its reply from here on: it is
    /// logged, and the pages are unlocked next.
    pub fn reply(&mut self, core: CoreId, held: Option<PageRange>, reply: Reply)
        requires here { core < length self.old.calls.phases.items }
        requires room { answer_count (L.entries self.old.calls.ledger) < self.old.calls.limit }
        ensures { world M.slots self.new ≡ after_reply core held reply (world M.slots self.old) }
    {
        self.log_reply(core, reply);
        self.go_to(core, let_go(held, reply));
    }

    /// The last steps of a call that need not lock its page: the reply is logged at the event this many
    /// later, and at the next one the page is let go. The core's phase isn't written.
    pub fn log_at_once(&mut self, core: CoreId, reply: Reply, steps: u64)
        requires here { core < length self.old.calls.phases.items }
        requires room { answer_count (L.entries self.old.calls.ledger) < self.old.calls.limit }
        requires events { self.old.calls.events + steps < event_limit }
        ensures log { world M.slots self.new ≡ logged_later core reply steps (world M.slots self.old) }
        ensures cores { length self.new.calls.phases.items ≡ length self.old.calls.phases.items }
    {
        self.calls.events += steps;
        self.log_reply(core, reply);
        self.calls.events += 1;
    }

    /// The same, and the reply has to be handed out.
    pub fn reply_at_once(&mut self, core: CoreId, reply: Reply, steps: u64)
        requires here { core < length self.old.calls.phases.items }
        requires room { answer_count (L.entries self.old.calls.ledger) < self.old.calls.limit }
        requires events { self.old.calls.events + steps < event_limit }
        ensures { world M.slots self.new ≡ replied core reply steps (world M.slots self.old) }
    {
        self.log_at_once(core, reply, steps);
        self.go_to(core, Phase::Answer(reply));
    }

    /// The leftmost slot that is held is unlocked.
    pub fn go_unlock(&mut self, core: CoreId, held: PageRange, reply: Reply) -> Outcome
        requires { IsAt (world M.slots self.old) core (Phase.Unlock held reply) }
        ensures { Goes (world M.slots self.old) core (Phase.Unlock held reply) result
            (world M.slots self.new) }
    {
        let unlocked_to = self.map.unlock_next(core, held.first, held.end);
        let left = held_after(held, unlocked_to);
        self.go_to(core, let_go(left, reply));
        Outcome::Stepped
    }

    /// The reply is handed out, and the core has no call.
    pub fn go_answer(&mut self, core: CoreId, reply: Reply) -> Outcome
        requires { IsAt (world M.slots self.old) core (Phase.Answer reply) }
        ensures { Goes (world M.slots self.old) core (Phase.Answer reply) result (world M.slots self.new) }
    {
        self.go_to(core, Phase::Free);
        Outcome::Answered(reply)
    }

    /// The page's slot is unlocked, and the access is tried again.
    pub fn go_release(&mut self, core: CoreId, touch: Touch) -> Outcome
        requires { IsAt (world M.slots self.old) core (Phase.Release touch) }
        ensures { Goes (world M.slots self.old) core (Phase.Release touch) result (world M.slots self.new) }
    {
        let _ = self.map.unlock_next(core, touch.page, touch.page + 1);
        self.go_to(core, Phase::Try(touch));
        Outcome::Stepped
    }
}
