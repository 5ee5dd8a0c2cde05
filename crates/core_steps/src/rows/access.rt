//! The step that tries an access: the core translates its page, and the byte is read or written.
ghost use Rattle.std.specs.Prelude.{◌≡◌, ◌<◌, length};
ghost use Rattle.slot_lock.specs.declared.plan.Goal.TheVariants as To;
ghost use Rattle.slot_lock.specs.Plan.{IsSoundGoal};
ghost use Rattle.machine_model.specs.Accesses.{after_try, memory_after, reply_of};
ghost use Rattle.machine_model.specs.Actions.{to};
ghost use Rattle.machine_model.specs.Step.{Goes, event_limit};
ghost use Rattle.machine_model.specs.Sound.{IsReached};
ghost use Rattle.core_steps.specs.State.{world};
ghost use Rattle.core_steps.specs.Moving.{CanTry, IsAt, tried_to};
ghost use Rattle.core_steps.specs.OnePage.{Passes};

use crate::engine::Engine;
use crate::rows::acquire::locking;
use machine_log::ledger::Ledger;
use machine_model::answers::byte_reply;
use machine_model::{Outcome, Phase};
use mmu::{Hardware, Translated};
use slot_lock::{Goal, SlotMap, Touch};
use std::alloc::Allocator;
use vm_base::{Access, CoreId, Reply};

/// Where the call goes on that has tried its access: it was answered this, or faulted.
pub fn tried_to(touch: Touch, reply: Option<Reply>) -> Phase
    requires { IsSoundGoal (To.Access touch) }
    ensures { result ≡ tried_to touch reply }
{
    match reply {
        Some(reply) => Phase::Answer(reply),
        None => locking(Goal::Access(touch)),
    }
}

impl<M: SlotMap, H: Hardware, A: Allocator, L: Ledger> Engine<M, H, A, L> {
    /// The byte is read or written in the frame. It answers what the access does.
    #[inline(always)]
    pub fn touch_byte(&mut self, touch: Touch, frame: u32) -> Reply
        requires frame { frame < self.old.frames.count }
        requires offset { touch.offset < 4096 }
        ensures reply { result ≡ reply_of touch frame (world M.slots self.old).memory }
        ensures memory { world M.slots self.new ≡ record (world M.slots self.old) {
          memory = memory_after touch frame (world M.slots self.old).memory;
        } }
    {
        let byte = self.frames.byte(frame, touch.offset as usize);
        if touch.access == Access::Store {
            self.frames
                .set_byte(frame, touch.offset as usize, touch.byte);
        }
        byte_reply(touch.access, byte)
    }

    /// The page is translated: the byte is read or written and the reply logged, or there is a fault
    /// (Intel SDM volume 3A, page-fault exceptions). The core's phase isn't written.
    #[inline(always)]
    pub fn try_touch(&mut self, core: CoreId, touch: Touch) -> Option<Reply>
        requires { CanTry (world M.slots self.old) core touch }
        ensures tried { to core (tried_to touch result) (world M.slots self.new)
            ≡ after_try core touch (world M.slots self.old) }
        ensures slots { M.slots self.new.map ≡ M.slots self.old.map }
        ensures phases { (world M.slots self.new).calls.phase ≡ (world M.slots self.old).calls.phase }
        ensures events { self.new.calls.events ≡ self.old.calls.events }
        ensures cores { length self.new.calls.phases.items ≡ length self.old.calls.phases.items }
    {
        match self.cores.translate(core, touch) {
            Translated::Hit(frame) | Translated::Fill(frame) => {
                let reply = self.touch_byte(touch, frame);
                self.log_reply(core, reply);
                Some(reply)
            }
            Translated::Fault => None,
        }
    }

    /// The event of a call that is to try its access. The core's phase isn't written.
    #[inline(always)]
    pub fn try_page(&mut self, core: CoreId, touch: Touch) -> Option<Reply>
        requires here { core < length self.old.calls.phases.items }
        requires room { self.old.calls.events < event_limit }
        requires reached { ∥ IsReached (to core (Phase.Try touch) (world M.slots self.old)) ∥₁ }
        ensures { Passes (world M.slots self.old) core (Phase.Try touch) 1 (tried_to touch result)
            (world M.slots self.new) }
    {
        self.calls.events += 1;
        self.try_touch(core, touch)
    }

    /// The access is tried.
    pub fn go_try(&mut self, core: CoreId, touch: Touch) -> Outcome
        requires { IsAt (world M.slots self.old) core (Phase.Try touch) }
        ensures { Goes (world M.slots self.old) core (Phase.Try touch) result (world M.slots self.new) }
    {
        let reply = self.try_touch(core, touch);
        self.go_to(core, tried_to(touch, reply));
        Outcome::Stepped
    }
}
