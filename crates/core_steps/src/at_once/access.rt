//! The first events of an access, made at once: the core's phase isn't written between them.
ghost use Rattle.std.specs.Prelude.{◌≡◌, ◌<◌, ℕ, IfSome, Ok};
ghost use Rattle.slot_lock.specs.declared.plan.Plan.TheVariants as PlanOf;
ghost use Rattle.vm_calls.specs.Checks.{touched};
ghost use Rattle.machine_model.specs.Changes.{checked_by};
ghost use Rattle.machine_model.specs.World.{Made};
ghost use Rattle.machine_model.specs.Sound.{IsReached};
ghost use Rattle.core_steps.specs.AtOnce.{IsAccess, Starts};
ghost use Rattle.core_steps.specs.State.{world};

use crate::at_once::starting::Started;
use crate::engine::Engine;
use crate::rows::acquire::locking;
use machine_log::ledger::Ledger;
use machine_model::Outcome;
use mmu::Hardware;
use slot_lock::{Goal, SlotMap, Touch};
use std::alloc::Allocator;
use vm_base::{Access, CoreId, Request, is_valid, offset_of, page_of};

/// The access of the byte at an address, if its page is a valid one.
#[inline(always)]
fn valid_touch(addr: u64, access: Access, byte: u8) -> Option<Touch>
    ensures { IfSome result (λ touch. touched addr access byte ≡ Ok (PlanOf.Touch touch)) }
{
    let touch = Touch {
        page: page_of(addr),
        offset: offset_of(addr),
        access,
        byte,
    };
    if is_valid(touch.page) {
        Some(touch)
    } else {
        None
    }
}

/// The access that a request asks for, if it asks for one and the page is a valid one.
#[inline(always)]
pub fn access_of(request: Request) -> Option<Touch>
    ensures { IfSome result (λ touch. (made : Made) (core : ℕ)
        → checked_by made core request ≡ Ok (PlanOf.Touch touch)) }
{
    match request {
        Request::Load { addr } => valid_touch(addr, Access::Load, 0),
        Request::Store { addr, byte } => valid_touch(addr, Access::Store, byte),
        Request::Fetch { addr } => valid_touch(addr, Access::Fetch, 0),
        _ => None,
    }
}

impl<M: SlotMap, H: Hardware, A: Allocator, L: Ledger> Engine<M, H, A, L> {
    /// The events of an access that can begin: it begins, its arguments are checked, its page is tried,
    /// and where a frame is reached the reply is handed out. Then the core has no call, as before. A
    /// fault leads to the lock of its page, and on from there as far as `make_fault` goes.
    #[inline(always)]
    pub fn access_at_once(&mut self, core: CoreId, request: Request, touch: Touch) -> Started
        requires { IsAccess (world M.slots self.old) core request touch }
        ensures starts { Starts (world M.slots self.old) core request result (world M.slots self.new)
            × ∥ IsReached (world M.slots self.new) ∥₁ }
        ensures edges { (M.slots self.new.map).edge ≡ (M.slots self.old.map).edge }
    {
        self.number_call(core, request);
        let before = self.calls.events;
        self.calls.events += 2;
        if let Some(reply) = self.try_page(core, touch) {
            self.calls.events += 1;
            return Started::Ended(Outcome::Answered(reply));
        }
        match self.make_fault(core, touch) {
            Some(reply) => {
                self.calls.events += 1;
                Started::Ended(Outcome::Answered(reply))
            }
            None => {
                self.go_to(core, locking(Goal::Access(touch)));
                // its first event is no step of it
                Started::Begun {
                    steps: self.calls.events - before - 1,
                }
            }
        }
    }
}
