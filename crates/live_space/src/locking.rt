//! The slots of a call: they are locked one after another from left to right, and let go so.
ghost use Rattle.std.specs.Prelude.{◌≡◌, ◌+◌, ◌≤◌, [], IfNone, IfSome, length, IsTrue};
ghost use Rattle.seats.specs.Growing.{Grew};
ghost use Rattle.live_pages.specs.Ending.{Finishes};
ghost use Rattle.live_space.specs.InFlight.{GoesOn};

use crate::gate::Gate;
use crate::in_call::InCall;
use live_levels::level::Stepper;
use live_pages::answering::answer;
use live_tree::held::{Held, HoldStep};
use live_tree::letting::Letting;
use seats::Seat;
use std::alloc::Allocator;
use std::sync::Wait;
use std::thread;
use vm_base::Reply;

impl<'c, R: Wait, G: Gate, A: Allocator + Clone> InCall<'c, '_, '_, '_, R, G, A> {
    /// Locks the slots up to the end, each with room for so many changes, and waits for those that
    /// other calls hold. False where the call has to be given up: memory, or room for its notes, is
    /// wanting, or a slot was in a wrong place, which never comes. What is held stays held.
    pub(crate) fn lock_all(&mut self, end: u64, changes: usize) -> bool
        ensures goes { GoesOn self.old.seat self.new.seat }
        ensures first { self.new.held.first ≡ self.old.held.first }
        ensures end { IsTrue result → end ≤ self.new.held.end }
        ensures within { self.old.held.end ≤ end → self.new.held.end ≤ end }
        ensures space { self.new.space ≡ self.old.space }
    {
        let rt = self.rt;
        let space = self.space;
        let core = self.seat.core();
        'slots: for _turn in rt.forever() {
            if self.held.end() >= end {
                return true;
            }
            // for the step, and to let its slot go
            if !self.has_room(2) {
                return false;
            }
            match self
                .held
                .lock_next(rt, &space.tree, self.seat, core, end, changes)
            {
                HoldStep::Locked | HoldStep::Split => {}
                HoldStep::Owned(_) => thread::yield_now(),
                HoldStep::Unseen | HoldStep::NoMemory | HoldStep::Lost => return false,
            }
        }
        unreachable!()
    }
}

/// Lets all slots go, each in a step of its own, from left to right. Where there is a reply, the call
/// is answered right after the last of these steps, before its slot is unlocked.
pub(crate) fn let_go<A: Allocator + Clone>(
    held: Held<'_, A>,
    seat: &mut Seat<A>,
    reply: Option<Reply>,
)
    requires { length held.slots + 1 ≤ seat.old.room }
    ensures answered { IfSome reply (λ reply. Finishes seat.old reply seat.new) }
    ensures again { IfNone reply ((Grew seat.old seat.new)
        × (seat.new.room + length held.entry.slots ≡ seat.old.room)) }
{
    let mut letting = held.letting();
    note_all(&mut letting, seat);
    if let Some(reply) = reply {
        answer(seat, reply);
    }
    letting.finish();
}

// Notes of each slot that it is let go. The last one is still locked then.
fn note_all<A: Allocator>(letting: &mut Letting<'_, A>, seat: &mut Seat<A>)
    requires room { length letting.old.slots ≤ seat.old.room }
    ensures none { letting.new.slots ≡ [] }
    ensures grew { Grew seat.old seat.new }
    ensures room { seat.new.room + length letting.old.slots ≡ seat.old.room }
{
    'slots: while letting.len() > 0 {
        let _ticket = letting.note_first(seat);
    }
}
