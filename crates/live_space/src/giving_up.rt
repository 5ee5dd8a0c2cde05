//! The step that gives a call up for want of memory.
ghost use Rattle.std.specs.Prelude.{◌≡◌, ◌+◌, ◌<◌};
ghost use Rattle.vm_base.specs.declared.replies.Reply.TheVariants.{NoMemory};
ghost use Rattle.seats.specs.Growing.{GivesUp};

use machine_model::{Event, Outcome};
use seats::Seat;
use std::alloc::Allocator;
use vm_base::Reply;

/// Notes that the core's call is given up, and answers its reply. What the call holds is let go next.
/// It is for a call that has changed nothing, and for which no other core was told anything.
pub(crate) fn give_up<A: Allocator>(seat: &mut Seat<A>) -> Reply
    requires { 0 < seat.old.room }
    ensures reply { result ≡ NoMemory }
    ensures gives { GivesUp seat.old seat.new }
    ensures room { seat.new.room + 1 ≡ seat.old.room }
{
    let _ticket = seat.note(Event::GiveUp(seat.core()), Outcome::Stepped);
    Reply::NoMemory
}
