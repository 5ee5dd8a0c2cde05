//! The last step of a call: its answer is noted.
ghost use Rattle.std.specs.Prelude.{◌<◌};
ghost use Rattle.live_pages.specs.Ending.{Answers};

use machine_model::{Event, Outcome};
use seats::Seat;
use std::alloc::Allocator;
use vm_base::Reply;

/// Notes that the seat's call is answered. The step touches nothing, so it may come under whatever locks the step before it has.
pub fn answer<A: Allocator>(seat: &mut Seat<A>, reply: Reply)
    requires { 0 < seat.old.room }
    ensures { Answers seat.old reply seat.new }
{
    let _ticket = seat.note(Event::Go(seat.core()), Outcome::Answered(reply));
}
