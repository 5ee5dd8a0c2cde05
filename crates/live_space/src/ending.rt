//! How the steps of a call end.
ghost use Rattle.std.specs.Prelude.{◌≡◌, ◌≢◌, ◌+◌, ◌<◌, ◌≤◌};
ghost use Rattle.vm_base.specs.declared.replies.Reply.TheVariants.{NoMemory};
ghost use Rattle.live_pages.specs.Ending.{Ends, GivesUpFor};
ghost use Rattle.live_space.specs.InFlight.{HasStepsLeft};
ghost use Rattle.live_space.specs.Endings.{reply_of};
ghost use Rattle.live_space.specs.Planned.{EndsIn, IsGivenUp};
ghost use Rattle.live_space.specs.Spending.{GivesOnly};

use crate::giving_up::give_up;
use crate::locking::let_go;
use crate::space::Live;
use live_pages::frame::give_up_with;
use live_tree::held::Held;
use seats::Seat;
use std::alloc::Allocator;
use std::sync::Wait;
use vm_base::Reply;

/// How a call is to end, which may hold slots.
#[derive(Clone, Copy)]
pub(crate) enum Ending {
    /// It is answered.
    Answer(Reply),
    /// It is given up.
    GiveUp,
    /// It is given up, and gives back the frame that it took.
    GiveBack(u32),
}

/// The result of the steps of a call.
#[derive(Clone, Copy)]
pub(crate) enum Ran {
    /// It was answered, under the locks of its last step.
    Answered(Reply),
    /// It is to end so.
    Open(Ending),
}

impl<A: Allocator + Clone> Live<A> {
    /// Ends a call that holds these slots: they are let go, and it is answered.
    pub(crate) fn end<R: Wait>(
        &self,
        rt: &R,
        seat: &mut Seat<A>,
        held: Held<'_, A>,
        ending: Ending,
    ) -> Reply
        requires room { HasStepsLeft 0 held seat.old }
        requires never { EndsIn (λ reply. reply ≢ NoMemory) ending }
        ensures reply { result ≡ reply_of ending }
        ensures ended { Ends seat.old result seat.new }
    {
        let reply = self.reply_to(rt, seat, ending);
        let_go(held, seat, Some(reply));
        reply
    }

    // The reply of a call that ends so. Where it is given up, that is noted first, and only there.
    fn reply_to<R: Wait>(&self, rt: &R, seat: &mut Seat<A>, ending: Ending) -> Reply
        requires room { 0 < seat.old.room }
        requires never { EndsIn (λ reply. reply ≢ NoMemory) ending }
        ensures reply { result ≡ reply_of ending }
        ensures gives { GivesUpFor seat.old result seat.new }
        ensures room { seat.old.room ≤ seat.new.room + 1 }
    {
        match ending {
            Ending::Answer(reply) => reply,
            Ending::GiveUp => give_up(seat),
            Ending::GiveBack(own) => {
                give_up_with(rt, &self.pieces(), seat, own);
                Reply::NoMemory
            }
        }
    }
}

/// How a call ends that is given up, with the frame that it took, if it took one.
pub(crate) fn given_up_with(own: Option<u32>) -> Ending
    ensures given { IsGivenUp result }
    ensures own { GivesOnly own result }
{
    match own {
        Some(own) => Ending::GiveBack(own),
        None => Ending::GiveUp,
    }
}
