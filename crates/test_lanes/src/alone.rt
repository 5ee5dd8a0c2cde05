//! A space of one core, with its seat, and so with all that only an owner may do.
ghost use Rattle.std.specs.Prelude.{◌≡◌};
ghost use Rattle.live_space.specs.Space.{IsOf};

use crate::ending::made;
use live_space::fault::LiveFault;
use live_space::gate::Open;
use live_space::space::Live;
use live_tree::histories::Histories;
use machine_model::Outcome;
use seats::Seat;
use std::alloc::Allocator;
use std::sync::Wait;
use trace_text::Line;
use vm_base::Request;

/// A space of one core with its seat.
#[derive(Drop)]
pub struct Alone<A: Allocator + Clone> {
    live: Live<A>,
    seat: Seat<A>,
    ghost own: { IsOf live seat },
}

impl<A: Allocator + Clone> Alone<A> {
    /// The space of a script of one core. None where it has more cores, or a fault.
    pub fn new(alloc: A, script: &str) -> Option<Alone<A>> {
        let Ok((live, mut seats)) = made(alloc, script) else {
            return None;
        };
        if seats.len() != 1 {
            return None;
        }
        let seat = seats.pop()?;
        Some(Alone { live, seat })
    }

    /// Ends the space: the seat, and the histories of the slots. Where memory is wanting the space goes on.
    pub fn close(self) -> Result<(Seat<A>, Histories<A>), Alone<A>> {
        let Alone { live, seat } = self;
        match live.close() {
            Ok(histories) => Ok((seat, histories)),
            Err(live) => Err(Alone::of(live, seat)),
        }
    }

    // The space with its seat again.
    fn of(live: Live<A>, seat: Seat<A>) -> Alone<A>
        requires { IsOf live seat }
    {
        Alone { live, seat }
    }

    /// The result of a call or a fold; none of lines that ask for nothing.
    pub fn done<R: Wait>(&mut self, rt: &R, line: Line) -> Option<Result<Outcome, LiveFault>> {
        match line {
            Line::Now(_, request) => Some(self.called(rt, request)),
            Line::Fold(page) => Some(self.trimmed(rt, page)),
            _ => None,
        }
    }

    fn called<R: Wait>(&mut self, rt: &R, request: Request) -> Result<Outcome, LiveFault> {
        let reply = self.live.call(rt, &mut self.seat, request, &Open)?;
        Ok(Outcome::Answered(reply))
    }

    fn trimmed<R: Wait>(&mut self, rt: &R, page: u64) -> Result<Outcome, LiveFault> {
        if self.live.trim(rt, &mut self.seat, page)? {
            Ok(Outcome::Stepped)
        } else {
            Ok(Outcome::Idle)
        }
    }
}
