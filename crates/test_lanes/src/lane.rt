//! A seat with the space that it is of.
ghost use Rattle.std.specs.Prelude.{◌≡◌, All};
ghost use Rattle.live_space.specs.Space.{IsOf};

use live_space::fault::LiveFault;
use live_space::gate::{Gate, Open};
use live_space::space::Live;
use machine_model::Outcome;
use seats::Seat;
use std::alloc::{Allocator, Global};
use std::sync::Wait;
use trace_text::{Action, Line, read_line};
use vm_base::{CoreId, NoMemory, Reply, Request};

/// A seat with the space that it is of, so that calls need no condition.
#[derive(Drop)]
pub struct Lane<'a, A: Allocator + Clone> {
    live: &'a Live<A>,
    seat: Seat<A>,
    ghost own: { IsOf live.now seat },
}

impl<'a, A: Allocator + Clone> Lane<'a, A> {
    /// A seat of the space, with it.
    fn new(live: &'a Live<A>, seat: Seat<A>) -> Lane<'a, A>
        requires { IsOf live.now seat }
    {
        Lane { live, seat }
    }

    /// A call.
    pub fn call<R: Wait, G: Gate>(
        &mut self,
        rt: &R,
        request: Request,
        gate: &G,
    ) -> Result<Reply, LiveFault> {
        self.live.call(rt, &mut self.seat, request, gate)
    }

    fn flush<R: Wait>(&mut self, rt: &R) -> Result<bool, LiveFault> {
        self.live.flush(rt, &mut self.seat)
    }

    fn review<R: Wait>(&mut self, rt: &R) -> Result<bool, LiveFault> {
        self.live.review(rt, &mut self.seat)
    }

    /// Does what a line asks for, where a gate may hold its call; tells whether it was done, and not given up.
    pub fn is_done<R: Wait, G: Gate>(&mut self, rt: &R, line: &str, gate: &G) -> bool {
        match read_line(line.as_bytes()) {
            Some(Line::Now(_, request)) => match self.call(rt, request, gate) {
                Ok(reply) => reply != Reply::NoMemory,
                Err(_) => false,
            },
            Some(Line::Act(_, Action::Flush)) => self.flush(rt).is_ok(),
            Some(Line::Act(_, Action::Review)) => self.review(rt).is_ok(),
            _ => false,
        }
    }
}

/// The seats of a new space, each with the space.
pub fn lanes_of<'a, A: Allocator + Clone>(
    alloc: Global,
    live: &'a Live<A>,
    mut seats: Vec<Seat<A>, A>,
) -> Result<Vec<Lane<'a, A>, Global>, NoMemory>
    requires { All (IsOf live.now) seats.items }
{
    let mut lanes = Vec::new(alloc);
    'seats: while !seats.is_empty() {
        let seat = seats.remove(0);
        lanes.push(Lane::new(live, seat))?;
    }
    Ok(lanes)
}

/// The seats again, which hold their space no longer.
pub fn seats_of<A: Allocator + Clone>(
    alloc: Global,
    lanes: Vec<Lane<'_, A>, Global>,
) -> Result<Vec<Seat<A>, Global>, NoMemory> {
    let mut seats = Vec::new(alloc);
    'lanes: for lane in lanes {
        let Lane { seat, .. } = lane;
        seats.push(seat)?;
    }
    Ok(seats)
}

fn noted_if(is_noted: bool) -> Outcome {
    if is_noted {
        Outcome::Stepped
    } else {
        Outcome::Idle
    }
}

/// The result of an action or a call of a lane; what isn't one of them is `Full`.
fn done<R: Wait, A: Allocator + Clone>(
    rt: &R,
    lane: &mut Lane<'_, A>,
    line: Line,
) -> Result<Outcome, LiveFault> {
    match line {
        Line::Now(_, request) => {
            let reply = lane.call(rt, request, &Open)?;
            Ok(Outcome::Answered(reply))
        }
        Line::Act(_, Action::Flush) => {
            let is_noted = lane.flush(rt)?;
            Ok(noted_if(is_noted))
        }
        Line::Act(_, Action::Review) => {
            let is_noted = lane.review(rt)?;
            Ok(noted_if(is_noted))
        }
        _ => Ok(Outcome::Full),
    }
}

/// The core of a line that has one.
fn core_of(line: &Line) -> Option<CoreId> {
    match line {
        Line::Now(core, _) => Some(*core),
        Line::Act(core, _) => Some(*core),
        _ => None,
    }
}

/// The result of a line of a script, on the lane of its core; none of lines that ask for nothing.
pub fn done_by<R: Wait, A: Allocator + Clone>(
    rt: &R,
    lanes: &mut [Lane<'_, A>],
    line: Line,
) -> Option<Result<Outcome, LiveFault>> {
    let core = core_of(&line)?;
    let lane = lanes.get_mut(usize::from(core.index()))?;
    let outcome = done(rt, lane, line);
    Some(outcome)
}
