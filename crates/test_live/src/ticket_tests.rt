//! `tickets`: threads that draw side by side.
ghost use Rattle.std.specs.Prelude.{◌≡◌, ℕ, ◌+◌, ◌-◌, ◌^◌, ◌<◌, ◌≤◌, [], length, All};
ghost use Rattle.std.specs.Prelude.{IfOk, IfSome, slice_get};

use seats::{Ticketer, Tickets, ticketers};
use std::alloc::{AllocError, Global};
use std::test::Fail;
use std::thread::{self, Threads};

// How many tickets each thread draws.
const EACH: usize = 10_000;

// A ticketer, and what its thread drew.
#[derive(Drop)]
struct Lane {
    ticketer: Ticketer,
    drawn: Vec<u64, Global>,
}

// Draws until the lane has 10,000 tickets, as far as memory was reserved.
fn draw_all(tickets: &Tickets<Global>, lane: &mut Lane)
    requires word { lane.old.ticketer.word ≡ tickets.now }
    requires new { lane.old.ticketer.tickets ≡ [] }
{
    'draws: for _ in 0..EACH {
        let ticket = tickets.draw(&mut lane.ticketer);
        if lane.drawn.push(ticket).is_err() {
            return;
        }
    }
}

// Draws in a thread for each lane.
fn draw_side_by_side<R: Threads + Sync>(rt: &R, tickets: &Tickets<Global>, lanes: &mut [Lane])
    requires { All (λ l. (l.ticketer.word ≡ tickets.now) × (l.ticketer.tickets ≡ [])) lanes.old }
{
    let count = lanes.len();
    if count == 0 {
        return;
    }
    let run = |_core: usize, lane: &mut Lane|
        requires word { lane.old.ticketer.word ≡ tickets.now }
        requires new { lane.old.ticketer.tickets ≡ [] }
    { draw_all(tickets, lane) };
    thread::for_each_mut(rt, lanes, count, &run);
}

// Tells whether the lanes drew the numbers below all, each once, and each lane's rise.
fn is_each_once(alloc: Global, lanes: &[Lane], all: usize) -> Result<bool, AllocError> {
    let mut seen = vec![in alloc; false; all]?;
    for lane in lanes {
        let mut above = 0;
        for ticket in lane.drawn.iter() {
            let ticket = *ticket;
            match seen.get_mut(ticket as usize) {
                Some(mark) if !*mark && above <= ticket => *mark = true,
                _ => return Ok(false),
            }
            above = ticket;
        }
    }
    Ok(seen.iter().all(|mark| *mark))
}

// A lane with room for 10,000 tickets for each ticketer of the word.
fn lanes_of(
    alloc: Global,
    word: &Tickets<Global>,
    all: Vec<Ticketer, Global>,
) -> Result<Vec<Lane, Global>, AllocError>
    requires { All (λ t. (t.word ≡ word.now) × (t.tickets ≡ [])) all.items }
    ensures { IfOk result (λ v.
        All (λ l. (l.ticketer.word ≡ word.now) × (l.ticketer.tickets ≡ [])) v.items) }
{
    let mut lanes = Vec::with_capacity(alloc, all.len())?;
    'lanes: for ticketer in all {
        lanes.push(Lane {
            ticketer,
            drawn: Vec::with_capacity(alloc, EACH)?,
        })?;
    }
    Ok(lanes)
}

// Lets this many threads draw, and tells whether each number was drawn once.
fn is_dealt<R: Threads + Sync>(rt: &R, alloc: Global, count: u8) -> Result<bool, AllocError>
    requires { (1 ≤ count) × (count ≤ 64) }
{
    let (tickets, first) = Tickets::new(alloc)?;
    let all = ticketers(alloc, &tickets, first, count)?;
    let mut lanes = lanes_of(alloc, &tickets, all)?;
    draw_side_by_side(rt, &tickets, lanes.as_mut_slice());
    is_each_once(alloc, lanes.as_slice(), EACH * usize::from(count))
}

#[test]
fn threads_draw_each_ticket_once(rt: HostRuntime) -> Result<(), Fail> {
    assert!(rt; is_dealt(&rt, rt.alloc(), 2)?);
    assert!(rt; is_dealt(&rt, rt.alloc(), 64)?);
    Ok(())
}
