//! The first core's call is held at a point of its way, while the other core makes its own. A row is `POINT | BEFORE | HELD | OTHERS`: the
//! point, at which `long` says that the call is held until all others are done; a script that both run before; the call that is held; and
//! what the other core does meanwhile. All notes are certified, whatever the calls are, and wherever one is held. Behind ` => ` a row may
//! tell the replies of the first core's calls, those of the other's, and the result of certifying.
ghost use Rattle.std.specs.Prelude.{All};
ghost use Rattle.live_space.specs.Space.{IsOf};

use crate::ending::{certified, made};
use crate::gates::{Meet, Signs};
use crate::lane::{Lane, lanes_of, seats_of};
use crate::rows::{push_answers, push_certified, push_line, push_lines};
use live_space::gate::Point;
use live_space::space::Live;
use seats::Seat;
use std::alloc::Global;
use std::rt::Clock;
use std::sync::Wait;
use std::thread::{self, Threads};
use vm_base::NoMemory;

/// What two cores do.
#[derive(Clone, Copy)]
struct Meeting<'a> {
    point: Point,
    is_long: bool,
    before: &'a str,
    held: &'a str,
    others: &'a str,
    /// What is said about it; empty where the row doesn't say.
    told: &'a str,
}

fn point_of(name: &str) -> Point {
    if name.starts_with("begun") {
        Point::Begun
    } else if name.starts_with("locked") {
        Point::Locked
    } else if name.starts_with("commit") {
        Point::Commit
    } else if name.starts_with("drawn") {
        Point::Drawn
    } else if name.starts_with("filled") {
        Point::Filled
    } else {
        Point::Answer
    }
}

/// The meeting of a row, if it is one.
fn meeting_of(row: &str) -> Option<Meeting<'_>> {
    let (point, rest) = row.split_once(" | ")?;
    let (before, rest) = rest.split_once(" | ")?;
    let (held, rest) = rest.split_once(" | ")?;
    let (others, told) = match rest.split_once(" => ") {
        Some(parts) => parts,
        None => (rest, ""),
    };
    Some(Meeting {
        point: point_of(point),
        is_long: point.ends_with("long"),
        before,
        held,
        others,
        told,
    })
}

/// The other core's part, once the first has come to its point; tells whether all was done.
fn others_are_done<R: Wait, C: Clock>(
    rt: &R,
    lane: &mut Lane<'_, Global>,
    lines: &str,
    gate: &Meet<'_, C>,
) -> bool {
    if !gate.signs.reached.await_set(gate.clock) {
        return false;
    }
    // a flush and a review come to no point
    if lines.split_once('!').is_none() {
        gate.signs.begun.set();
    }
    let mut are_done = true;
    for line in lines.split("; ") {
        are_done &= lane.is_done(rt, line, gate);
    }
    are_done
}

/// Both parts, each in a thread; tells whether they met so, and all was done.
fn run_both<R: Threads + Wait + Clock + Sync>(
    rt: &R,
    lanes: &mut [Lane<'_, Global>],
    meeting: Meeting<'_>,
) -> bool {
    let signs = Signs::new();
    let gate = Meet {
        clock: rt,
        point: meeting.point,
        is_long: meeting.is_long,
        signs: &signs,
    };
    let run = |at: usize, lane: &mut Lane<'_, Global>| {
        if at == 0 {
            if !lane.is_done(rt, meeting.held, &gate) {
                signs.failed.set();
            }
        } else {
            if !others_are_done(rt, lane, meeting.others, &gate) {
                signs.failed.set();
            }
            signs.answered.set();
        }
    };
    let count = lanes.len();
    if count == 0 {
        return false;
    }
    thread::for_each_mut(rt, lanes, count, &run);
    signs.have_met()
}

/// Whether both cores met so in the new space, and its seats.
fn met_in<R: Threads + Wait + Clock + Sync>(
    rt: &R,
    alloc: Global,
    live: &Live<Global>,
    seats: Vec<Seat<Global>, Global>,
    meeting: Meeting<'_>,
) -> Result<(bool, Vec<Seat<Global>, Global>), NoMemory>
    requires { All (IsOf live.now) seats.items }
{
    let mut lanes = lanes_of(alloc, live, seats)?;
    let mut told = String::new(alloc);
    push_lines(rt, alloc, lanes.as_mut_slice(), meeting.before, &mut told)?;
    let have_met = run_both(rt, lanes.as_mut_slice(), meeting);
    let seats = seats_of(alloc, lanes)?;
    Ok((have_met, seats))
}

/// Whether both cores met so, on a new space, the notes are certified, and what the row tells is so.
fn is_certified<R: Threads + Wait + Clock + Sync>(
    rt: &R,
    alloc: Global,
    meeting: Meeting<'_>,
) -> Result<bool, NoMemory> {
    let Ok((live, seats)) = made(alloc, meeting.before) else {
        return Err(NoMemory);
    };
    let (have_met, seats) = met_in(rt, alloc, &live, seats, meeting)?;
    let mut told = String::new(alloc);
    push_answers(alloc, &seats, &mut told)?;
    let verdict = certified(alloc, meeting.before, live, &seats);
    push_certified(alloc, verdict, &mut told)?;
    let is_told = meeting.told.is_empty() || told.as_str() == meeting.told;
    Ok(have_met && verdict.is_ok() && is_told)
}

fn is_met<R: Threads + Wait + Clock + Sync>(
    rt: &R,
    alloc: Global,
    row: &str,
) -> Result<bool, NoMemory> {
    match meeting_of(row) {
        Some(meeting) => is_certified(rt, alloc, meeting),
        None => Ok(false),
    }
}

/// How many rows are met and certified, and each that isn't, a line each.
pub fn met<R: Threads + Wait + Clock + Sync>(
    rt: &R,
    alloc: Global,
    rows: &str,
) -> Result<String<Global>, NoMemory> {
    let mut wrong = String::new(alloc);
    let mut count = 0u64;
    for row in rows.lines() {
        if is_met(rt, alloc, row)? {
            count = count.saturating_add(1);
        } else {
            push_line(row, &mut wrong)?;
        }
    }
    wrong.push_str(&format!(in alloc; "{count} met")?)?;
    Ok(wrong)
}

fn push_with_each(row: &str, parts: &str, out: &mut String<Global>) -> Result<(), NoMemory> {
    for part in parts.lines() {
        out.push_str(row)?;
        out.push_str(" | ")?;
        push_line(part, out)?;
    }
    Ok(())
}

/// Each of these rows with each of these parts after it.
pub fn with_each(alloc: Global, rows: &str, parts: &str) -> Result<String<Global>, NoMemory> {
    let mut out = String::new(alloc);
    for row in rows.lines() {
        push_with_each(row, parts, &mut out)?;
    }
    Ok(out)
}
