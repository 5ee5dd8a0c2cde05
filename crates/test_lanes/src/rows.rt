//! Scripts that are run line by line, and tables of them: a row is `SCRIPT => TOLD`, what its lines come to and what certifying does.
ghost use Rattle.std.specs.Prelude.{All};
ghost use Rattle.live_space.specs.Space.{IsOf};

use crate::alone::Alone;
use crate::ending::{certified, certified_beside, made};
use crate::lane::{Lane, done_by, lanes_of, seats_of};
use certifier::{Certified, CertifyFault};
use live_space::fault::LiveFault;
use live_space::space::Live;
use machine_model::Outcome;
use seats::Seat;
use std::alloc::{Allocator, Global};
use std::sync::Wait;
use trace_text::{LineText, read_line};
use trace_words::outcome_text::write_outcome;
use vm_base::NoMemory;

// Appends the result of one thing.
fn push_part(out: &mut String<Global>, part: &str) -> Result<(), NoMemory> {
    if !out.as_str().is_empty() {
        out.push_str("; ")?;
    }
    out.push_str(part)?;
    Ok(())
}

/// Appends the text of the result of a line.
fn push_told(
    alloc: Global,
    told: Result<Outcome, LiveFault>,
    out: &mut String<Global>,
) -> Result<(), NoMemory> {
    match told {
        Ok(outcome) => {
            let mut text = LineText::new();
            write_outcome(&mut text, outcome);
            push_part(out, text.as_str().trim_end())
        }
        Err(fault) => push_part(out, &format!(in alloc; "{fault}")?),
    }
}

/// Appends what the lines of a script come to.
pub fn push_lines<R: Wait, A: Allocator + Clone>(
    rt: &R,
    alloc: Global,
    lanes: &mut [Lane<'_, A>],
    script: &str,
    out: &mut String<Global>,
) -> Result<(), NoMemory> {
    for line in script.split("; ") {
        if let Some(line) = read_line(line.as_bytes())
            && let Some(told) = done_by(rt, lanes, line)
        {
            push_told(alloc, told, out)?;
        }
    }
    Ok(())
}

/// Appends what the lines of a script come to that one core owns.
fn push_lines_alone<R: Wait>(
    rt: &R,
    alloc: Global,
    alone: &mut Alone<Global>,
    script: &str,
    out: &mut String<Global>,
) -> Result<(), NoMemory> {
    for line in script.split("; ") {
        if let Some(line) = read_line(line.as_bytes())
            && let Some(told) = alone.done(rt, line)
        {
            push_told(alloc, told, out)?;
        }
    }
    Ok(())
}

// Appends the reply of a note, if it answers a call.
fn push_answer(alloc: Global, outcome: Outcome, out: &mut String<Global>) -> Result<(), NoMemory> {
    match outcome {
        Outcome::Answered(_) => push_told(alloc, Ok(outcome), out),
        _ => Ok(()),
    }
}

/// Appends the replies that these seats noted, one seat after another.
pub fn push_answers<A: Allocator>(
    alloc: Global,
    seats: &[Seat<A>],
    out: &mut String<Global>,
) -> Result<(), NoMemory> {
    for seat in seats {
        let notes = seat.noted();
        for at in 0..notes.len() {
            push_answer(alloc, notes.get(at).outcome, out)?;
        }
    }
    Ok(())
}

/// Appends the result of certifying.
pub fn push_certified(
    alloc: Global,
    told: Result<Certified, CertifyFault>,
    out: &mut String<Global>,
) -> Result<(), NoMemory> {
    match told {
        Ok(done) => push_part(out, &format!(in alloc; "certified {}", done.calls)?),
        Err(fault) => push_part(out, &format!(in alloc; "{fault}")?),
    }
}

/// Appends what a script comes to that one core owns, on a new space.
fn push_told_alone<R: Wait>(
    rt: &R,
    alloc: Global,
    script: &str,
    out: &mut String<Global>,
) -> Result<(), NoMemory> {
    let Some(mut alone) = Alone::new(alloc, script) else {
        return Err(NoMemory);
    };
    push_lines_alone(rt, alloc, &mut alone, script, out)?;
    let Ok((seat, histories)) = alone.close() else {
        return Err(NoMemory);
    };
    let seats = [seat];
    let result = certified_beside(alloc, script, &seats, &histories);
    push_certified(alloc, result, out)
}

/// Appends what the lines of a script come to in its new space, and hands out the seats.
fn push_lines_in<R: Wait>(
    rt: &R,
    alloc: Global,
    live: &Live<Global>,
    seats: Vec<Seat<Global>, Global>,
    script: &str,
    out: &mut String<Global>,
) -> Result<Vec<Seat<Global>, Global>, NoMemory>
    requires { All (IsOf live.now) seats.items }
{
    let mut lanes = lanes_of(alloc, live, seats)?;
    push_lines(rt, alloc, lanes.as_mut_slice(), script, out)?;
    seats_of(alloc, lanes)
}

/// Appends the result of a script, on a new space.
fn push_told_by_seats<R: Wait>(
    rt: &R,
    alloc: Global,
    script: &str,
    out: &mut String<Global>,
) -> Result<(), NoMemory> {
    let Ok((live, seats)) = made(alloc, script) else {
        return Err(NoMemory);
    };
    let seats = push_lines_in(rt, alloc, &live, seats, script, out)?;
    let result = certified(alloc, script, live, &seats);
    push_certified(alloc, result, out)
}

/// How many cores and frames the space of a script tells that it has, and how many calls each of its seats may make.
pub fn shape_of(alloc: Global, script: &str) -> Option<(usize, usize, u64)> {
    let (live, _seats) = made(alloc, script).ok()?;
    Some((live.cores(), live.frames(), live.share()))
}

/// Appends the row if its script comes to something else: the script, and what it came to. A script with a fold is run by one core that
/// owns its space.
fn push_wrong<R: Wait>(
    rt: &R,
    alloc: Global,
    script: &str,
    wanted: &str,
    wrong: &mut String<Global>,
) -> Result<(), NoMemory> {
    let mut found = String::new(alloc);
    if script.split_once("; fold ").is_some() {
        push_told_alone(rt, alloc, script, &mut found)?;
    } else {
        push_told_by_seats(rt, alloc, script, &mut found)?;
    }
    if found.as_str() != wanted {
        push_line(script, wrong)?;
        push_line(found.as_str(), wrong)?;
    }
    Ok(())
}

/// The rows of a table that come to something else, one after another. What is no row has to be a comment.
pub fn wrong_rows<R: Wait>(rt: &R, alloc: Global, table: &str) -> Result<String<Global>, NoMemory> {
    let mut wrong = String::new(alloc);
    for row in table.lines() {
        if let Some((script, wanted)) = row.split_once(" => ") {
            push_wrong(rt, alloc, script, wanted, &mut wrong)?;
        } else if !row.starts_with('#') {
            push_line(row, &mut wrong)?;
        }
    }
    Ok(wrong)
}

/// Appends a line.
pub fn push_line(line: &str, out: &mut String<Global>) -> Result<(), NoMemory> {
    out.push_str(line)?;
    out.push_str("\n")?;
    Ok(())
}
