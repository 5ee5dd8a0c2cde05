//! What lines tell of threads that were made, and of programs that begin.
ghost use Rattle.std.specs.Prelude.{◌≡◌, ◌<◌, ◌+◌, ◌==◌, ◌&&◌, ℕ, IfOk, OnOk, Some, if◌then◌else◌, length, nat_eq, unwrap_or};
ghost use Rattle.std.specs.HashMap.{get};
ghost use Rattle.import_lines.specs.Made.{began_at, last_line, or_here, said_at, starts, telling_of, with_telling};
ghost use Rattle.import_lines.specs.Told.{Hears};

use crate::joining::{Room, half_text, told_at};
use crate::threads::ThreadLines;
use import_forms::said::Said;
use import_forms::speech::returned;
use import_steps::meter::{Meter, tell_of};
use std::alloc::{AllocError, Global};
use std::collections::HashMap;

/// What a line tells of a thread that was made.
#[derive(Clone, Copy)]
pub struct CloneLine {
    /// Its number.
    pub child: u64,
    /// The number of the thread that made it.
    pub parent: u64,
    /// Whether it is of the same process.
    pub shares: bool,
    /// Whether it is of another process, and has its maker's address space until it begins a program.
    pub joins: bool,
    /// The line in which the call began that made it, counted from 0.
    pub began: usize,
}

/// What lines tell.
#[derive(Drop)]
pub struct Heard {
    /// The threads that they say were made, in order.
    pub tellings: Vec<CloneLine>,
    /// The line at which each thread begins its first program.
    pub starts: HashMap<u64, usize>,
    // Each thread's last line.
    last: HashMap<u64, usize>,
}

// The thread's last line, as it is known of each, and else this one.
fn last_or(last: &HashMap<u64, usize>, thread: u64, place: usize) -> usize
    ensures { result ≡ unwrap_or (get nat_eq last.now thread) place }
{
    match last.get(&thread) {
        Some(at) => *at,
        None => place,
    }
}

// The line in which the call began that acts at this one, as it is known which line is each thread's last before it.
fn began_at(last: &HashMap<u64, usize>, lines: &ThreadLines, place: usize) -> usize
    requires place { place < length lines.now }
    requires last { (t : ℕ) → get nat_eq last.now t ≡ last_line lines.now place t }
    ensures { result ≡ began_at lines.now place }
{
    match returned(half_text(lines, place)) {
        Some(_) => last_or(last, lines.thread(place), place),
        None => place,
    }
}

/// Tells whether a program begins.
pub fn starts_program(said: Said) -> bool
    ensures { result ≡ starts (Some said) }
{
    match said {
        Said::Begins => true,
        Said::Asks(_)
        | Said::Breaks(_)
        | Said::Moves { .. }
        | Said::Makes { .. }
        | Said::Keyed(_)
        | Said::Sizes { .. }
        | Said::Attaches { .. }
        | Said::Detaches(_)
        | Said::Clears { .. }
        | Said::Loses(_)
        | Said::Ends
        | Said::Fails
        | Said::Unread
        | Said::Other => false,
    }
}

// What this line tells of a thread that was made.
fn telling_of(
    last: &HashMap<u64, usize>,
    lines: &ThreadLines,
    place: usize,
    said: Said,
) -> Option<CloneLine>
    requires place { place < length lines.now }
    requires last { (t : ℕ) → get nat_eq last.now t ≡ last_line lines.now place t }
    ensures { result ≡ telling_of lines.now place (Some said) }
{
    match said {
        Said::Makes {
            thread,
            shares,
            joins,
        } => Some(CloneLine {
            child: thread,
            parent: lines.thread(place),
            shares,
            joins,
            began: began_at(last, lines, place),
        }),
        Said::Asks(_)
        | Said::Breaks(_)
        | Said::Moves { .. }
        | Said::Begins
        | Said::Keyed(_)
        | Said::Sizes { .. }
        | Said::Attaches { .. }
        | Said::Detaches(_)
        | Said::Clears { .. }
        | Said::Loses(_)
        | Said::Ends
        | Said::Fails
        | Said::Unread
        | Said::Other => None,
    }
}

/// What the call says that acts at this line, if one does.
#[tactic(auto, using(crate::proofs::ToldLemmas::said_told))]
pub fn said_at(
    lines: &ThreadLines,
    place: usize,
    room: &mut Room,
) -> Result<Option<Said>, AllocError>
    requires { place < length lines.now }
    ensures { IfOk result (λ said. said ≡ said_at lines.now place) }
{
    let said = told_at(lines, place, room)?;
    Ok(said)
}

// Notes what this line tells of a thread that was made.
fn hear_telling(
    tellings: &mut Vec<CloneLine>,
    last: &HashMap<u64, usize>,
    lines: &ThreadLines,
    place: usize,
    said: Option<Said>,
) -> Result<(), AllocError>
    requires place { place < length lines.now }
    requires last { (t : ℕ) → get nat_eq last.now t ≡ last_line lines.now place t }
    ensures { OnOk result (tellings.new.items ≡ with_telling tellings.old.items (telling_of lines.now place said)) }
{
    let Some(said) = said else {
        return Ok(());
    };
    match telling_of(last, lines, place, said) {
        Some(telling) => {
            tellings.push(telling)?;
            Ok(())
        }
        None => Ok(()),
    }
}

// Notes that the thread begins a program at this line, if it began none before.
fn note_start(starts: &mut HashMap<u64, usize>, thread: u64, place: usize) -> Result<(), AllocError>
    ensures { OnOk result ((t : ℕ) → get nat_eq starts.new t ≡ or_here (get nat_eq starts.old t) (thread == t) place) }
{
    match starts.get(&thread) {
        Some(_) => Ok(()),
        None => {
            starts.insert(thread, place)?;
            Ok(())
        }
    }
}

// Notes it if this is what the thread's call says.
fn hear_start(
    noted: &mut HashMap<u64, usize>,
    thread: u64,
    place: usize,
    said: Option<Said>,
) -> Result<(), AllocError>
    ensures { OnOk result ((t : ℕ) → get nat_eq noted.new t
        ≡ or_here (get nat_eq noted.old t) ((thread == t) && starts said) place) }
{
    let Some(said) = said else {
        return Ok(());
    };
    if starts_program(said) {
        note_start(noted, thread, place)
    } else {
        Ok(())
    }
}

// Notes that this line is the thread's last.
fn note_last(last: &mut HashMap<u64, usize>, thread: u64, place: usize) -> Result<(), AllocError>
    ensures { OnOk result ((t : ℕ) → get nat_eq last.new t
        ≡ (if thread == t then Some place else get nat_eq last.old t)) }
{
    last.insert(thread, place)?;
    Ok(())
}

// Notes what one more line tells.
fn hear_line(
    heard: &mut Heard,
    lines: &ThreadLines,
    place: usize,
    room: &mut Room,
) -> Result<(), AllocError>
    requires place { place < length lines.now }
    requires heard { Hears lines.now place heard.old }
    ensures { OnOk result (Hears lines.now (place + 1) heard.new) }
{
    let said = said_at(lines, place, room)?;
    let thread = lines.thread(place);
    hear_telling(&mut heard.tellings, &heard.last, lines, place, said)?;
    hear_start(&mut heard.starts, thread, place, said)?;
    note_last(&mut heard.last, thread, place)?;
    Ok(())
}

/// What all lines tell.
pub fn hear_all<M: Meter>(
    alloc: Global,
    lines: &ThreadLines,
    room: &mut Room,
    meter: &mut M,
) -> Result<Heard, AllocError>
    ensures { IfOk result (Hears lines.now (length lines.now)) }
{
    let mut heard = Heard {
        tellings: Vec::new(alloc),
        starts: HashMap::new(alloc),
        last: HashMap::new(alloc),
    };
    let mut at = 0;
    'lines: while at < lines.len() {
        tell_of(meter, 1, at, lines.len());
        hear_line(&mut heard, lines, at, room)?;
        at += 1;
    }
    Ok(heard)
}
