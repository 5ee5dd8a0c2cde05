//! Which threads were made, and by whom: of which process a thread is, and whose address space a process has.
ghost use Rattle.std.specs.Prelude.{◌≡◌, ◌&&◌, ◌||◌, ◌++◌, ◌∷◌, [], ℕ, IfOk, None, OnOk, is_some, length, nat_eq, nat_lt};
ghost use Rattle.std.specs.HashMap.{get};
ghost use Rattle.import_lines.specs.Made.{adopted, all_makings, first_start, fork_of, maker_of, making_by, makings, own_from, past_of, process_of, shares_any, shares_space, space_of};
ghost use Rattle.import_lines.specs.Made.{space_within, with_making, with_makings};

use crate::joining::Room;
use crate::threads::ThreadLines;
use crate::told::{CloneLine, hear_all};
use import_steps::meter::Meter;
use std::alloc::{AllocError, Global};
use std::collections::HashMap;
use std::marker::Model;

/// One thread that another made.
#[derive(Clone, Copy)]
pub struct Making {
    /// Its number.
    pub child: u64,
    /// The number of the thread that made it.
    pub parent: u64,
    /// Whether it is of the same process.
    pub shares: bool,
    /// Whether it is of another process, and has its maker's address space until it begins a program.
    pub joins: bool,
    /// The line from which on it has an address space of its own, if it is of another process, counted from 0: that in
    /// which the call began that made it, or where it has its maker's until it begins a program, that at which it
    /// does.
    pub at: usize,
}

/// The threads that others made, each once, and found by their numbers.
#[derive(Drop)]
pub struct Made {
    list: Vec<Making>,
    index: HashMap<u64, Making>,
}

impl Model for Made {
    ghost use Rattle.std.specs.Prelude.{◌≡◌, ℕ, List, nat_eq};
    ghost use Rattle.std.specs.HashMap.{get};
    ghost use Rattle.import_lines.specs.Made.{maker_of};
    ghost use Rattle.import_lines.specs.declared.made.Making.{Making};

    ghost Value = { List Making };

    ghost view = { λ s. s.list.items };

    ghost invariant = { λ s. (q : ℕ) → get nat_eq s.index q ≡ maker_of s.list.items q };
}

// No thread yet.
fn no_makings(alloc: Global) -> Made
    ensures { result ≡ [] }
{
    Made {
        list: Vec::new(alloc),
        index: HashMap::new(alloc),
    }
}

// Who made this thread, where the list says so.
fn maker_of(made: &Made, thread: u64) -> Option<Making>
    ensures { result ≡ maker_of made.now thread }
{
    match made.index.get(&thread) {
        Some(making) => Some(*making),
        None => None,
    }
}

/// Tells whether the list says who made this thread.
pub fn is_made(made: &Made, thread: u64) -> bool
    ensures { result ≡ is_some (maker_of made.now thread) }
{
    maker_of(made, thread).is_some()
}

// Tells whether the thread is of its maker's process.
fn shares_space(making: Making) -> bool
    ensures { result ≡ shares_space making }
{
    if making.child == 0 {
        false
    } else {
        making.shares
    }
}

// Tells whether one of these threads is.
#[tactic(auto, using(crate::proofs::MadeLemmas::shares_here, crate::proofs::MadeLemmas::shares_more))]
fn any_shares(list: &[Making]) -> bool
    ensures { result ≡ shares_any list.now }
{
    let mut at = 0;
    'makings: while at < list.len() {
        if shares_space(list[at]) {
            return true;
        }
        at += 1;
    }
    false
}

/// Tells whether a thread with a number is of its maker's process.
pub fn shares_any(made: &Made) -> bool
    ensures { result ≡ shares_any made.now }
{
    any_shares(made.list.as_slice())
}

// Adds a thread, of which the list doesn't say yet who made it.
fn push_making(made: &mut Made, making: Making) -> Result<(), AllocError>
    requires { maker_of made.old making.child ≡ None }
    ensures { OnOk result (made.new ≡ made.old ++ making ∷ []) }
{
    made.list.push(making)?;
    match made.index.insert(making.child, making) {
        Ok(_) => Ok(()),
        Err(_) => {
            let _ = made.list.pop();
            Err(AllocError)
        }
    }
}

// Adds a thread, if the list doesn't say yet who made it.
fn add_making(made: &mut Made, making: Making) -> Result<(), AllocError>
    ensures { OnOk result (made.new ≡ with_making made.old making) }
{
    match maker_of(made, making.child) {
        Some(_) => Ok(()),
        None => {
            push_making(made, making)?;
            Ok(())
        }
    }
}

// The line from which on the child has an address space of its own, as it is known where each thread begins its first
// program.
fn own_from(starts: &HashMap<u64, usize>, lines: &ThreadLines, telling: CloneLine) -> usize
    requires { (t : ℕ) → get nat_eq starts.now t ≡ first_start lines.now (length lines.now) t }
    ensures { result ≡ own_from lines.now telling }
{
    if !telling.joins {
        return telling.began;
    }
    match starts.get(&telling.child) {
        Some(at) => *at,
        None => lines.len(),
    }
}

// The same with the line from which on it has an address space of its own.
fn making_by(starts: &HashMap<u64, usize>, lines: &ThreadLines, telling: CloneLine) -> Making
    requires { (t : ℕ) → get nat_eq starts.now t ≡ first_start lines.now (length lines.now) t }
    ensures { result ≡ making_by lines.now telling }
{
    let at = own_from(starts, lines, telling);
    Making {
        child: telling.child,
        parent: telling.parent,
        shares: telling.shares,
        joins: telling.joins,
        at,
    }
}

// Adds these threads, each if the list doesn't say yet who made it.
fn add_makings(
    made: &mut Made,
    lines: &ThreadLines,
    starts: &HashMap<u64, usize>,
    tellings: &[CloneLine],
) -> Result<(), AllocError>
    requires { (t : ℕ) → get nat_eq starts.now t ≡ first_start lines.now (length lines.now) t }
    ensures { OnOk result (made.new ≡ with_makings lines.now made.old tellings.now) }
{
    let mut at = 0;
    'tellings: while at < tellings.len() {
        let making = making_by(starts, lines, tellings[at]);
        add_making(made, making)?;
        at += 1;
    }
    Ok(())
}

// All threads that the lines say were made, each once, in the order of the first lines that say so.
fn read_makings<M: Meter>(
    alloc: Global,
    lines: &ThreadLines,
    room: &mut Room,
    meter: &mut M,
) -> Result<Made, AllocError>
    ensures { IfOk result (λ made. made ≡ makings lines.now) }
{
    let heard = hear_all(alloc, lines, room, meter)?;
    let mut made = no_makings(alloc);
    let added = add_makings(&mut made, lines, &heard.starts, heard.tellings.as_slice());
    drop(heard);
    match added {
        Ok(()) => Ok(made),
        Err(fault) => {
            drop(made);
            Err(fault)
        }
    }
}

// Adds each thread of which no line says who made it as one of process 0.
fn adopt(made: &mut Made, lines: &ThreadLines) -> Result<(), AllocError>
    ensures { OnOk result (made.new ≡ adopted lines.now made.old (length lines.now)) }
{
    let mut at = 0;
    'lines: while at < lines.len() {
        let thread = lines.thread(at);
        let making = Making {
            child: thread,
            parent: 0,
            shares: true,
            joins: false,
            at: 0,
        };
        add_making(made, making)?;
        at += 1;
    }
    Ok(())
}

/// Who made which thread, as the lines say. Where all threads of which none says so are of one process, that is
/// process 0.
pub fn all_makings<M: Meter>(
    alloc: Global,
    lines: &ThreadLines,
    joined: bool,
    room: &mut Room,
    meter: &mut M,
) -> Result<Made, AllocError>
    ensures { IfOk result (λ made. made ≡ all_makings joined lines.now) }
{
    let mut made = read_makings(alloc, lines, room, meter)?;
    if joined {
        adopt(&mut made, lines)?;
    }
    Ok(made)
}

/// The process of a thread: the number of its first thread, which is the first of whose maker no line tells, or which
/// was made with an address space of its own.
pub fn process_of(made: &Made, thread: u64) -> u64
    ensures { result ≡ process_of made.now thread }
{
    let mut thread = thread;
    let mut more = made.list.len();
    'makers: while more > 0 {
        more -= 1;
        let Some(making) = maker_of(made, thread) else {
            return thread;
        };
        if !making.shares {
            return thread;
        }
        thread = making.parent;
    }
    thread
}

/// How the first thread of a process was made, where it was made with an address space of its own.
pub fn fork_of(made: &Made, process: u64) -> Option<Making>
    ensures { result ≡ fork_of (maker_of made.now process) }
{
    match maker_of(made, process) {
        Some(making) => { if making.shares { None } else { Some(making) } }
        None => None,
    }
}

// Tells whether a process that was made so has no address space of its own at this line. Whether a child that copies
// its maker's counts, too, and not only one that shares that.
fn is_lent(copies: bool, line: usize, making: Making) -> bool
    ensures { result ≡ (copies || making.joins) && nat_lt line making.at }
{
    (copies || making.joins) && line < making.at
}

// The process whose address space one has at this line that was made so: its own, or its maker's, and so on.
#[tactic(auto, using(crate::proofs::MadeLemmas::space_stops, crate::proofs::MadeLemmas::space_goes))]
fn space_within(copies: bool, made: &Made, line: usize, process: u64, own: Option<Making>) -> u64
    requires { own ≡ fork_of (maker_of made.now process) }
    ensures { result ≡ space_within copies made.now line (length made.now) process }
{
    let mut process = process;
    let mut own = own;
    let mut more = made.list.len();
    'makers: while more > 0 {
        more -= 1;
        let Some(making) = own else {
            return process;
        };
        let lent = is_lent(copies, line, making);
        if !lent {
            return process;
        }
        process = process_of(made, making.parent);
        own = fork_of(made, process);
    }
    process
}

/// The process whose address space the calls of this one change at this line: its own, or its maker's while it shares
/// that.
pub fn space_of(made: &Made, line: usize, process: u64, own: Option<Making>) -> u64
    requires { own ≡ fork_of (maker_of made.now process) }
    ensures { result ≡ space_of made.now line process }
{
    space_within(false, made, line, process, own)
}

/// The process whose address space this one has at this line: its own, or before it has one, its maker's.
pub fn past_of(made: &Made, line: usize, process: u64, own: Option<Making>) -> u64
    requires { own ≡ fork_of (maker_of made.now process) }
    ensures { result ≡ past_of made.now line process }
{
    space_within(true, made, line, process, own)
}
