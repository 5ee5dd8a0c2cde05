//! Machines over both slot maps, moved event by event, and what a trace gives over each.
ghost use Rattle.std.specs.Prelude.{◌<◌};
ghost use Rattle.slot_lock.specs.Slots.{IsNew};
ghost use Rattle.core_steps.specs.Machine.{state};

use crate::by_hand::{Moves, outcome_of};
use core_steps::Machine;
use machine_log::KeepsAll;
use machine_model::{Event, Outcome};
use radix_range::RadixMap;
use slot_lock::{MapLine, SlotList, SlotMap};
use std::alloc::{Allocator, Global};
use test_support::setups::declared;
use trace_text::{
    LineText, address_text, number_text, read_line, write_answer, write_detach, write_map_line,
};
use trace_words::declaration::Declaration;
use trace_words::outcome_text::write_outcome;
use vm_base::{CoreId, Entry, NoMemory};

/// A machine as the program has it. It is named here alone.
pub type Space<M, A> = Machine<M, A, KeepsAll<A>>;

/// The machine that is declared, over a new slot map.
pub fn machine_over<M: SlotMap + Drop, A: Allocator + Clone + Drop>(
    alloc: A,
    map: M,
    declared: &Declaration,
) -> Result<Space<M, A>, NoMemory>
    requires { IsNew (M.slots map) }
{
    if declared.fault().is_some() {
        return Err(NoMemory);
    }
    let setup = declared.setup(alloc.clone()?)?;
    match Machine::new(alloc, map, setup) {
        Ok(machine) => Ok(machine),
        Err(_) => Err(NoMemory),
    }
}

/// What a line gives, if it has events.
fn write_line<S: Moves>(machine: &mut S, line: &str, text: &mut LineText) -> Result<(), NoMemory> {
    text.clear();
    if let Some(outcome) = outcome_of(machine, read_line(line.as_bytes()))? {
        write_outcome(text, outcome);
    }
    Ok(())
}

/// Appends what the lines of events give, `refused` where memory was refused.
pub fn push_outcomes<S: Moves>(
    machine: &mut S,
    trace: &str,
    out: &mut String<Global>,
) -> Result<(), NoMemory> {
    let mut text = LineText::new();
    for line in trace.lines() {
        if write_line(machine, line, &mut text).is_err() {
            text.clear();
            text.push_str("refused\n");
        }
        out.push_str(text.as_str())?;
    }
    Ok(())
}

/// Appends the lines of a log.
fn push_log(log: &[Entry], out: &mut String<Global>) -> Result<(), NoMemory> {
    let mut text = LineText::new();
    for entry in log {
        match *entry {
            Entry::Answer {
                step,
                call,
                reply,
                ..
            } => write_answer(&mut text, step, call, reply),
            Entry::Detach { step, page, .. } => write_detach(&mut text, step, page),
        }
        out.push_str(text.as_str())?;
    }
    Ok(())
}

/// Appends the lines of a list of mappings.
fn push_maps(maps: &[MapLine], out: &mut String<Global>) -> Result<(), NoMemory> {
    let mut text = LineText::new();
    for line in maps {
        write_map_line(&mut text, line.range, line.prot, line.back);
        out.push_str(text.as_str())?;
    }
    Ok(())
}

/// Appends the present entries of the core's tables: the core, the page's address and the entry.
fn push_entries_of<M: SlotMap, A: Allocator + Clone>(
    machine: &Space<M, A>,
    core: CoreId,
    out: &mut String<Global>,
) -> Result<(), NoMemory>
    requires { core < (state machine.now).made.cores }
{
    for page in 0x10..0x22u64 {
        if let Some(entry) = machine.entry(core, page) {
            out.push_str("c")?;
            out.push_str(number_text(u64::from(core.index())).as_str())?;
            out.push_str(" ")?;
            out.push_str(address_text(page * 4096).as_str())?;
            out.push_str(" ")?;
            out.push_str(address_text(entry).as_str())?;
            out.push_str("\n")?;
        }
    }
    Ok(())
}

/// Appends those of all cores, of the pages that traces use.
fn push_entries<M: SlotMap, A: Allocator + Clone>(
    machine: &Space<M, A>,
    out: &mut String<Global>,
) -> Result<(), NoMemory> {
    for index in 0..64u8 {
        if (index as usize) < machine.cores() {
            push_entries_of(machine, CoreId::new(index), out)?;
        }
    }
    Ok(())
}

impl<M: SlotMap, A: Allocator + Clone> Moves for Space<M, A> {
    fn take(&mut self, event: Event) -> Result<Outcome, NoMemory> {
        self.step(event)
    }

    fn push_state(&self, alloc: Global, out: &mut String<Global>) -> Result<(), NoMemory> {
        push_log(self.log(), out)?;
        push_maps(&self.plain_maps(alloc)?, out)?;
        push_entries(self, out)
    }
}

/// Over which slot map a machine is.
#[derive(Clone, Copy)]
pub enum Over {
    /// The tree, as the program's.
    Tree,
    /// The list of slots.
    List,
}

/// What a run gives, line by line, and what can be seen of the machine behind it: the lines of its log, which begin with `log`, those
/// of its mappings, which begin with `0x`, and those of its cores' entries, which begin with `c`.
#[derive(Drop)]
pub struct RunOutput {
    pub lines: String<Global>,
    pub state: String<Global>,
}

/// Moves a machine by a trace, and tells of it.
fn told_of<S: Moves>(machine: &mut S, alloc: Global, trace: &str) -> Result<RunOutput, NoMemory> {
    let mut lines = String::new(alloc);
    push_outcomes(machine, trace, &mut lines)?;
    let mut state = String::new(alloc);
    machine.push_state(alloc, &mut state)?;
    Ok(RunOutput { lines, state })
}

/// What is told of a new machine over this map, with this memory, moved by a trace.
pub fn told_with<M: SlotMap + Drop, A: Allocator + Clone + Drop>(
    alloc: Global,
    memory: A,
    map: M,
    trace: &str,
) -> Result<RunOutput, NoMemory>
    requires { IsNew (M.slots map) }
{
    let mut machine = machine_over(memory, map, &declared(trace))?;
    told_of(&mut machine, alloc, trace)
}

/// The same over a map of this kind.
pub fn told_over(alloc: Global, over: Over, trace: &str) -> Result<RunOutput, NoMemory> {
    match over {
        Over::Tree => told_with(alloc, alloc, RadixMap::new(alloc)?, trace),
        Over::List => told_with(alloc, alloc, SlotList::new(alloc)?, trace),
    }
}

/// The lines of a text that begin so.
pub fn lines_from(alloc: Global, text: &str, begin: &str) -> Result<String<Global>, NoMemory> {
    let mut out = String::new(alloc);
    for line in text.lines() {
        if line.starts_with(begin) {
            out.push_str(line)?;
            out.push_str("\n")?;
        }
    }
    Ok(out)
}
