//! Machines whose memory is refused: all of it is taken before each event, and given back bit by
//! bit until the event goes through.
ghost use Rattle.slot_lock.specs.Slots.{IsNew};

use crate::by_hand::{Moves, outcome_of};
use crate::machines::{Over, machine_over, told_over, told_with};
use linked_list_allocator::LocalHeap;
use machine_model::{Event, Outcome};
use radix_range::RadixMap;
use slot_lock::{SlotList, SlotMap};
use std::alloc::{Allocator, Global};
use test_support::heaps::{HeapBlock, fill};
use test_support::setups::declared;
use trace_text::{LineText, read_line};
use trace_words::outcome_text::write_outcome;
use vm_base::NoMemory;

/// Room for each machine of the tables.
pub const AMPLE: usize = 1_500_000;

/// Whether a text tells which of its lines were refused first, or only that one was.
#[derive(Clone, Copy)]
pub enum Marks {
    Told,
    Untold,
}

/// A machine in a heap that is full before each event.
#[derive(Drop)]
struct Starved<'s, 'h, S> {
    space: &'s mut S,
    alloc: Global,
    heap: &'h LocalHeap,
    taken: Vec<HeapBlock<'h>>,
    /// An event of the line was refused.
    is_refused: bool,
    /// An event was refused.
    has_refused: bool,
    /// No refusal has changed anything that can be seen.
    is_same: bool,
}

impl<'s, 'h, S: Moves> Starved<'s, 'h, S> {
    fn state(&self) -> Result<String<Global>, NoMemory> {
        let mut state = String::new(self.alloc);
        self.space.push_state(self.alloc, &mut state)?;
        Ok(state)
    }
}

impl<'s, 'h, S: Moves> Moves for Starved<'s, 'h, S> {
    fn take(&mut self, event: Event) -> Result<Outcome, NoMemory> {
        fill(self.heap, &mut self.taken)?;
        let before = self.state()?;
        for _piece in 0..AMPLE {
            if let Ok(outcome) = self.space.take(event) {
                return Ok(outcome);
            }
            self.is_refused = true;
            self.has_refused = true;
            if self.state()?.as_str() != before.as_str() {
                self.is_same = false;
            }
            if self.taken.pop().is_none() {
                return Err(NoMemory);
            }
        }
        Err(NoMemory)
    }

    fn push_state(&self, alloc: Global, out: &mut String<Global>) -> Result<(), NoMemory> {
        self.space.push_state(alloc, out)
    }
}

/// Appends what the lines give, behind `refused` where a line was refused first and that is told.
fn push_starved<'s, 'h, S: Moves>(
    starved: &mut Starved<'s, 'h, S>,
    trace: &str,
    marks: Marks,
    out: &mut String<Global>,
) -> Result<(), NoMemory> {
    let mut text = LineText::new();
    for line in trace.lines() {
        starved.is_refused = false;
        if let Some(outcome) = outcome_of(starved, read_line(line.as_bytes()))? {
            if starved.is_refused && marks == Marks::Told {
                out.push_str("refused ")?;
            }
            write_outcome(&mut text, outcome);
            out.push_str(text.as_str())?;
        }
    }
    Ok(())
}

/// The text of a trace on a machine in a heap, and what can be seen of it at the end; a last
/// line of the text tells where a refusal changed anything.
fn starve<'s, 'h, S: Moves>(
    space: &'s mut S,
    alloc: Global,
    heap: &'h LocalHeap,
    trace: &str,
    marks: Marks,
) -> Result<(String<Global>, String<Global>), NoMemory> {
    let mut text = String::new(alloc);
    let mut starved = Starved {
        space,
        alloc,
        heap,
        taken: Vec::new(alloc),
        is_refused: false,
        has_refused: false,
        is_same: true,
    };
    push_starved(&mut starved, trace, marks, &mut text)?;
    if starved.has_refused && marks == Marks::Untold {
        text.push_str("with refusals\n")?;
    }
    if !starved.is_same {
        text.push_str("a refusal changed something\n")?;
    }
    let state = starved.state()?;
    Ok((text, state))
}

/// The same of a new machine with this memory, which is the heap's.
fn starved_text<M: SlotMap + Drop, A: Allocator + Clone + Drop>(
    alloc: Global,
    heap: &LocalHeap,
    memory: A,
    map: M,
    trace: &str,
    marks: Marks,
) -> Result<(String<Global>, String<Global>), NoMemory>
    requires { IsNew (M.slots map) }
{
    let mut machine = machine_over(memory, map, &declared(trace))?;
    starve(&mut machine, alloc, heap, trace, marks)
}

/// The text of a trace on a machine whose memory is full before each event. A last line tells where
/// it ends otherwise than with ample memory.
pub fn text_of_starved(
    alloc: Global,
    over: Over,
    trace: &str,
    marks: Marks,
) -> Result<String<Global>, NoMemory> {
    let heap = LocalHeap::new(alloc, AMPLE)?;
    let (mut text, state) = match over {
        Over::Tree => starved_text(alloc, &heap, &heap, RadixMap::new(&heap)?, trace, marks)?,
        Over::List => starved_text(alloc, &heap, &heap, SlotList::new(&heap)?, trace, marks)?,
    };
    if state.as_str() != told_over(alloc, over, trace)?.state.as_str() {
        text.push_str("ends otherwise\n")?;
    }
    Ok(text)
}

/// The text of a trace over a tree in a heap of the smallest multiple of 4096 bytes that has its
/// root, with ample memory for all else.
pub fn text_in_a_full_heap(alloc: Global, trace: &str) -> Result<String<Global>, NoMemory> {
    for pages in 1..100usize {
        let heap = LocalHeap::new(alloc, 4096 * pages)?;
        if let Ok(map) = RadixMap::new(&heap) {
            let told = told_with(alloc, alloc, map, trace)?;
            return Ok(told.lines);
        }
    }
    Err(NoMemory)
}
