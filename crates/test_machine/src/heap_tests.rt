//! Lists of events, replays and lists of mappings in heaps from too small up to ample: each place that takes memory is refused in one of
//! them.
ghost use Rattle.slot_lock.specs.Slots.{IsNew};

use crate::machines::{Space, machine_over, push_outcomes};
use core_steps::{RunFault, run};
use linked_list_allocator::LocalHeap;
use machine_log::KeepsAll;
use machine_model::{Event, Setup, SetupFault};
use slot_lock::{SlotList, SlotMap};
use std::alloc::{Allocator, Global};
use std::test::Fail;
use test_support::setups::declared;
use trace::replay::replay;
use trace_io::sink::TrackedSink;
use trace_io::source::Counted;
use trace_words::fault::TraceFault;
use trace_words::show::Show;
use vm_base::{CoreId, Flags, NoMemory, Prot, Request};

/// mmap 0x10000 4096 rw- pfa, and three steps of it.
fn mmap_and_go() -> [Event; 4] {
    let core = CoreId::new(0);
    let request = Request::Mmap {
        addr: 0x10000,
        len: 4096,
        prot: Prot {
            read: true,
            write: true,
            exec: false,
        },
        flags: Flags {
            private: true,
            shared: false,
            fixed: true,
            anon: true,
        },
        file: 0,
        off: 0,
    };
    [
        Event::Call(core, request),
        Event::Go(core),
        Event::Go(core),
        Event::Go(core),
    ]
}

/// Why a run of these steps fails, if it does, on a machine of so many cores, frames and calls. The slot map has memory of its own.
fn fault<A: Allocator + Clone + Drop, B: Allocator + Clone + Drop>(
    alloc: A,
    slots: B,
    (cores, frames, calls): (u64, u64, u64),
) -> Result<Option<RunFault>, NoMemory> {
    let map = SlotList::new(slots)?;
    let setup = Setup {
        cores,
        frames,
        files: Vec::new(alloc.clone()?),
        calls,
    };
    let events = mmap_and_go();
    match run::<SlotList<B>, A, KeepsAll<A>>(alloc, map, setup, events.as_slice()) {
        Ok(_) => Ok(None),
        Err(fault) => Ok(Some(fault)),
    }
}

// Want of memory is the last fault of a setup: there is none for a machine here.
#[test]
fn memory_comes_last(rt: HostRuntime) -> Result<(), Fail> {
    let heap = LocalHeap::new(rt.alloc(), 64)?;
    for (asked, told) in [
        ((0, 65_537, 1_048_577), SetupFault::Cores),
        ((65, 65_537, 1_048_577), SetupFault::Cores),
        ((1, 65_537, 1_048_577), SetupFault::Frames),
        ((1, 65_536, 1_048_577), SetupFault::Calls),
        ((1, 65_536, 1_048_576), SetupFault::NoMemory),
    ] {
        assert!(rt; fault(&heap, rt.alloc(), asked)? == Some(RunFault::Setup(told)));
    }
    Ok(())
}

/// How far a run comes in a heap: 0 where there is no memory for the machine, 1 where there is none for the list of outcomes, as many as
/// there are events, and 2 where nothing is refused.
fn stage_in(alloc: Global, size: usize) -> Result<u64, NoMemory> {
    let heap = LocalHeap::new(alloc, size)?;
    let came = fault(&heap, alloc, (1, 1, 2))?;
    if heap.used() != 0 {
        return Ok(3);
    }
    match came {
        Some(RunFault::Setup(SetupFault::NoMemory)) => Ok(0),
        Some(RunFault::NoMemory { at: 4 }) => Ok(1),
        Some(_) => Ok(4),
        None => Ok(2),
    }
}

/// How many heaps of sizes that rise by 32 bytes come to each stage, if the stages never fall.
fn stages(alloc: Global) -> Result<Option<[u64; 3]>, NoMemory> {
    let mut counts = [0u64; 3];
    let mut last = 0u64;
    for n in 0..6_000usize {
        let stage = stage_in(alloc, 64 + 32 * n)?;
        if stage < last || stage >= 3 {
            return Ok(None);
        }
        counts[stage as usize] = counts[stage as usize].saturating_add(1);
        last = stage;
    }
    Ok(Some(counts))
}

// The core's inbox alone has 63 messages of 16 bytes and more.
#[test]
fn heaps_that_are_too_small(rt: HostRuntime) -> Result<(), Fail> {
    let counts = stages(rt.alloc())?.unwrap_or([0; 3]);
    assert!(rt; counts[0] > 28 && counts[1] > 0 && counts[2] > 0);
    Ok(())
}

// In the smallest heap that has a list of slots the first division is refused: that of the third event.
#[test]
fn a_division_is_refused(rt: HostRuntime) -> Result<(), Fail> {
    let mut told = None;
    for n in 0..100usize {
        let heap = LocalHeap::new(rt.alloc(), 64 + 16 * n)?;
        if let Ok(fault) = fault(rt.alloc(), &heap, (1, 1, 2)) {
            told = fault;
            break;
        }
    }
    assert!(rt; told == Some(RunFault::NoMemory { at: 2 }));
    Ok(())
}

/// Nine mappings, none of which goes on.
const NINE: &str = "\
vm 1 4
c0! mmap 0x10000 4096 rw- pfa
c0! mmap 0x12000 4096 rw- pfa
c0! mmap 0x14000 4096 rw- pfa
c0! mmap 0x16000 4096 rw- pfa
c0! mmap 0x18000 4096 rw- pfa
c0! mmap 0x1a000 4096 rw- pfa
c0! mmap 0x1c000 4096 rw- pfa
c0! mmap 0x1e000 4096 rw- pfa
c0! mmap 0x20000 4096 rw- pfa
";

/// How many heaps were too small for the list of mappings, and how many lines it has in the first
/// that isn't, 0 where these aren't the lines that it has elsewhere.
fn lists_of<M: SlotMap, A: Allocator + Clone>(
    machine: &mut Space<M, A>,
    alloc: Global,
) -> Result<(u64, usize), NoMemory> {
    let mut text = String::new(alloc);
    push_outcomes(machine, NINE, &mut text)?;
    let whole = machine.plain_maps(alloc)?;
    for n in 0..1000u64 {
        let heap = LocalHeap::new(alloc, 64 + 16 * n as usize)?;
        if let Ok(lines) = machine.plain_maps(&heap) {
            let is_whole = lines.as_slice() == whole.as_slice();
            return Ok((n, if is_whole { lines.len() } else { 0 }));
        }
    }
    Ok((0, 0))
}

/// The same of a new machine over this map, with this memory.
fn lists_over<M: SlotMap + Drop, A: Allocator + Clone + Drop>(
    alloc: Global,
    memory: A,
    map: M,
) -> Result<(u64, usize), NoMemory>
    requires { IsNew (M.slots map) }
{
    let mut machine = machine_over(memory, map, &declared(NINE))?;
    lists_of(&mut machine, alloc)
}

#[test]
fn a_list_of_mappings_is_refused_or_whole(rt: HostRuntime) -> Result<(), Fail> {
    let map = SlotList::new(rt.alloc())?;
    let (refused, lines) = lists_over(rt.alloc(), rt.alloc(), map)?;
    assert!(rt; refused > 0);
    assert_eq!(rt; lines, 9);
    Ok(())
}

/// A trace whose steps divide slots, fill tables and copy a page.
const COPYING: &[u8] =
    b"vm 1 2 4\nfile 0 r 2 7\nc0! mmap 0x10000 4096 rw- pf 0 0\nc0! load 0x10000\nc0! store 0x10000 9\nc0! load 0x10000\n";

const COPIED: &[u8] = b"0x10000\n7\ndone\n9\n";

/// How a replay ends in a heap: 0 where there is no memory for a chunk of lines, 1 where there is none for the machine, 2 and more where
/// there is none for an event behind so many lines, and 7 where all has gone out; 8 where what has gone out isn't whole lines of it.
fn end_in(alloc: Global, size: usize) -> Result<usize, NoMemory> {
    let heap = LocalHeap::new(alloc, size)?;
    let mut reader = Counted::new(COPYING);
    let mut writer = TrackedSink::unbuffered(alloc, Vec::new(alloc));
    let result = replay(&heap, &mut reader, &mut writer, Show::Outcomes);
    let written = writer.writer.get_ref().as_slice();
    let lines = written.iter().filter(|byte| **byte == b'\n').count();
    let is_front = COPIED.starts_with(written) && (lines == 0 || written.ends_with(b"\n"));
    if !is_front {
        return Ok(8);
    }
    match result {
        Ok(()) => Ok(if lines == 4 { 7 } else { 8 }),
        Err(TraceFault::NoMemory) => Ok(if reader.reads == 0 {
            0
        } else {
            lines.saturating_add(2)
        }),
        Err(fault) => Ok(if fault == TraceFault::Setup(SetupFault::NoMemory) {
            1
        } else {
            8
        }),
    }
}

/// How many heaps of sizes that rise by 512 bytes end a replay in each way.
fn ends(alloc: Global) -> Result<[u64; 9], NoMemory> {
    let mut counts = [0u64; 9];
    for n in 0..800usize {
        let end = end_in(alloc, 65_408 + 512 * n)?;
        if end < 9 {
            counts[end] = counts[end].saturating_add(1);
        }
    }
    Ok(counts)
}

// The divisions of the first line are refused, and the tables of the second. (A copy takes memory where the log is kept: `rows` has it
// refused.)
#[test]
fn each_heap_that_is_too_small(rt: HostRuntime) -> Result<(), Fail> {
    let counts = ends(rt.alloc())?;
    assert_eq!(rt; (counts[6], counts[8]), (0, 0));
    assert!(rt; counts[0] > 0 && counts[1] > 0 && counts[2] > 0 && counts[3] > 0 && counts[7] > 0);
    Ok(())
}

// The text of the fault that ends a replay in a heap of 100,000 bytes, of which a chunk of lines takes
// 65,536.
fn fault_in_a_heap(alloc: Global, trace: &str) -> Result<String<Global>, NoMemory> {
    let heap = LocalHeap::new(alloc, 100_000)?;
    let mut reader = Counted::new(trace.as_bytes());
    let mut writer = TrackedSink::unbuffered(alloc, Vec::new(alloc));
    match replay(&heap, &mut reader, &mut writer, Show::Outcomes) {
        Ok(()) => Ok(String::new(alloc)),
        Err(fault) => Ok(format!(in alloc; "{fault}")?),
    }
}

// A trace's own lists are the bytes of its files, which are made before the machine. Where they don't
// fit, memory is wanting for the trace, and where the machine alone doesn't, for the machine: at the
// first line of an event, and at the end of a text that has none.
#[test]
fn whose_memory_is_wanting(rt: HostRuntime) -> Result<(), Fail> {
    for (trace, text) in [
        ("vm 1 1 1\nfile 0 r 200000 7\nc0 go\n", "out of memory"),
        ("vm 1 65536 1\nfile 0 r 100 7\nc0 go\n", "setup S6"),
        ("vm 1 65536 1\nfile 0 r 200000 7\nc0 go\n", "out of memory"),
        ("vm 1 65536 1\nc0 go\n", "setup S6"),
        ("vm 1 1 1\nfile 0 r 200000 7\n", "out of memory"),
        ("vm 1 65536 1\nfile 0 r 100 7\n", "setup S6"),
    ] {
        let told = fault_in_a_heap(rt.alloc(), trace)?;
        assert_eq!(rt; told.as_str(), text);
    }
    Ok(())
}
