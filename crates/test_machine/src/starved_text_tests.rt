//! Scripts and notes that are read, certified and written where memory is refused: all of a heap is taken, and given back bit by
//! bit until it goes through. Each refusal is told as want of memory, and then nothing was written.
use crate::note_texts::{script_read, text_of, verdict_in};
use crate::noting::notes_of_lines;
use crate::starved::AMPLE;
use linked_list_allocator::LocalHeap;
use machine_model::{Event, Outcome};
use seats::{Noted, Notes};
use std::alloc::{Allocator, Global};
use std::test::Fail;
use test_support::heaps::{HeapBlock, fill};
use trace_words::Script;
use vm_base::{CoreId, NoMemory, Reply, Request, SegvCode};

/// What is told of a refusal, with nothing before it.
const REFUSED: &str = "fault out of memory\n";

/// All of the heap but so many of the least pieces.
fn all_but<'h>(
    alloc: Global,
    heap: &'h LocalHeap,
    given: usize,
) -> Result<Vec<HeapBlock<'h>>, NoMemory> {
    let mut taken = Vec::new(alloc);
    fill(heap, &mut taken)?;
    for _piece in 0..given {
        taken.pop();
    }
    Ok(taken)
}

/// What certifying the text comes to, where so many pieces of the heap are free.
fn verdict_with(
    alloc: Global,
    heap: &LocalHeap,
    text: &str,
    given: usize,
) -> Result<String<Global>, NoMemory> {
    let _taken = all_but(alloc, heap, given)?;
    verdict_in(alloc, heap, text)
}

/// Whether the text comes to this verdict after more refusals of memory than these.
fn comes_to(alloc: Global, text: &str, due: &str, least: usize) -> Result<bool, NoMemory> {
    let heap = LocalHeap::new(alloc, AMPLE)?;
    for given in 0..AMPLE {
        let told = verdict_with(alloc, &heap, text, given)?;
        if told.as_str() != REFUSED {
            return Ok(given > least && told.as_str() == due);
        }
    }
    Err(NoMemory)
}

/// A load of a page that isn't mapped.
const LONE_LOAD: &str = "\
vm 1 1 1
0 c0 call load 0x0 = step
1 c0 go = step
2 c0 go = segv maperr
";

/// A page that is mapped, stored to, loaded and unmapped: nodes, tables and a frame.
const CALLS: &str = "\
vm 1 4 8
c0! mmap 0x10000 4096 rw- pfa
c0! store 0x10000 7
c0! load 0x10000
c0! munmap 0x10000 4096
";

/// The text of the notes of these calls.
fn calls_noted(alloc: Global) -> Result<String<Global>, NoMemory> {
    let notes = notes_of_lines(alloc, CALLS)?;
    let notes = notes.as_slice();
    match script_read(alloc, "vm 1 4 8") {
        Ok(script) => text_of(alloc, &script, &[Notes::of(notes)]),
        Err(_) => Err(NoMemory),
    }
}

#[test]
fn notes_are_certified_once_there_is_memory(rt: HostRuntime) -> Result<(), Fail> {
    let calls = calls_noted(rt.alloc())?;
    assert!(rt; comes_to(rt.alloc(), LONE_LOAD, "certified 1\n", 10)?);
    assert!(rt; comes_to(rt.alloc(), &calls, "certified 4\n", 20)?);
    let missing = "vm 1 1 1\n1 c0 go = idle\n";
    assert!(rt; comes_to(rt.alloc(), missing, "refused C1 0\n", 0)?);
    Ok(())
}

/// Each task of the first cores, a line for each.
fn push_tasks<A: Allocator + Clone + Drop>(
    alloc: Global,
    script: &Script<A>,
    out: &mut String<Global>,
) -> Result<(), NoMemory> {
    for core in 0..3usize {
        for task in script.tasks(core) {
            out.push_str(&format!(in alloc; "{core} {task:?}\n")?)?;
        }
    }
    Ok(())
}

/// What reading the script comes to, where so many pieces of the heap are free.
fn tasks_in(
    alloc: Global,
    heap: &LocalHeap,
    text: &str,
    given: usize,
) -> Result<String<Global>, NoMemory> {
    let _taken = all_but(alloc, heap, given)?;
    let mut out = String::new(alloc);
    match script_read(heap, text) {
        Ok(script) => push_tasks(alloc, &script, &mut out)?,
        Err(fault) => out.push_str(&format!(in alloc; "fault {fault}\n")?)?,
    }
    Ok(out)
}

/// How often memory was refused before the script was read, and what that came to.
fn tasks_at_last(alloc: Global, text: &str) -> Result<(usize, String<Global>), NoMemory> {
    let heap = LocalHeap::new(alloc, AMPLE)?;
    for given in 0..AMPLE {
        let told = tasks_in(alloc, &heap, text, given)?;
        if told.as_str() != REFUSED {
            return Ok((given, told));
        }
    }
    Err(NoMemory)
}

const SCRIPT: &str = "\
vm 2 4
file 0 rw 3 250

c1! munmap 0x10000 4096
# of the other core
c0 flush
c1 review
c0! load 0x10
";

const TASKS: &str = "\
0 Flush
0 Call(Load { addr: 16 })
1 Call(Munmap { addr: 65536, len: 4096 })
1 Review
";

#[test]
fn a_script_is_read_once_there_is_memory(rt: HostRuntime) -> Result<(), Fail> {
    let (refusals, told) = tasks_at_last(rt.alloc(), SCRIPT)?;
    assert_eq!(rt; told.as_str(), TASKS);
    assert!(rt; refusals > 2);
    Ok(())
}

/// The notes of a load of a page that isn't mapped, the last one first.
fn lone_load() -> [Noted; 3] {
    let core = CoreId::new(0);
    [
        Noted {
            ticket: 2,
            event: Event::Go(core),
            outcome: Outcome::Answered(Reply::Segv(SegvCode::MapErr)),
        },
        Noted {
            ticket: 1,
            event: Event::Go(core),
            outcome: Outcome::Stepped,
        },
        Noted {
            ticket: 0,
            event: Event::Call(core, Request::Load { addr: 0 }),
            outcome: Outcome::Stepped,
        },
    ]
}

/// What writing the notes comes to, where so many pieces of the script's heap are free.
fn text_in<'h>(
    alloc: Global,
    heap: &'h LocalHeap,
    script: &Script<&'h LocalHeap>,
    given: usize,
) -> Result<String<Global>, NoMemory> {
    let _taken = all_but(alloc, heap, given)?;
    let notes = lone_load();
    let notes = &notes[..];
    text_of(alloc, script, &[Notes::of(notes)])
}

/// How often memory was refused before the notes were written, and what that came to.
fn text_at_last(alloc: Global) -> Result<(usize, String<Global>), NoMemory> {
    let heap = LocalHeap::new(alloc, AMPLE)?;
    let Ok(script) = script_read(&heap, "vm 1 1 1\n") else {
        return Err(NoMemory);
    };
    for given in 0..AMPLE {
        let told = text_in(alloc, &heap, &script, given)?;
        if told.as_str() != REFUSED {
            return Ok((given, told));
        }
    }
    Err(NoMemory)
}

#[test]
fn notes_are_written_once_there_is_memory(rt: HostRuntime) -> Result<(), Fail> {
    let (refusals, told) = text_at_last(rt.alloc())?;
    assert_eq!(rt; told.as_str(), LONE_LOAD);
    assert!(rt; refusals > 0);
    Ok(())
}
