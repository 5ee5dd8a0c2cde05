//! Words in heaps that are too small, and their first sizes that suffice.
use crate::streams::{
    AMPLE, Dripping, Filling, Ran, dripping_of, ran_of, run_words, sink_of, text_of,
};
use command_line::output::Noted;
use linked_list_allocator::LocalHeap;
use live_script::InTurn;
use machine_model::CallLimit;
use std::alloc::Global;
use std::io::Write;
use std::sync::Wait;
use std::test::Fail;
use std::thread::Threads;
use trace_io::sink::TrackedSink;
use trace_io::source::Counted;
use trace_words::show::Show;
use word_parts::asked::Shows;
use word_parts::ended::Trouble;
use word_runs::certifying::certify;
use word_runs::job::{run, run_echoing};
use word_runs::live::{certify_live, live};

// Words, and below each what it reads, with `; ` between its lines, and what goes out.
const TEXTS: &str = "\
run
vm 1 1; c0! load 0
segv maperr; log 2 call 1 segv maperr

echo
vm 1 1; c0! load 0
vm 1 1; c0! load 0 = segv maperr

certify
vm 1 1 4096; 0 c0 call load 0x0 = step; 1 c0 go = step; 2 c0 go = segv maperr
certified 1

live
vm 1 1; c0! load 0
vm 1 1 4096; 0 c0 call load 0x0 = step; 1 c0 go = step; 2 c0 go = segv maperr

live --certify
vm 1 1; c0! load 0
certified 1";

const LOGGED: Shows = Shows {
    show: Show::OutcomesAndLog,
    limit: CallLimit::Usual,
    sums: false,
};

// What this word does in a heap, and its status.
fn do_in<T: Threads + Wait + Sync>(
    rt: &T,
    heap: &LocalHeap,
    word: &str,
    reader: &mut Counted<Dripping<'_>>,
    out: &mut TrackedSink<Noted<Filling>, Global>,
    errors: &mut Vec<u8>,
) -> u8 {
    let ended = match word {
        "run" => run(heap, reader, out, errors, LOGGED),
        "echo" => run_echoing(heap, reader, out, CallLimit::Usual, false, false),
        "certify" => certify(heap, reader, out),
        "live" => live(rt, &InTurn, heap, reader, out, errors, false),
        _ => certify_live(rt, &InTurn, heap, reader, out, errors, false),
    };
    if let Trouble::Fault(fault) = ended.trouble {
        let _ = writeln!(errors, "radixvm: {fault}");
    }
    ended.status
}

// What this word comes to in a heap of this size.
fn ran_in<T: Threads + Wait + Sync>(
    (alloc, rt): (Global, &T),
    word: &str,
    input: &[u8],
    size: usize,
) -> Option<Ran> {
    let Ok(heap) = LocalHeap::new(alloc, size) else {
        return None;
    };
    let mut reader = Counted::new(dripping_of(input, AMPLE));
    let mut out = sink_of(alloc, AMPLE);
    let mut errors = Vec::new(alloc);
    let status = do_in(rt, &heap, word, &mut reader, &mut out, &mut errors);
    Some(ran_of(out, errors, status))
}

// Whether it is told that memory was wanting: for the text, for the space, or to begin a task.
fn tells_of_memory(errors: &[u8]) -> bool {
    for text in [
        "radixvm: out of memory\n",
        "radixvm: setup S6\n",
        "radixvm: live V3\n",
    ] {
        if errors == text.as_bytes() {
            return true;
        }
    }
    false
}

// Whether all of this goes out. Where it doesn't, it has to be told that memory was wanting, and a front of it has gone out.
fn suffices(ran: &Ran, all: &[u8]) -> Option<bool> {
    if ran.status == 0 && ran.out.as_slice() == all && ran.errors.is_empty() {
        return Some(true);
    }
    if ran.status == 3 && all.starts_with(&ran.out) && tells_of_memory(&ran.errors) {
        return Some(false);
    }
    None
}

// How many of the heaps of 4 KiB, 8 KiB and so on are too small, where this goes out in all larger ones.
fn too_small<T: Threads + Wait + Sync>(
    (alloc, rt): (Global, &T),
    word: &str,
    input: &[u8],
    all: &[u8],
) -> Option<usize> {
    let mut count = 0;
    for pages in 1..=256 {
        let ran = ran_in((alloc, rt), word, input, pages * 4096)?;
        if !suffices(&ran, all)? {
            count = pages;
        }
    }
    Some(count)
}

// The same of a row; 0 where a heap comes to something else.
fn too_small_for<T: Threads + Wait + Sync>((alloc, rt): (Global, &T), row: &str) -> usize {
    let (word, texts) = row.split_once('\n').unwrap_or((row, ""));
    let (input, all) = texts.split_once('\n').unwrap_or((texts, ""));
    let (Some(input), Some(all)) = (text_of(alloc, input), text_of(alloc, all)) else {
        return 0;
    };
    too_small((alloc, rt), word, &input, &all).unwrap_or(0)
}

// A chunk of lines alone takes 64 KiB, and the whole less than a MiB.
#[test]
fn small_heaps(rt: HostRuntime) {
    for row in TEXTS.split("\n\n") {
        let count = too_small_for((rt.alloc(), &rt), row);
        assert!(rt; count >= 16 && count < 256);
    }
}

// Whether words in this heap end with this fault and status.
fn ends_in(ran: &Ran, fault: &str, status: u8) -> bool {
    ran.errors.starts_with(fault.as_bytes()) && ran.out.is_empty() && ran.status == status
}

// No word at all, and one for which there is no memory.
#[test]
fn words_unread(rt: HostRuntime) -> Result<(), Fail> {
    let none = run_words((rt.alloc(), &rt), &rt.alloc(), "", b"", AMPLE);
    assert!(rt; ends_in(&none, "radixvm: ", 2));
    let heap = LocalHeap::new(rt.alloc(), 64)?;
    let word =
        "radixvm run rrrrrrrrrrrrrrrrrrrrrrrrrrrrrrrrrrrrrrrrrrrrrrrrrrrrrrrrrrrrrrrrrrrrrrrrrrrrrrrrrrrrrrrrrrrrrrrrrrrr";
    let refused = run_words((rt.alloc(), &rt), &heap, word, b"", AMPLE);
    assert!(rt; ends_in(&refused, "radixvm: out of memory\n", 3));
    Ok(())
}
