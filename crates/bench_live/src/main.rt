//! Times of threads and of the parts that they share, for bench/threads.sh.
//!
//! It shows nanoseconds a round, those of the slowest thread. `bench_live KIND THREADS ROUNDS` times a part (`tree`,
//! `tickets`, `draws`, `mutex`, `own`), or the script on standard input, which makes so many rounds (`shared`,
//! `apart`, `machine`). `bench_live notes` runs that script by threads, and shows nanoseconds a note that it takes to
//! run the noted events, to certify the notes, and to certify them beside the histories of the slots
//! (bench/certify.sh). `bench_live rewrite` writes the notes on standard input in order of their tickets
//! (bench/notes.sh). With no word each of them has little to do.
//!
//! - `scripts`, `parts`, `rewriting`: what is timed; `threads`: workers, each on a thread of its own.
#![tactic(auto)]

ghost use Rattle.std.specs.Prelude.{◌≤◌};

mod parts;
mod rewriting;
mod scripts;
mod threads;

use crate::parts::{time_draws, time_mutexes, time_tree};
use crate::scripts::{time_apart, time_machine, time_notes, time_shared};
use std::alloc::Global;
use std::rt::Clock;
use std::sync::Wait;
use std::thread::Threads;
use std::{env, io};
use trace_io::source::Counted;
use trace_words::{Script, read_script};

/// The kinds of parts.
const PARTS: [&str; 5] = ["tree", "tickets", "draws", "mutex", "own"];

/// The nanoseconds of the slowest of so many threads: `tree`, each locks, reads and unlocks a page of its own
/// in the tree of slots, and counts its two steps for itself; `tickets`, each step draws a ticket from one
/// word; `draws`, each draws a ticket from one word; `mutex`, all lock one mutex; `own`, each one of its own,
/// so that they share nothing. None where memory is refused, or there is no such part.
fn time_part<R: Threads + Wait + Clock + Sync>(
    rt: &R,
    alloc: Global,
    part: &str,
    threads: u8,
    rounds: u64,
) -> Option<u128>
    requires { (1 ≤ threads) × (threads ≤ 16) }
{
    match part {
        "tree" => time_tree(rt, alloc, threads, false, rounds),
        "tickets" => time_tree(rt, alloc, threads, true, rounds),
        "draws" => time_draws(rt, alloc, threads, rounds),
        "mutex" => time_mutexes(rt, alloc, threads, true, rounds),
        "own" => time_mutexes(rt, alloc, threads, false, rounds),
        _ => None,
    }
}

/// How a script is run.
const WAYS: [&str; 3] = ["shared", "apart", "machine"];

/// The nanoseconds of the script: `shared`, each core on a thread, all in one space; `apart`, so many threads
/// that do all of it, each in a space of its own, and so with a word of its own; `machine`, no thread, but
/// the machine by itself, which does the tasks of core 0. None where a call wasn't served, or there is no such
/// way.
fn time_script<R: Threads + Wait + Clock + Sync>(
    rt: &R,
    alloc: Global,
    way: &str,
    threads: u8,
    script: &Script<Global>,
) -> Option<u128> {
    match way {
        "shared" => time_shared(rt, alloc, script),
        "apart" => time_apart(rt, alloc, threads, script),
        "machine" => time_machine(rt, alloc, script),
        _ => None,
    }
}

fn script_of<R: io::Read + Drop>(alloc: Global, input: R) -> Option<Script<Global>> {
    let mut reader = Counted::new(input);
    read_script(alloc, &mut reader).ok()
}

/// Shows how long one round took, in nanoseconds with one decimal, or that there was no memory or no such
/// kind.
fn show(rt: &impl Print, nanos: Option<u128>, rounds: u64) -> io::Result<()> {
    let Some(nanos) = nanos else {
        return println!(rt; "no memory");
    };
    if rounds == 0 {
        return println!(rt; "no rounds");
    }
    let tenths = nanos.wrapping_mul(10) / u128::from(rounds);
    let whole = tenths / 10;
    let part = tenths % 10;
    println!(rt; "{whole}.{part}")
}

/// Shows that something was done, or that there was no memory.
fn tell(rt: &impl Print, is_done: bool) -> io::Result<()> {
    if is_done {
        return println!(rt; "ok");
    }
    println!(rt; "no memory")
}

/// A script with little to do.
const SCRIPT: &str = "\
vm 2 8 100
c0! mmap 0x8011000 8192 rw- pfa
c0! store 0x8011000 7
c0! load 0x8011000
c0! munmap 0x8011000 8192
c1! mmap 0x10011000 4096 rw- pfa
c1! load 0x10011000
";

/// Notes in another order.
const NOTES: &str = "\
vm 1 1 1
2 c0 go = segv maperr
0 c0 call load 0x0 = step
1 c0 go = step
";

/// Each kind, by two threads with little to do.
fn try_each<R: Print + Threads + Wait + Clock + Sync>(rt: &R, alloc: Global) -> io::Result<()> {
    'parts: for i in 0..PARTS.len() {
        tell(rt, time_part(rt, alloc, PARTS[i], 2, 2).is_some())?;
    }
    let Some(script) = script_of(alloc, SCRIPT.as_bytes()) else {
        return tell(rt, false);
    };
    'ways: for i in 0..WAYS.len() {
        tell(rt, time_script(rt, alloc, WAYS[i], 2, &script).is_some())?;
    }
    tell(rt, time_notes(rt, alloc, &script).is_some())?;
    tell(
        rt,
        rewriting::rewrite(alloc, NOTES.as_bytes(), Vec::new(alloc)),
    )
}

/// Shows the times of a script's notes.
fn show_notes(rt: &impl Print, times: Option<(u64, u128, u128, u128)>) -> io::Result<()> {
    let Some((count, run, certify, histories)) = times else {
        return println!(rt; "no memory");
    };
    show(rt, Some(run), count)?;
    show(rt, Some(certify), count)?;
    show(rt, Some(histories), count)
}

/// Does what the kind says with standard input and output.
fn do_kind<R: Print + Threads + Wait + Clock + Sync, I: io::Read + Drop, O: io::Write + Drop>(
    rt: &R,
    alloc: Global,
    kind: &str,
    threads: u8,
    rounds: u64,
    input: I,
    output: O,
) -> io::Result<()>
    requires { (1 ≤ threads) × (threads ≤ 16) }
{
    match kind {
        "rewrite" => {
            if rewriting::rewrite(alloc, input, output) {
                return Ok(());
            }
            println!(rt; "no notes")
        }
        "shared" | "apart" | "machine" | "notes" => {
            let Some(script) = script_of(alloc, input) else {
                return println!(rt; "no script");
            };
            if kind == "notes" {
                return show_notes(rt, time_notes(rt, alloc, &script));
            }
            show(rt, time_script(rt, alloc, kind, threads, &script), rounds)
        }
        _ => show(rt, time_part(rt, alloc, kind, threads, rounds), rounds),
    }
}

/// The number that a word says, or 1.
fn number_at(words: &[String], at: usize) -> u64 {
    match words.get(at) {
        Some(word) => word.as_str().parse().unwrap_or(1),
        None => 1,
    }
}

fn main(rt: HostRuntime) -> io::Result<()> {
    let alloc = rt.alloc();
    let words: Vec<String> = env::args(&rt)?.collect(alloc)?;
    let Some(kind) = words.get(1) else {
        return try_each(&rt, alloc);
    };
    let threads = number_at(words.as_slice(), 2);
    if threads < 1 || 16 < threads {
        return println!(&rt; "THREADS is 1 to 16");
    }
    let rounds = number_at(words.as_slice(), 3);
    let (input, output) = (rt.stdin(), rt.stdout());
    do_kind(
        &rt,
        alloc,
        kind.as_str(),
        threads as u8,
        rounds,
        input,
        output,
    )
}
