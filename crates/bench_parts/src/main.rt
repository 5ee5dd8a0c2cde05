//! Times of parts: hardware, frames, references and slot maps, for bench/pieces.sh.
//!
//! `bench_parts PART` shows nanoseconds a round; with no word each part has little to do. bench/pieces.sh says what
//! the parts are, and compares them with plain Rust.
//!
//! - `hardware`, `memory`, `slots`: what is timed; `timing`: rounds, and how long they take.
#![tactic(auto)]

ghost use Rattle.std.specs.Prelude.{◌<◌};

mod hardware;
mod memory;
mod slots;
mod timing;

use crate::hardware::{Apart, EightSets, OneSet, hits, misses, time_clears};
use crate::memory::{Deed, frames_with, objects};
use crate::slots::{PAGES, SPAN, ToPages, tree};
use crate::timing::{Places, time};
use std::alloc::Global;
use std::rt::Clock;
use std::{env, io};

/// The words of the parts.
const PARTS: [&str; 20] = [
    "slots", "look", "tree", "scan", "edit", "room", "gaps", "hit", "oldest", "newest", "shared",
    "one_set", "miss", "thousand", "clear", "byte", "fill", "copy", "count", "flush",
];

/// How many rounds the part is timed for.
fn rounds_of(part: &str) -> u64
    ensures { 0 < result }
{
    match part {
        "gaps" => 1_000,
        "edit" => 2_000,
        "scan" => 5_000,
        "clear" => 20_000,
        "room" | "fill" | "copy" => 1_000_000,
        "look" => 10_000_000,
        "byte" | "count" | "shared" => 20_000_000,
        "hit" | "oldest" | "newest" => 50_000_000,
        _ => 5_000_000,
    }
}

/// The nanoseconds of so many rounds of the part; none where memory is refused, or there is no such part.
fn time_part(rt: &impl Clock, alloc: Global, part: &str, rounds: u64) -> Option<u128> {
    let all: Places = (0, 30_011, PAGES);
    let ranges: Places = (0, 30_011, PAGES - SPAN / 2);
    let anywhere: Places = (0, 37, 64);
    let frames: Places = (0, 389, 1024);
    match part {
        "slots" => time(rt, slots::list(alloc), all, rounds),
        "look" => time(rt, tree(alloc, PAGES, ToPages::LookUp), all, rounds),
        "tree" => time(rt, tree(alloc, PAGES, ToPages::Change), all, rounds),
        "scan" => time(rt, tree(alloc, PAGES, ToPages::Scan), ranges, rounds),
        "edit" => time(rt, slots::held_range(alloc), (0, 0, 1), rounds),
        "room" => time(rt, slots::mapped_once(alloc), (0, 1, 15), rounds),
        "gaps" => {
            let map = tree(alloc, 2 * PAGES, ToPages::FindAfterGaps);
            time(rt, map, (0, 1, 15), rounds)
        }
        "hit" => time(rt, hits(alloc, Apart), anywhere, rounds),
        "oldest" => time(rt, hits(alloc, Apart), (0, 0, 64), rounds),
        "newest" => time(rt, hits(alloc, Apart), (63, 0, 64), rounds),
        "shared" => time(rt, hits(alloc, EightSets), anywhere, rounds),
        "one_set" => time(rt, hits(alloc, OneSet), anywhere, rounds),
        "miss" => time(rt, misses(alloc, 65), (0, 1, 65), rounds),
        "thousand" => time(rt, misses(alloc, 1000), (0, 1, 1000), rounds),
        "clear" => time_clears(rt, alloc, rounds),
        "byte" => time(rt, frames_with(alloc, Deed::SetByte), frames, rounds),
        "fill" => time(rt, frames_with(alloc, Deed::Fill), frames, rounds),
        "copy" => time(rt, frames_with(alloc, Deed::Copy), frames, rounds),
        "count" => time(rt, objects(alloc, false), anywhere, rounds),
        "flush" => time(rt, objects(alloc, true), anywhere, rounds),
        _ => None,
    }
}

/// Shows how long one round took, in nanoseconds with one decimal, or that there was no memory or
/// no such part.
fn show(rt: &impl Print, nanos: Option<u128>, rounds: u64) -> io::Result<()>
    requires { 0 < rounds }
{
    match nanos {
        None => println!(rt; "no memory"),
        Some(nanos) => {
            let tenths = nanos.wrapping_mul(10) / u128::from(rounds);
            let whole = tenths / 10;
            let part = tenths % 10;
            println!(rt; "{whole}.{part}")
        }
    }
}

/// Shows that a part ran, or that there was no memory.
fn tell(rt: &impl Print, nanos: Option<u128>) -> io::Result<()> {
    match nanos {
        None => println!(rt; "no memory"),
        Some(_) => println!(rt; "ok"),
    }
}

/// Each part with little to do.
fn try_each<R: Print + Clock>(rt: &R, alloc: Global) -> io::Result<()> {
    'parts: for i in 0..PARTS.len() {
        tell(rt, time_part(rt, alloc, PARTS[i], 2))?;
    }
    Ok(())
}

fn main(rt: HostRuntime) -> io::Result<()> {
    let alloc = rt.alloc();
    let words: Vec<String> = env::args(&rt)?.collect(alloc)?;
    match words.get(1) {
        None => try_each(&rt, alloc),
        Some(word) => {
            let rounds = rounds_of(word.as_str());
            let nanos = time_part(&rt, alloc, word.as_str(), rounds);
            show(&rt, nanos, rounds)
        }
    }
}
