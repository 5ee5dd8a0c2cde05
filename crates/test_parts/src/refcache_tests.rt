//! `refcache`: worked examples of the rules, row by row.
use crate::trial::Trial;
use refcache::{Flush, Review};
use std::alloc::{AllocError, Allocator, Global};
use test_support::words::numbers_of;

/// Of two cores and one object: it is queued anew; it is freed later; it was counted up since, and is dropped from the queue.
const TWO: &str = "\
begin 0 1 = done
inc 0 0 = done
dec 1 0 = done
flush 1 = evicted 0
flush 1 = flushed
inc 1 0 = done
dec 0 0 = done
flush 0 = evicted 0
flush 0 = ended
flush 0 = flushed
inc 0 0 = done
dec 1 0 = done
flush 1 = evicted 0
flush 1 = ended
review 1 = requeued 0
true 0 = is 1
global 0 = is 0
epoch = is 2

begin 0 1 = done
inc 0 0 = done
dec 1 0 = done
flush 1 = evicted 0
dec 0 0 = done
flush 0 = evicted 0
flush 0 = flushed
flush 1 = ended
flush 0 = flushed
flush 1 = ended
review 1 = requeued 0
review 1 = idle
flush 0 = flushed
flush 1 = ended
flush 0 = flushed
flush 1 = ended
review 1 = freed 0
epoch = is 4

begin 0 1 = done
inc 0 0 = done
dec 1 0 = done
flush 1 = evicted 0
flush 1 = flushed
flush 1 = idle
flush 0 = evicted 0
flush 0 = ended
flush 0 = flushed
flush 1 = ended
review 1 = dropped 0
review 1 = idle
global 0 = is 1";

/// Of one core: an object is evicted from its place by another; one lives and is freed.
const ONE: &str = "\
begin 0 1 = done
begin 64 1 = done
inc 0 0 = done
inc 0 64 = done
global 0 = is 2
global 64 = is 1
flush 0 = evicted 64
global 64 = is 2
flush 0 = ended
epoch = is 1

begin 0 1 = done
dec 0 0 = done
flush 0 = evicted 0
flush 0 = ended
review 0 = idle
flush 0 = ended
review 0 = freed 0";

/// The largest numbers: of objects, of cores and of a count.
const LARGEST: &str = "\
begin 65535 0x10000000000 = done
inc 0 65535 = not
dec 63 65535 = done
inc 0 65535 = done
flush 63 = evicted 65535
global 65535 = is 0xffffffffff";

/// What a row comes to: a word, and a number behind it or 0.
type Told = (&'static str, u64);

fn told_of(is_done: bool) -> Told {
    (if is_done { "done" } else { "not" }, 0)
}

fn told_of_flush(flush: Option<Flush>) -> Told {
    match flush {
        None => ("not", 0),
        Some(Flush::Flushed) => ("flushed", 0),
        Some(Flush::EpochEnded) => ("ended", 0),
        Some(Flush::Idle) => ("idle", 0),
        Some(Flush::Evicted(object)) => ("evicted", u64::from(object)),
    }
}

fn told_of_review(review: Option<Review>) -> Told {
    match review {
        None => ("not", 0),
        Some(Review::Idle) => ("idle", 0),
        Some(Review::Requeued(object)) => ("requeued", u64::from(object)),
        Some(Review::Dropped(object)) => ("dropped", u64::from(object)),
        Some(Review::Freed(object)) => ("freed", u64::from(object)),
    }
}

fn object_of(number: u64) -> u32 {
    u32::try_from(number).unwrap_or(u32::MAX)
}

/// A count that isn't negative.
fn unsigned(count: Option<i64>) -> u64 {
    match count {
        Some(count) if count >= 0 => count as u64,
        _ => u64::MAX,
    }
}

/// What a row comes to, by its word and its first two numbers: an object and its count, or a core and an object.
fn told<A: Allocator>(trial: &mut Trial<A>, word: &str, first: u64, second: u64) -> Told {
    let core = u8::try_from(first).unwrap_or(u8::MAX);
    let (whole, object) = (object_of(first), object_of(second));
    match word {
        "begin" => told_of(trial.begin(whole, second)),
        "inc" => told_of(trial.inc(core, object)),
        "dec" => told_of(trial.dec(core, object)),
        "flush" => told_of_flush(trial.flush(core)),
        "review" => told_of_review(trial.review(core)),
        "true" => ("is", trial.true_count(whole).unwrap_or(0)),
        "global" => ("is", unsigned(trial.global(whole))),
        _ => ("is", trial.epoch()),
    }
}

/// The first row that comes to something else than it says.
fn first_wrong<'a, A: Allocator>(trial: &mut Trial<A>, rows: &'a str) -> Option<&'a str> {
    for row in rows.lines() {
        let (call, due) = row.split_once(" = ").unwrap_or((row, ""));
        let (word, words) = call.split_once(' ').unwrap_or((call, ""));
        let (answer, number) = due.split_once(' ').unwrap_or((due, ""));
        let [first, second, ..] = numbers_of(words);
        if told(trial, word, first, second) != (answer, numbers_of(number)[0]) {
            return Some(row);
        }
    }
    None
}

fn wrong_of<'a>(
    alloc: Global,
    cores: u8,
    objects: u32,
    rows: &'a str,
) -> Result<Option<&'a str>, AllocError> {
    if cores == 0 || cores > 64 || objects > 65_536 {
        return Err(AllocError);
    }
    let mut trial = Trial::new(alloc, cores, objects)?;
    Ok(first_wrong(&mut trial, rows))
}

#[test]
fn worked_examples(rt: HostRuntime) {
    for (cores, objects, tables) in [(2, 1, TWO), (1, 65, ONE), (64, 65_536, LARGEST)] {
        for rows in tables.split("\n\n") {
            assert_eq!(rt; wrong_of(rt.alloc(), cores, objects, rows), Ok(None));
        }
    }
}
