//! Workers, each on a thread of its own.
use std::alloc::Global;
use std::rt::Clock;
use std::sync::Wait;
use std::thread::{self, Threads};
use std::time::Instant;

/// Who does something so many times.
pub trait Worker: Drop {
    /// The nanoseconds of so many rounds; none where one didn't do what it should.
    fn time<R: Wait + Clock>(&mut self, rt: &R, rounds: u64) -> Option<u128>;
}

/// The nanoseconds since then.
pub fn since(rt: &impl Clock, start: Instant) -> Option<u128> {
    let took = start.elapsed(rt).ok()?;
    Some(took.as_nanos())
}

/// A worker, and how long its rounds took.
#[derive(Drop)]
struct Timed<W> {
    worker: W,
    nanos: Option<u128>,
}

/// The nanoseconds of the slowest; none where one has no time.
fn slowest_of<W>(all: &[Timed<W>]) -> Option<u128> {
    let mut most = 0;
    for timed in all {
        most = timed.nanos?.max(most);
    }
    Some(most)
}

/// The nanoseconds of the slowest of these workers for so many rounds of each, side by side.
pub fn slowest<R: Threads + Wait + Clock + Sync, W: Worker + Send>(
    rt: &R,
    alloc: Global,
    workers: Vec<W, Global>,
    rounds: u64,
) -> Option<u128> {
    let count = workers.len();
    if count == 0 {
        return None;
    }
    let mut all = Vec::new(alloc);
    'workers: for worker in workers {
        let timed = Timed {
            worker,
            nanos: None,
        };
        all.push(timed).ok()?;
    }
    let run = |_at: usize, timed: &mut Timed<W>| {
        timed.nanos = timed.worker.time(rt, rounds);
    };
    thread::for_each_mut(rt, all.as_mut_slice(), count, &run);
    slowest_of(all.as_slice())
}
