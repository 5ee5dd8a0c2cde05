//! Gates that see to which points calls come, and that hold a call until another core's have begun, or are answered.
use live_space::gate::{Gate, Point};
use std::rt::Clock;
use std::sync::Wait;
use std::sync::atomic::{AtomicU64, Ordering};
use std::thread;
use std::time::Duration;
use vm_base::CoreId;

/// How often a thread sleeps a millisecond before it gives up waiting.
const TURNS: u64 = 10_000;

/// A mark that one thread sets and another waits for.
#[derive(Drop)]
pub struct Mark {
    set: AtomicU64,
}

impl Mark {
    /// A mark that isn't set.
    pub fn new() -> Mark {
        Mark {
            set: AtomicU64::new(0),
        }
    }

    /// Sets the mark.
    pub fn set(&self) {
        self.set.store(1, Ordering::SeqCst);
    }

    /// Tells whether the mark is set.
    pub fn is_set(&self) -> bool {
        self.set.load(Ordering::SeqCst) != 0
    }

    /// Sleeps until the mark is set, or so many turns are over; tells whether it is set.
    pub fn await_set<C: Clock>(&self, clock: &C) -> bool {
        for _turn in 0..TURNS {
            if self.is_set() {
                return true;
            }
            thread::sleep(clock, Duration::from_millis(1));
        }
        self.is_set()
    }
}

/// Sees whether a call comes to a point, and holds none.
#[derive(Drop)]
pub struct Passing<'a> {
    pub point: Point,
    pub passed: &'a Mark,
}

impl Gate for Passing<'_> {
    fn at<R: Wait>(&self, _rt: &R, _core: CoreId, point: Point) {
        if point == self.point {
            self.passed.set();
        }
    }
}

/// What the threads of two cores that meet tell one another.
#[derive(Drop)]
pub struct Signs {
    /// The first core's call has come to the point at which it is held.
    pub reached: Mark,
    /// The other core's first line has begun.
    pub begun: Mark,
    /// All of its lines are done.
    pub answered: Mark,
    /// The held call went on without, or something wasn't done.
    pub failed: Mark,
}

impl Signs {
    /// None is set.
    pub fn new() -> Signs {
        Signs {
            reached: Mark::new(),
            begun: Mark::new(),
            answered: Mark::new(),
            failed: Mark::new(),
        }
    }

    /// Tells whether the cores met, and all was done.
    pub fn have_met(&self) -> bool {
        self.reached.is_set()
            && self.begun.is_set()
            && self.answered.is_set()
            && !self.failed.is_set()
    }
}

/// Holds the first core's call at a point.
#[derive(Drop)]
pub struct Meet<'a, C> {
    pub clock: &'a C,
    pub point: Point,
    /// The call is held until the other core's lines are done. Else, where it holds locks for which the other may wait, it goes on five
    /// milliseconds after that has begun.
    pub is_long: bool,
    pub signs: &'a Signs,
}

impl<C: Clock> Meet<'_, C> {
    // Waits until the other has come as far as it is to; tells whether it has.
    fn hold(&self) -> bool {
        if self.is_long {
            return self.signs.answered.await_set(self.clock);
        }
        let has_begun = self.signs.begun.await_set(self.clock);
        thread::sleep(self.clock, Duration::from_millis(5));
        has_begun
    }
}

impl<C: Clock> Gate for Meet<'_, C> {
    fn at<R: Wait>(&self, _rt: &R, core: CoreId, point: Point) {
        if core.index() != 0 {
            self.signs.begun.set();
        } else if point == self.point {
            self.signs.reached.set();
            if !self.hold() {
                self.signs.failed.set();
            }
        }
    }
}
