//! What threads share in a space, each part alone: the tree of slots, of which each thread locks,
//! reads and unlocks a page, in nodes of its own; the word from which tickets are drawn; and a mutex,
//! beside mutexes that nobody shares.
ghost use Rattle.std.specs.Prelude.{◌≡◌, ◌+◌, ◌<◌, ◌≤◌, ◌^◌, [], All};

use crate::threads::{Worker, since, slowest};
use crossbeam_utils::CachePadded;
use live_levels::level::Stepper;
use live_tree::held::{Held, HoldStep};
use live_tree::tree::SharedTree;
use seats::{Ticketer, Tickets, ticketers};
use std::alloc::Global;
use std::marker::Model;
use std::rt::Clock;
use std::sync::{Mutex, Wait};
use std::thread::Threads;
use std::time::Instant;
use vm_base::CoreId;

/// The right to draw tickets from one word, and how many were drawn.
#[derive(Drop)]
struct Drawer<'a> {
    tickets: &'a Tickets<Global>,
    ticketer: Ticketer,
    drawn: u64,
}

impl<'a> Model for Drawer<'a> {
    ghost use Rattle.std.specs.Prelude.{◌≡◌, ℕ, ◌≤◌, length};

    ghost Value = { ℕ };

    ghost view = { λ d. d.drawn };

    ghost invariant = { λ d. (d.ticketer.word ≡ d.tickets.now)
        × (length d.ticketer.tickets ≤ d.drawn) };
}

impl<'a> Drawer<'a> {
    fn new(tickets: &'a Tickets<Global>, ticketer: Ticketer) -> Drawer<'a>
        requires { (ticketer.word ≡ tickets.now) × (ticketer.tickets ≡ []) }
    {
        Drawer {
            tickets,
            ticketer,
            drawn: 0,
        }
    }

    /// The next ticket, or 0 once as many were drawn as one ticketer may draw.
    fn draw(&mut self) -> u64 {
        if self.drawn >= 1 << 32 {
            return 0;
        }
        self.drawn += 1;
        self.tickets.draw(&mut self.ticketer)
    }
}

impl<'a> Worker for Drawer<'a> {
    fn time<R: Wait + Clock>(&mut self, rt: &R, rounds: u64) -> Option<u128> {
        let start = Instant::now(rt).ok()?;
        'draws: for _ in 0..rounds {
            self.draw();
        }
        since(rt, start)
    }
}

/// A drawer for each ticketer of the word.
fn drawers_of<'a>(
    alloc: Global,
    tickets: &'a Tickets<Global>,
    all: Vec<Ticketer, Global>,
) -> Option<Vec<Drawer<'a>, Global>>
    requires { All (λ t. (t.word ≡ tickets.now) × (t.tickets ≡ [])) all.items }
{
    let mut drawers = Vec::new(alloc);
    'ticketers: for ticketer in all {
        drawers.push(Drawer::new(tickets, ticketer)).ok()?;
    }
    Some(drawers)
}

/// The nanoseconds of the slowest of so many threads, each of which draws so many tickets from one word.
pub fn time_draws<R: Threads + Wait + Clock + Sync>(
    rt: &R,
    alloc: Global,
    threads: u8,
    count: u64,
) -> Option<u128>
    requires { (1 ≤ threads) × (threads ≤ 16) }
{
    let (tickets, first) = Tickets::new(alloc).ok()?;
    let all = ticketers(alloc, &tickets, first, threads).ok()?;
    let drawers = drawers_of(alloc, &tickets, all)?;
    slowest(rt, alloc, drawers, count)
}

/// Notes steps: each draws a ticket, or is only counted.
#[derive(Drop)]
struct Counter<'a> {
    steps: u64,
    drawer: Option<Drawer<'a>>,
}

impl<'a> Stepper for Counter<'a> {
    ghost can_step = { λ _. Unit {0} };

    ghost stepped = { λ _ _ _. Unit {0} };

    fn step(&mut self) -> u64 {
        match &mut self.drawer {
            Some(drawer) => drawer.draw(),
            None => {
                self.steps = self.steps.wrapping_add(1);
                self.steps
            }
        }
    }
}

/// A page of the tree, in nodes of its own below the first level, and at the border of none, with the
/// core that locks it.
#[derive(Drop)]
struct Leaf<'a> {
    tree: &'a SharedTree<Global>,
    counter: Counter<'a>,
    core: CoreId,
    page: u64,
}

/// Locks one page, where it is a slot of its own, reads it and unlocks it; tells whether it did.
fn lock_and_read<R: Wait>(
    rt: &R,
    tree: &SharedTree<Global>,
    counter: &mut Counter<'_>,
    core: CoreId,
    page: u64,
) -> bool
    requires { page < 2 ^ 35 }
{
    let mut held = Held::new(tree.alloc(), page);
    let got = held.lock_next(rt, tree, counter, core, page + 1, 0);
    let is_unmapped = held.page(page).is_none();
    held.letting().unlock_all(counter);
    got == HoldStep::Locked && is_unmapped
}

/// How many of so many rounds locked the page.
fn lock_often<R: Wait>(
    rt: &R,
    tree: &SharedTree<Global>,
    counter: &mut Counter<'_>,
    core: CoreId,
    page: u64,
    rounds: u64,
) -> u64
    requires { page < 2 ^ 35 }
{
    let mut locked = 0u64;
    'rounds: for _ in 0..rounds {
        if lock_and_read(rt, tree, counter, core, page) {
            locked = locked.wrapping_add(1);
        }
    }
    locked
}

impl<'a> Worker for Leaf<'a> {
    fn time<R: Wait + Clock>(&mut self, rt: &R, rounds: u64) -> Option<u128> {
        let (core, page) = (self.core, self.page);
        if page >= 0x8_0000_0000 {
            return None;
        }
        // Until the page is a slot of its own.
        lock_often(rt, self.tree, &mut self.counter, core, page, 4);
        let start = Instant::now(rt).ok()?;
        if lock_often(rt, self.tree, &mut self.counter, core, page, rounds) != rounds {
            return None;
        }
        since(rt, start)
    }
}

/// A leaf for each drawer, with which it draws its tickets, or else counts its steps for itself.
fn leaves_of<'a>(
    alloc: Global,
    tree: &'a SharedTree<Global>,
    drawers: Vec<Drawer<'a>, Global>,
    with_tickets: bool,
) -> Option<Vec<Leaf<'a>, Global>> {
    let mut leaves = Vec::new(alloc);
    let mut number = 0u8;
    'drawers: for drawer in drawers {
        let place = number % 16;
        let counter = Counter {
            steps: 0,
            drawer: if with_tickets { Some(drawer) } else { None },
        };
        let leaf = Leaf {
            tree,
            counter,
            core: CoreId::new(place),
            page: (u64::from(place) + 1) * 0x800_0000 + 0x14_1011,
        };
        leaves.push(leaf).ok()?;
        number = number.wrapping_add(1);
    }
    Some(leaves)
}

/// The nanoseconds of the slowest of so many threads, each of which locks, reads and unlocks a page of
/// one tree so many times; none where memory is refused or a round locked nothing.
pub fn time_tree<R: Threads + Wait + Clock + Sync>(
    rt: &R,
    alloc: Global,
    threads: u8,
    with_tickets: bool,
    rounds: u64,
) -> Option<u128>
    requires { (1 ≤ threads) × (threads ≤ 16) }
{
    let (tree, _first) = SharedTree::new(alloc).ok()?;
    // In cache lines of its own, since all threads read it.
    let tree = Box::new(alloc, CachePadded::new(tree)).ok()?;
    let (tickets, first) = Tickets::new(alloc).ok()?;
    let all = ticketers(alloc, &tickets, first, threads).ok()?;
    let drawers = drawers_of(alloc, &tickets, all)?;
    let leaves = leaves_of(alloc, &tree, drawers, with_tickets)?;
    slowest(rt, alloc, leaves, rounds)
}

/// Locks, reads and unlocks a mutex: this one, or else one of its own.
#[derive(Drop)]
struct Locking<'a> {
    mutex: Option<&'a Mutex<u64>>,
}

/// The sum of what was read in so many rounds on the mutex.
fn read_often<R: Wait>(rt: &R, mutex: &Mutex<u64>, rounds: u64) -> u64 {
    let mut sum = 0u64;
    'rounds: for _ in 0..rounds {
        sum = sum.wrapping_add(*mutex.lock(rt));
    }
    sum
}

impl<'a> Worker for Locking<'a> {
    fn time<R: Wait + Clock>(&mut self, rt: &R, rounds: u64) -> Option<u128> {
        let own = Mutex::new(1);
        let start = Instant::now(rt).ok()?;
        let sum = match self.mutex {
            Some(mutex) => read_often(rt, mutex, rounds),
            None => read_often(rt, &own, rounds),
        };
        if sum != rounds {
            return None;
        }
        since(rt, start)
    }
}

/// So many who lock this mutex, or each one of its own.
fn lockers_of<'a>(
    alloc: Global,
    mutex: &'a Mutex<u64>,
    count: u8,
    is_shared: bool,
) -> Option<Vec<Locking<'a>, Global>> {
    let mut lockers = Vec::new(alloc);
    'lockers: for _ in 0..count {
        let mutex = if is_shared { Some(mutex) } else { None };
        lockers.push(Locking { mutex }).ok()?;
    }
    Some(lockers)
}

/// The nanoseconds of the slowest of so many threads, each of which locks one mutex so many times, or
/// one of its own; none where memory is refused.
pub fn time_mutexes<R: Threads + Wait + Clock + Sync>(
    rt: &R,
    alloc: Global,
    threads: u8,
    is_shared: bool,
    rounds: u64,
) -> Option<u128> {
    let mutex = Box::new(alloc, CachePadded::new(Mutex::new(1))).ok()?;
    let lockers = lockers_of(alloc, &mutex, threads, is_shared)?;
    slowest(rt, alloc, lockers, rounds)
}
