//! The tree that threads share: two threads over slots that nobody has divided yet.
ghost use Rattle.std.specs.Prelude.{◌≡◌, ◌+◌, ◌*◌, ◌<◌, ◌≤◌, ◌^◌};

use crate::tree_tests::{Counter, change, change_held, let_all_go, lock_all};
use live_levels::act::Act;
use live_tree::held::{Held, HoldStep};
use live_tree::tree::SharedTree;
use std::alloc::Global;
use std::sync::Wait;
use std::sync::atomic::{AtomicU64, Ordering};
use std::test::Fail;
use std::thread::{self, Threads};
use vm_base::{Back, CoreId, Meta, Prot};

// Rounds over one tree, each at a slot of its own.
const ROUNDS: u64 = 500;

// Trees, one after another.
const TREES: u64 = 20;

// The slots are those of 512 pages from here on.
const FIRST: u64 = 1 << 27;

// How often a thread looks whether the other has come.
const LOOKS: u64 = 1 << 24;

const MAPPED: Meta = Meta {
    back: Back::Anon,
    prot: Prot {
        read: true,
        write: true,
        exec: false,
    },
};

// Two threads that begin each round together.
#[derive(Drop)]
struct Pace {
    rounds: [AtomicU64; 2],
}

impl Pace {
    fn new() -> Pace {
        Pace {
            rounds: [AtomicU64::new(0), AtomicU64::new(0)],
        }
    }

    // One thread has come to a round: waits for the other, and tells whether it came.
    fn meet(&self, is_first: bool, round: u64) -> bool {
        let [first, second] = &self.rounds;
        let (own, other) = if is_first {
            (first, second)
        } else {
            (second, first)
        };
        own.store(round, Ordering::SeqCst);
        'looks: for _ in 0..LOOKS {
            if other.load(Ordering::SeqCst) >= round {
                return true;
            }
            thread::yield_now();
        }
        false
    }
}

// Asks for the 512 pages from the page on, and maps what it gets: all of them, or where they were
// divided the first one. Whether it did.
fn ask_for_all<R: Wait>(rt: &R, tree: &SharedTree<Global>, first: u64) -> bool
    requires { first < 2 ^ 35 }
{
    let mut counter = Counter::new();
    let mut held = Held::new(tree.alloc(), first);
    let got = held.lock_next(rt, tree, &mut counter, CoreId::new(0), first + 512, 1);
    let is_mapped = change_held(&mut held, &Act::Put(MAPPED));
    let_all_go(&mut counter, held);
    got == HoldStep::Locked && is_mapped
}

// Asks for the page alone, which divides the slot that has it. Whether it got it.
fn ask_for_one<R: Wait>(rt: &R, tree: &SharedTree<Global>, page: u64) -> bool
    requires { page < 2 ^ 35 }
{
    let mut counter = Counter::new();
    let mut held = Held::new(tree.alloc(), page);
    let locked = lock_all(
        rt,
        tree,
        &mut counter,
        CoreId::new(1),
        &mut held,
        page + 1,
        3,
    );
    let_all_go(&mut counter, held);
    locked.is_some()
}

// All rounds of one of two threads; whether it got what it asked for in each.
fn ask_often<R: Wait>(rt: &R, tree: &SharedTree<Global>, pace: &Pace, is_first: bool) -> bool {
    let mut got = true;
    'rounds: for round in 0..ROUNDS {
        let first = FIRST + round * 512;
        got &= pace.meet(is_first, round + 1);
        got &= if is_first {
            ask_for_all(rt, tree, first)
        } else {
            ask_for_one(rt, tree, first)
        };
    }
    got
}

// How many of the pages that both threads had in turn are mapped once all rounds are over.
fn mapped_by_two<R: Threads + Wait + Sync>(rt: &R, alloc: Global) -> Option<u64> {
    let (tree, _first) = SharedTree::new(alloc).ok()?;
    if !change(rt, &tree, FIRST, FIRST + 512, &Act::Clear) {
        return None;
    }
    let pace = Pace::new();
    let mut got = [false, false];
    let run = |place: usize, is_done: &mut bool| {
        *is_done = ask_often(rt, &tree, &pace, place == 0);
    };
    thread::for_each_mut(rt, &mut got, 2, &run);
    if got != [true, true] {
        return None;
    }
    let mut mapped = 0u64;
    'rounds: for round in 0..ROUNDS {
        let slot = tree.lock_at(rt, FIRST + round * 512)?;
        if slot.content().is_some() {
            mapped = mapped.saturating_add(1);
        }
    }
    Some(mapped)
}

// What the first of two threads maps is the other's as soon as it gets the page, in whichever order
// they come: no slot is handed out that another thread divided in the meantime.
#[test]
fn no_page_is_held_twice_while_its_slot_is_divided(rt: HostRuntime) -> Result<(), Fail> {
    'trees: for _ in 0..TREES {
        assert!(rt; mapped_by_two(&rt, rt.alloc()) == Some(ROUNDS));
    }
    Ok(())
}
