//! The tree that threads share: rows of acquisitions, cuts, folds and changes of it, each by a core alone; and two threads that
//! change one page.
ghost use Rattle.std.specs.Prelude.{◌≡◌, ◌+◌, ◌<◌, ◌≤◌, ◌^◌};

use live_levels::act::Act;
use live_levels::level::{Next, SlotCut, Stepper};
use live_tree::held::cut::Cutting;
use live_tree::held::{Held, HoldStep};
use live_tree::tree::SharedTree;
use std::alloc::Global;
use std::sync::Wait;
use std::test::Fail;
use std::thread::{self, Threads};
use test_support::words::numbers_of;
use vm_base::{Back, CoreId, Meta, PageRange, Prot};

// How often each of two threads changes one page.
const ROUNDS: usize = 1000;

const READ: Prot = Prot {
    read: true,
    write: false,
    exec: false,
};

// Pages of a file from its page 5 on, to read.
const FILE: Meta = Meta {
    back: Back::Private { file: 0, page: 5 },
    prot: READ,
};

// Counts the steps that are noted, in place of tickets.
#[derive(Drop)]
pub(crate) struct Counter {
    steps: u64,
}

impl Counter {
    pub(crate) fn new() -> Counter {
        Counter { steps: 0 }
    }
}

impl Stepper for Counter {
    ghost can_step = { λ _. Unit {0} };

    ghost stepped = { λ _ _ _. Unit {0} };

    fn step(&mut self) -> u64 {
        self.steps = self.steps.saturating_add(1);
        self.steps
    }
}

// The core locks until all pages up to the end are held, each slot with room for one change, in at
// most so many steps; how many slots were divided.
pub(crate) fn lock_all<'a, R: Wait>(
    rt: &R,
    tree: &'a SharedTree<Global>,
    counter: &mut Counter,
    core: CoreId,
    held: &mut Held<'a, Global>,
    end: u64,
    steps: u32,
) -> Option<u64> {
    let mut splits = 0u64;
    'steps: for _ in 0..steps {
        if held.end() >= end {
            return Some(splits);
        }
        match held.lock_next(rt, tree, counter, core, end, 1) {
            HoldStep::Locked => {}
            HoldStep::Split => splits = splits.saturating_add(1),
            HoldStep::Owned(_) | HoldStep::Unseen | HoldStep::NoMemory | HoldStep::Lost =>
                return None,
        }
    }
    None
}

// Lets all held slots go, and tells how many there were.
pub(crate) fn let_all_go(counter: &mut Counter, held: Held<'_, Global>) -> usize {
    held.letting().unlock_all(counter)
}

// Does the same to each held slot, where it can; whether it did.
pub(crate) fn change_held(held: &mut Held<'_, Global>, act: &Act) -> bool {
    let can_take = held.can_take(*act);
    if can_take {
        held.change_each(1, *act);
    }
    can_take
}

// Does the same to each slot of the pages, once they are held; whether it could.
pub(crate) fn change<R: Wait>(
    rt: &R,
    tree: &SharedTree<Global>,
    first: u64,
    end: u64,
    act: &Act,
) -> bool {
    let mut counter = Counter::new();
    let mut held = Held::new(tree.alloc(), first);
    let core = CoreId::new(0);
    let is_held = lock_all(rt, tree, &mut counter, core, &mut held, end, 600).is_some();
    let is_changed = is_held && change_held(&mut held, act);
    let_all_go(&mut counter, held);
    is_changed
}

// How many slots are divided and how many are locked until all pages up to the end are held, and how many steps are noted until
// they are let go again.
fn counted<R: Wait>(rt: &R, tree: &SharedTree<Global>, first: u64, end: u64) -> Option<[u64; 3]> {
    let mut counter = Counter::new();
    let mut held = Held::new(tree.alloc(), first);
    let core = CoreId::new(0);
    let splits = lock_all(rt, tree, &mut counter, core, &mut held, end, 2000);
    let locks = let_all_go(&mut counter, held) as u64;
    Some([splits?, locks, counter.steps])
}

// How often the core cuts held slots until none crosses an edge of the range, in at most ten steps.
fn cuts<'a, R: Wait>(
    rt: &R,
    tree: &'a SharedTree<Global>,
    core: CoreId,
    held: &mut Held<'a, Global>,
    range: PageRange,
) -> Option<u32> {
    let mut counter = Counter { steps: 0 };
    'cuts: for cuts in 0..10 {
        match held.cut_next(rt, tree, &mut counter, core, range) {
            Cutting::Cut => {}
            Cutting::Fits => return Some(cuts),
            Cutting::Unseen | Cutting::NoMemory | Cutting::Lost => return None,
        }
    }
    None
}

// The core holds the second slot of the first level and cuts it round the range: how often.
fn cut_held<'a, R: Wait>(
    rt: &R,
    tree: &'a SharedTree<Global>,
    core: CoreId,
    held: &mut Held<'a, Global>,
    range: PageRange,
) -> Option<u32> {
    let mut counter = Counter::new();
    lock_all(rt, tree, &mut counter, core, held, 1 << 28, 2)?;
    let cuts = cuts(rt, tree, core, held, range)?;
    held.reserve(range).ok()?;
    Some(cuts)
}

// How often that slot is cut round one page of it, and how many slots the core holds then.
fn cut_round<R: Wait>(
    rt: &R,
    tree: &SharedTree<Global>,
    core: CoreId,
    page: u64,
) -> Option<[u64; 3]> {
    let mut counter = Counter::new();
    let mut held = Held::new(tree.alloc(), 1 << 27);
    let first = (1 << 27) + page % (1 << 27);
    let range = PageRange {
        first,
        end: first + 1,
    };
    let cuts = cut_held(rt, tree, core, &mut held, range);
    let count = let_all_go(&mut counter, held) as u64;
    Some([u64::from(cuts?), count, 0])
}

// A core cuts a slot, and lets go of it; tells whether it did.
fn is_cut<R: Wait>(rt: &R, tree: &SharedTree<Global>, core: CoreId, first: u64, end: u64) -> bool {
    if end <= first {
        return false;
    }
    let mut counter = Counter::new();
    let mut slot = match tree.lock_next(rt, &mut counter, core, first, end) {
        Next::Whole(slot) => slot,
        Next::Owned(_guard) => return false,
        Next::Split | Next::Unseen | Next::NoMemory | Next::Lost => return false,
    };
    match tree.cut(&mut counter, core, &slot) {
        SlotCut::Cut(division) => {
            division.mark(&mut slot);
            true
        }
        SlotCut::Unseen(_) | SlotCut::NoMemory | SlotCut::Lost => false,
    }
}

// What a core is told that asks once for a slot from the page on: 1 for a slot, 2 and the core whose it is, or 0; and how many steps
// are noted until it has let go again.
fn asked<R: Wait>(
    rt: &R,
    tree: &SharedTree<Global>,
    core: CoreId,
    first: u64,
    end: u64,
) -> [u64; 3] {
    if end <= first {
        return [0; 3];
    }
    let mut counter = Counter::new();
    let mut held = Held::new(tree.alloc(), first);
    let got = held.lock_next(rt, tree, &mut counter, core, end, 0);
    let_all_go(&mut counter, held);
    match got {
        HoldStep::Locked => [1, 0, counter.steps],
        HoldStep::Owned(owner) => [2, u64::from(owner.index()), counter.steps],
        HoldStep::Split | HoldStep::Unseen | HoldStep::NoMemory | HoldStep::Lost => [
            0,
            0,
            counter.steps,
        ],
    }
}

// The slot that has the page: its first page, how many it has, and the file page of the first.
fn slot_at<R: Wait>(rt: &R, tree: &SharedTree<Global>, page: u64) -> Option<[u64; 3]> {
    let slot = tree.lock_at(rt, page)?;
    let mut found = [slot.first(), slot.count(), 0];
    if let Some(info) = slot.content() {
        if let Back::Private { page, .. } = info.meta.back {
            found[2] = page;
        }
    }
    Some(found)
}

// The pages of the slots that a fold at the page joins.
fn folded(tree: &mut SharedTree<Global>, page: u64) -> Option<[u64; 3]> {
    let mut counter = Counter::new();
    let pages = tree.fold(&mut counter, page)?.range();
    Some([pages.first, pages.end, 0])
}

// What a row comes to that begins with pages.
fn told_of_pages<R: Wait>(
    rt: &R,
    tree: &mut SharedTree<Global>,
    word: &str,
    numbers: [u64; 6],
) -> Option<[u64; 3]> {
    let [first, end, count, ..] = numbers;
    match word {
        "fold" => folded(tree, first),
        "slots" => Some([tree.histories()?.slots().len() as u64, 0, 0]),
        "at" => slot_at(rt, tree, first),
        "count" => counted(rt, tree, first, end),
        "room" => Some([tree.find_room(rt, first, end, count)?.first(), 0, 0]),
        "put" => Some([
            u64::from(change(rt, tree, first, end, &Act::Put(FILE))),
            0,
            0,
        ]),
        "touch" => Some([
            u64::from(change(rt, tree, first, end, &Act::Protect(READ))),
            0,
            0,
        ]),
        _ => Some([u64::from(change(rt, tree, first, end, &Act::Clear)), 0, 0]),
    }
}

// What a row comes to: zeros where nothing is told.
fn told<R: Wait>(rt: &R, tree: &mut SharedTree<Global>, word: &str, numbers: [u64; 6]) -> [u64; 3] {
    let [core, first, end, ..] = numbers;
    let core = CoreId::new((core % 64) as u8);
    match word {
        "ask" => asked(rt, tree, core, first, end),
        "cut" => [u64::from(is_cut(rt, tree, core, first, end)), 0, 0],
        "round" => cut_round(rt, tree, core, first).unwrap_or([0; 3]),
        _ => told_of_pages(rt, tree, word, numbers).unwrap_or([0; 3]),
    }
}

// The first row, `WORD NUMBER.. = NUMBER..`, that comes to something else than it says, on a new tree.
fn first_wrong<'a, R: Wait>(rt: &R, alloc: Global, rows: &'a str) -> Option<&'a str> {
    let Ok((mut tree, _first)) = SharedTree::new(alloc) else {
        return Some("memory");
    };
    for row in rows.lines() {
        let (call, due) = row.split_once(" = ").unwrap_or((row, ""));
        let (word, words) = call.split_once(' ').unwrap_or((call, ""));
        let [one, two, three, ..] = numbers_of(due);
        if told(rt, &mut tree, word, numbers_of(words)) != [one, two, three] {
            return Some(row);
        }
    }
    None
}

// Each on a new tree. The divisions and locks of an acquisition, and its notes; a held slot that is cut round a page; folds of what two
// acquisitions left, at either's pages; folds of pages that are mapped alike, of one that is mapped alone, of slots of which one is divided,
// and at a last page. Then a slot that core 0 cut is core 0's until it lets go, a page that core 1 cut is core 1's, nothing is past the last
// page, and room is found beside a mapped page.
const ROWS: &str = "\
count 1 0x800000000 = 3 1788 3579

count 511 513 = 4 2 8

round 1 1 = 3 1534

count 16 17 = 3 1 5
count 0x8000010 0x8000011 = 3 1 5
slots = 3578
fold 1 = 0 0x200
fold 1 = 0 0x40000
fold 1 = 0 0x8000000
fold 1 = 0
slots = 2045
at 16 = 0 0x8000000
at 0x8000010 = 0x8000010 1
fold 0x8000001 = 0x8000000 0x8000200
fold 0x8000001 = 0x8000000 0x8040000
fold 0x8000001 = 0x8000000 0x10000000
fold 0x8000001 = 0
slots = 512
at 0x8000010 = 0x8000000 0x8000000

put 0 512 = 1
touch 3 4 = 1
fold 511 = 0 512
at 0 = 0 512 5

put 16 17 = 1
touch 3 4 = 1
fold 16 = 0
fold 512 = 0
fold 0x40000 = 0
at 16 = 16 1 5

clear 0 512 = 1
fold 0x3ffff = 0 0x40000
fold 0x3ffff = 0 0x8000000

cut 0 0x8000000 0x10000000 = 1
ask 1 0x8000000 0x8040000 = 2 0 0
ask 0 0x8000000 0x8040000 = 1 0 2
ask 1 0x8000000 0x8040000 = 1 0 2
ask 1 0x8040000 0x8080000 = 2 0 0

cut 1 0x8000000 0x10000000 = 1
cut 1 0x8000000 0x8040000 = 1
cut 1 0x8000000 0x8000200 = 1
ask 0 0x8000000 0x8000001 = 2 1 0
ask 1 0x8000000 0x8000001 = 1 0 2
ask 0 0x8000000 0x8000001 = 1 0 2

ask 0 0x1000000000 0x1000000001 = 0 0 0
ask 0 0xff8000000 0x1000000000 = 1 0 2
at 0x1000000000 = 0
fold 0x1000000000 = 0
slots = 512

put 16 17 = 1
room 1 0x800000000 15 = 1
room 1 0x800000000 16 = 17
room 16 20 3 = 17
room 16 20 4 = 0
room 10 16 7 = 0";

#[test]
fn rows_of_a_tree(rt: HostRuntime) {
    for rows in ROWS.split("\n\n") {
        assert_eq!(rt; first_wrong(&rt, rt.alloc(), rows), None);
    }
}

// Many rounds in which a thread of its own locks the page 16, changes it once and lets it go;
// whether each did.
fn change_often<R: Wait>(rt: &R, tree: &SharedTree<Global>, core: CoreId) -> bool {
    let mut counter = Counter { steps: 0 };
    'rounds: for _ in 0..ROUNDS {
        let mut held = Held::new(tree.alloc(), 16);
        let got = held.lock_next(rt, tree, &mut counter, core, 17, 1);
        let is_changed = change_held(&mut held, &Act::Clear);
        let_all_go(&mut counter, held);
        if got != HoldStep::Locked || !is_changed {
            return false;
        }
    }
    true
}

// How many changes the page 16 has once two threads changed it side by side, each in so many rounds.
fn changes_of_two<R: Threads + Wait + Sync>(rt: &R, alloc: Global) -> Option<usize> {
    let (mut tree, _first) = SharedTree::new(alloc).ok()?;
    counted(rt, &tree, 16, 17)?;
    let mut done = [false, false];
    let run = |place: usize, is_done: &mut bool| {
        let core = CoreId::new(if place == 0 { 0 } else { 1 });
        *is_done = change_often(rt, &tree, core);
    };
    thread::for_each_mut(rt, &mut done, 2, &run);
    if done != [true, true] {
        return None;
    }
    let histories = tree.histories()?;
    let slot = histories.slots().get(16)?;
    Some(slot.changes.len())
}

#[test]
fn a_page_that_two_threads_change_has_the_changes_of_both(rt: HostRuntime) -> Result<(), Fail> {
    assert!(rt; changes_of_two(&rt, rt.alloc()) == Some(1 + 2 * ROUNDS));
    Ok(())
}
