//! What the pages of a machine have that were used, read from the machine behind each step.
ghost use Rattle.std.specs.Prelude.{◌≡◌, ℕ, ◌+◌, ◌<◌, ◌^◌, None, Some, true};
ghost use Rattle.vm_base.specs.Functions.{across, has, put};
ghost use Rattle.core_steps.specs.Machine.{state};
ghost use Rattle.machine_model.specs.Holding.{some_has};
ghost use Rattle.state_seen.specs.Lists.{at_page};
ghost use Rattle.state_seen.specs.Used.{used_in, used_of};

use crate::PageList;
use core_steps::Machine;
use machine_log::Ledger;
use slot_lock::SlotMap;
use std::alloc::Allocator;
use vm_base::info::is_leaf;
use vm_base::page::is_valid;
use vm_base::{CoreSet, PageInfo, PageRange};

/// What a used page has.
#[derive(Clone, Copy)]
pub struct Used {
    /// Its frame, if it has one.
    pub frame: Option<u32>,
    /// The cores that are recorded on it.
    pub cores: CoreSet,
}

// What a mapped page has, if it was used.
fn used_if(page: &PageInfo) -> Option<Used>
    ensures { result ≡ used_of (Some page.now) }
{
    let used = is_leaf(Some(*page));
    if used {
        Some(Used {
            frame: page.frame,
            cores: page.cores,
        })
    } else {
        None
    }
}

// What a page has, if it was used.
fn used_of(info: &Option<PageInfo>) -> Option<Used>
    ensures { result ≡ used_of info.now }
{
    match info {
        None => None,
        Some(page) => used_if(page),
    }
}

// What the machine's page has, if it was used.
fn used_at<M: SlotMap, A: Allocator + Clone, L: Ledger>(
    machine: &Machine<M, A, L>,
    page: u64,
) -> Option<Used>
    ensures { result ≡ used_in (state machine.now) page }
{
    let _kept = machine.kept_log();
    if !is_valid(page) {
        return None;
    }
    let info = machine.page(page);
    used_of(&info)
}

// A page above this one, where no page between them was used.
fn next_of<M: SlotMap, A: Allocator + Clone, L: Ledger>(
    machine: &Machine<M, A, L>,
    page: u64,
) -> u64
    requires { page + 1 < 2 ^ 64 }
    ensures above { page < result }
    ensures between { (q : ℕ) → page < q → q < result → used_in (state machine.now) q ≡ None }
{
    if !is_valid(page) {
        return page + 1;
    }
    machine.slot(page).end
}

// The pages of the range, which have nothing in the list, get what the machine's have; false where there was no room.
fn gather<M: SlotMap, A: Allocator + Clone, L: Ledger, B: Allocator>(
    machine: &Machine<M, A, L>,
    list: &mut PageList<Used, B>,
    range: PageRange,
) -> bool
    requires { (q : ℕ) → has range q ≡ true → at_page list.old q ≡ None }
    ensures { result ≡ true → (q : ℕ) → at_page list.new q
        ≡ across (at_page list.old) (has range) (used_in (state machine.now)) q }
{
    let mut page = range.first;
    'pages: while page < range.end {
        if !list.set(page, used_at(machine, page)) {
            return false;
        }
        page = next_of(machine, page);
    }
    true
}

// The page gets what the machine's has; false where there was no room.
fn renew<M: SlotMap, A: Allocator + Clone, L: Ledger, B: Allocator>(
    machine: &Machine<M, A, L>,
    list: &mut PageList<Used, B>,
    page: u64,
) -> bool
    ensures { result ≡ true → (q : ℕ) → at_page list.new q ≡ put (at_page list.old) page (used_in (state machine.now) page) q }
{
    list.set(page, used_at(machine, page))
}

// Whether the range has just one page.
fn is_one(range: PageRange) -> bool
    ensures { result ≡ true → range.end ≡ range.first + 1 }
{
    range.end > 0 && range.end - 1 == range.first
}

// The list has of the range what the machine has now, and of all other pages what it had; false where there was no room. One page is
// found in the list by halves, and no other entry is looked at.
fn refresh<M: SlotMap, A: Allocator + Clone, L: Ledger, B: Allocator>(
    machine: &Machine<M, A, L>,
    list: &mut PageList<Used, B>,
    range: PageRange,
) -> bool
    ensures { result ≡ true → (q : ℕ) → at_page list.new q
        ≡ across (at_page list.old) (has range) (used_in (state machine.now)) q }
{
    if is_one(range) {
        return renew(machine, list, range.first);
    }
    list.clear(range);
    gather(machine, list, range)
}

/// The list has of these pages what the machine has now, and of all others what it had; false where there was no room.
pub fn follow<M: SlotMap, A: Allocator + Clone, L: Ledger, B: Allocator>(
    machine: &Machine<M, A, L>,
    list: &mut PageList<Used, B>,
    range: Option<PageRange>,
) -> bool
    ensures { result ≡ true → (q : ℕ) → at_page list.new q
        ≡ across (at_page list.old) (some_has range) (used_in (state machine.now)) q }
{
    match range {
        None => true,
        Some(range) => refresh(machine, list, range),
    }
}
