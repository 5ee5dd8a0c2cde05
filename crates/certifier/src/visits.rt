//! Which slots are looked at before a step and at the end: the looks of all slots, in order of their
//! pages.
ghost use Rattle.std.specs.Prelude.{◌≡◌, ℕ, ◌+◌, ◌<◌, ◌≤◌, true, IfOk, IfSome, IfNone, Option, length, get_or};
ghost use Rattle.vm_base.specs.declared.info.PageInfo.{PageInfo};
ghost use Rattle.vm_base.specs.Functions.{has};
ghost use Rattle.live_levels.specs.declared.close.SlotHistory.{SlotHistory};
ghost use Rattle.machine_model.specs.Holding.{some_has};
ghost use Rattle.core_steps.specs.Changing.{may_change};
ghost use Rattle.core_steps.specs.Machine.{state};
ghost use Rattle.certifier.specs.declared.looks.Look.{Look};
ghost use Rattle.certifier.specs.Histories.{AllGoAlong, AreInOrder, IsFirstAstray, IsFirstPageOf, IsPageOf};
ghost use Rattle.certifier.specs.Looks.{AreLooked, IsCaughtUp, IsFirstMarked, NoneMarked};

use crate::looks::{Look, are_dated, look_at};
use core_steps::Machine;
use live_levels::close::SlotHistory;
use machine_log::Ledger;
use machine_model::Event;
use slot_lock::SlotMap;
use std::alloc::Allocator;
use vm_base::page::PAGE_LIMIT;
use vm_base::{NoMemory, PageRange};

/// The looks with which a run begins. Slots whose tickets don't rise or aren't all below `n` are
/// marked at once.
pub fn first_looks<A: Allocator>(
    alloc: A,
    slots: &[SlotHistory<A>],
    n: u64,
) -> Result<Vec<Look, A>, NoMemory>
    ensures { IfOk result (λ looks. (maps : ℕ → ℕ → Option PageInfo) (now : ℕ → Option PageInfo)
        → AreLooked n maps now 0 slots.now looks.items) }
{
    let mut looks = Vec::new(alloc);
    if looks.reserve(slots.len()).is_err() {
        return Err(NoMemory);
    }
    'slots: for at in 0..slots.len() {
        looks.push(Look {
            applied: 0,
            content: None,
            seen: 0,
            is_bad: !are_dated(slots[at].changes.as_slice(), n),
        })?;
    }
    Ok(looks)
}

/// The place of the first slot that ends after the page, or how many slots there are.
fn first_after<A: Allocator>(slots: &[SlotHistory<A>], page: u64) -> usize
    requires { AreInOrder slots.now }
    ensures within { result ≤ length slots.now }
    ensures before { (k : ℕ) (d : SlotHistory A) → k < result
        → (get_or slots.now k d).first + (get_or slots.now k d).count ≤ page }
{
    let mut low = 0usize;
    let mut high = slots.len();
    'halves: while low < high {
        let middle = low + (high - low) / 2;
        let slot = &slots[middle];
        if slot.first <= page && slot.count <= page - slot.first {
            low = middle + 1;
        } else {
            high = middle;
        }
    }
    low
}

/// Looks at the slots that have pages of the range, before the event with ticket `t`.
fn look_in<M: SlotMap, A: Allocator + Clone, L: Ledger>(
    machine: &Machine<M, A, L>,
    slots: &[SlotHistory<A>],
    looks: &mut Vec<Look, A>,
    range: PageRange,
    t: u64,
)
    requires order { AreInOrder slots.now }
    requires count { length looks.old.items ≡ length slots.now }
    ensures looked { (n : ℕ) (maps : ℕ → ℕ → Option PageInfo) → t ≤ n
        → AreLooked n maps (state machine.now).slots.info t slots.now looks.old.items
        → AreLooked n maps (state machine.now).slots.info t slots.now looks.new.items }
    ensures count { length looks.new.items ≡ length slots.now }
    ensures caught { (k : ℕ) (d : SlotHistory A) (l : Look) (page : ℕ) → k < length slots.now
        → has range page ≡ true → IsPageOf (get_or slots.now k d) page
        → IsCaughtUp t (get_or looks.new.items k l) }
{
    let from = first_after(slots, range.first);
    'slots: for at in from..slots.len() {
        if range.end <= slots[at].first {
            return;
        }
        look_at(machine, &slots[at], &mut looks[at], t);
    }
}

/// Looks at the slots of which the event may change a page, before it comes.
pub fn look_before<M: SlotMap, A: Allocator + Clone, L: Ledger>(
    machine: &Machine<M, A, L>,
    slots: &[SlotHistory<A>],
    looks: &mut Vec<Look, A>,
    event: Event,
    t: u64,
)
    requires order { AreInOrder slots.now }
    requires count { length looks.old.items ≡ length slots.now }
    ensures looked { (n : ℕ) (maps : ℕ → ℕ → Option PageInfo) → t ≤ n
        → AreLooked n maps (state machine.now).slots.info t slots.now looks.old.items
        → AreLooked n maps (state machine.now).slots.info t slots.now looks.new.items }
    ensures count { length looks.new.items ≡ length slots.now }
    ensures caught { (k : ℕ) (d : SlotHistory A) (l : Look) (page : ℕ) → k < length slots.now
        → some_has (may_change (state machine.now) event) page ≡ true
        → IsPageOf (get_or slots.now k d) page → IsCaughtUp t (get_or looks.new.items k l) }
{
    if slots.is_empty() {
        return;
    }
    if let Some(range) = machine.may_change(event) {
        look_in(machine, slots, looks, range, t);
    }
}

/// The slot's first valid page.
fn first_page<A: Allocator>(slot: &SlotHistory<A>) -> Option<u64>
    ensures some { IfSome result (IsFirstPageOf slot.now) }
    ensures none { IfNone result ((page : ℕ) → ¬ IsPageOf slot.now page) }
{
    let first = slot.first.max(1);
    if first < PAGE_LIMIT && first - slot.first < slot.count {
        Some(first)
    } else {
        None
    }
}

/// The first valid page of the first slot that is marked and has one.
fn first_marked<A: Allocator>(slots: &[SlotHistory<A>], looks: &[Look]) -> Option<u64>
    requires { length looks.now ≡ length slots.now }
    ensures some { IfSome result (IsFirstMarked slots.now looks.now) }
    ensures none { IfNone result (NoneMarked (length slots.now) slots.now looks.now) }
{
    'slots: for at in 0..slots.len() {
        if looks[at].is_bad {
            if let Some(page) = first_page(&slots[at]) {
                return Some(page);
            }
        }
    }
    None
}

/// The first valid page of the first slot that strays from the run, which has ended after `n` events.
pub fn first_astray<M: SlotMap, A: Allocator + Clone, L: Ledger>(
    machine: &Machine<M, A, L>,
    slots: &[SlotHistory<A>],
    looks: &mut Vec<Look, A>,
    n: u64,
) -> Option<u64>
    requires order { AreInOrder slots.now }
    requires count { length looks.old.items ≡ length slots.now }
    ensures some { IfSome result (λ page. (maps : ℕ → ℕ → Option PageInfo)
        → AreLooked n maps (state machine.now).slots.info n slots.now looks.old.items
        → IsFirstAstray n maps slots.now page) }
    ensures none { IfNone result ((maps : ℕ → ℕ → Option PageInfo)
        → AreLooked n maps (state machine.now).slots.info n slots.now looks.old.items
        → AllGoAlong n maps slots.now) }
{
    let all = PageRange {
        first: 0,
        end: PAGE_LIMIT,
    };
    look_in(machine, slots, looks, all, n);
    first_marked(slots, looks.as_slice())
}
