//! Looks at slots while a run is followed: whether each slot's history goes along with it.
//!
//! A slot is looked at before a step that may change one of its pages, and at the end. Between two
//! looks its pages have the same all the while, so that one look settles all tickets since the last.
ghost use Rattle.std.specs.Prelude.{◌≡◌, ◌≢◌, ◌↔◌, ℕ, ◌+◌, ◌-◌, ◌⊎◌, ◌<◌, ◌≤◌, true, false, IsTrue, Option};
ghost use Rattle.std.specs.Prelude.{[], length};
ghost use Rattle.vm_base.specs.declared.info.PageInfo.{PageInfo};
ghost use Rattle.vm_base.specs.Info.{advance_back, info_from};
ghost use Rattle.core_steps.specs.Machine.{state};
ghost use Rattle.certifier.specs.Histories.{AreDated, HasContent, IsPageOf, ticket_at};
ghost use Rattle.certifier.specs.Looks.{AreApplied, IsCaughtUp, IsLooked, IsSeen};

use core_steps::Machine;
use live_levels::act::{SlotChange, after};
use live_levels::close::SlotHistory;
use machine_log::Ledger;
use slot_lock::SlotMap;
use std::alloc::Allocator;
use vm_base::page::PAGE_LIMIT;
use vm_base::{Back, PageInfo};

/// How far a slot was looked at.
#[derive(Clone, Copy)]
pub struct Look {
    /// How many of its changes were applied.
    pub applied: usize,
    /// What its first page has by them.
    pub content: Option<PageInfo>,
    /// The tickets below this are settled.
    pub seen: u64,
    /// It didn't go along with the run, or its tickets are amiss. It isn't looked at any more.
    pub is_bad: bool,
}

/// Tells whether the tickets rise and are below `n`.
pub fn are_dated(changes: &[SlotChange], n: u64) -> bool
    ensures { IsTrue result ↔ AreDated n changes.now }
{
    'changes: for at in 0..changes.len() {
        if n <= changes[at].ticket {
            return false;
        }
        if 0 < at && changes[at].ticket <= changes[at - 1].ticket {
            return false;
        }
    }
    true
}

fn is_backed_from(back: &Back, first: &Back, by: u64) -> bool
    ensures { IsTrue result ↔ (back.now ≡ advance_back first.now by) }
{
    match (back, first) {
        (Back::Anon, Back::Anon) => true,
        (
            Back::Shared { file, page },
            Back::Shared {
                file: of,
                page: from,
            },
        ) => { file == of && by <= *page && *page - by == *from }
        (
            Back::Private { file, page },
            Back::Private {
                file: of,
                page: from,
            },
        ) => { file == of && by <= *page && *page - by == *from }
        _ => false,
    }
}

/// Tells whether the page has what goes on from the content of the page `by` pages before it.
fn is_from(info: &Option<PageInfo>, content: &Option<PageInfo>, by: u64) -> bool
    ensures { IsTrue result ↔ (info.now ≡ info_from content.now by) }
{
    match (info, content) {
        (None, None) => true,
        (Some(info), Some(content)) => {
            info.frame == content.frame
                && info.cores == content.cores
                && info.meta.prot == content.meta.prot
                && is_backed_from(&info.meta.back, &content.meta.back, by)
        }
        _ => false,
    }
}

/// Tells whether some valid page of the slot has something else than goes on from the content. One
/// page of each slot of the machine is read.
pub fn differs<M: SlotMap, A: Allocator + Clone, L: Ledger>(
    machine: &Machine<M, A, L>,
    slot: &SlotHistory<A>,
    content: &Option<PageInfo>,
) -> bool
    ensures yes { result ≡ true → (page : ℕ) × IsPageOf slot.now page
        × ((state machine.now).slots.info page ≢ info_from content.now (page - slot.now.first)) }
    ensures no { result ≡ false → HasContent slot.now (state machine.now).slots.info content.now }
{
    let end = slot.first.saturating_add(slot.count).min(PAGE_LIMIT);
    let mut page = slot.first.max(1);
    'slots: while page < end {
        let info = machine.page(page);
        if !is_from(&info, content, page - slot.first) {
            return true;
        }
        let there = machine.slot(page);
        page = there.end;
    }
    false
}

/// Tells whether the slot has begun, by its first change or since it has none, and some valid page of
/// it has something else than its changes come to.
fn strays<M: SlotMap, A: Allocator + Clone, L: Ledger>(
    machine: &Machine<M, A, L>,
    slot: &SlotHistory<A>,
    look: &Look,
) -> bool
    ensures yes { result ≡ true → ((0 < look.now.applied) ⊎ (slot.now.changes.items ≡ []))
        × ((page : ℕ) × IsPageOf slot.now page
        × ((state machine.now).slots.info page ≢ info_from look.now.content (page - slot.now.first))) }
    ensures no { result ≡ false → ((look.now.applied ≡ 0) × (slot.now.changes.items ≢ []))
        ⊎ HasContent slot.now (state machine.now).slots.info look.now.content }
{
    if look.applied == 0 && !slot.changes.is_empty() {
        return false;
    }
    differs(machine, slot, &look.content)
}

/// Applies the next change, if it has the first ticket that isn't settled.
fn apply_due(changes: &[SlotChange], look: &mut Look)
    ensures applied { (n : ℕ) → AreDated n changes.now → AreApplied look.old.seen changes.now look.old
        → AreApplied (look.old.seen + 1) changes.now look.new }
    ensures same { (look.new.seen ≡ look.old.seen) × (look.new.is_bad ≡ look.old.is_bad) }
{
    if look.applied < changes.len() {
        let change = &changes[look.applied];
        if change.ticket == look.seen {
            look.content = after(look.content, &change.act);
            look.applied += 1;
        }
    }
}

/// The ticket up to which the slot's changes come to the same, at most `t`.
fn next_seen(changes: &[SlotChange], look: &Look, t: u64) -> u64
    requires open { look.now.seen < t }
    ensures more { look.now.seen < result }
    ensures most { result ≤ t }
    ensures next { (n : ℕ) → AreDated n changes.now → AreApplied (look.now.seen + 1) changes.now look.now
        → (k : ℕ) → look.now.applied ≤ k → k < length changes.now → result ≤ ticket_at changes.now k }
{
    if look.applied < changes.len() {
        return changes[look.applied].ticket.min(t).max(look.seen + 1);
    }
    t
}

/// Settles the first ticket that isn't, and those after it before the next change, all below `t`. The
/// slot is marked where it strays.
fn look_once<M: SlotMap, A: Allocator + Clone, L: Ledger>(
    machine: &Machine<M, A, L>,
    slot: &SlotHistory<A>,
    look: &mut Look,
    t: u64,
)
    requires open { look.old.seen < t }
    ensures looked { (n : ℕ) (maps : ℕ → ℕ → Option PageInfo) → t ≤ n
        → IsSeen n maps (state machine.now).slots.info t look.old.seen slot.now look.old
        → look.old.is_bad ≡ false
        → IsLooked n maps (state machine.now).slots.info t slot.now look.new }
    ensures more { look.new.is_bad ≡ false → look.old.seen < look.new.seen }
{
    apply_due(slot.changes.as_slice(), look);
    if strays(machine, slot, look) {
        look.is_bad = true;
    } else {
        look.seen = next_seen(slot.changes.as_slice(), look, t);
    }
}

/// Looks at the slot before the event with ticket `t`: all tickets below are settled, or the slot is
/// marked, since it strays.
pub fn look_at<M: SlotMap, A: Allocator + Clone, L: Ledger>(
    machine: &Machine<M, A, L>,
    slot: &SlotHistory<A>,
    look: &mut Look,
    t: u64,
)
    ensures looked { (n : ℕ) (maps : ℕ → ℕ → Option PageInfo) → t ≤ n
        → IsLooked n maps (state machine.now).slots.info t slot.now look.old
        → IsLooked n maps (state machine.now).slots.info t slot.now look.new }
    ensures caught { IsCaughtUp t look.new }
{
    'tickets: while !look.is_bad && look.seen < t {
        look_once(machine, slot, look, t);
    }
}
