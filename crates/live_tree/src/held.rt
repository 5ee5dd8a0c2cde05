//! The slots that a call holds: how it takes them, and the commit of its change. What else is
//! done with them stands in held/.
//!
//! Held slots lie side by side by their type, so a commit over a slot that isn't held can't be asked for.
ghost use Rattle.std.specs.Prelude.{◌≡◌, ℕ, ◌+◌, ◌-◌, ◌<◌, ◌≤◌, ◌^◌, true, [], ◌∷◌, ◌++◌, length, map};
ghost use Rattle.std.specs.Prelude.{All, OnOk, OnErr, IsSome, None};
ghost use Rattle.std.specs.Sync.Mutex.{mutex_guard_value};
ghost use Rattle.slot_lock.specs.Plan.{range_of};
ghost use Rattle.live_levels.specs.Slots.{SlotView, Suits};
ghost use Rattle.live_tree.specs.Guards.{slot_of};
ghost use Rattle.live_tree.specs.Held.{HeldView, with_slot, committed, Covers, CrossesNoEdge, HasRoom};
ghost use Rattle.live_tree.specs.Held.{FitsFiles, act_on, is_inside};
ghost use Rattle.live_tree.specs.Letting.{letting_view};
ghost use Rattle.live_tree.specs.Shown.{ChangesPages};
ghost use Rattle.live_tree.specs.Steps.{Acquires};

pub mod cut;
pub mod lend;
pub mod losses;
pub mod page;
pub mod reserve;

use crate::letting::Letting;
use crate::tree::SharedTree;
use live_levels::act::Act;
use live_levels::ask::other_owner;
use live_levels::level::{Next, Stepper};
use live_levels::slot::SlotState;
use slot_lock::Change;
use smallvec::SmallVec;
use std::alloc::Allocator;
use std::marker::Model;
use std::sync::{MutexGuard, Wait};
use vm_base::{CoreId, NoMemory};

// The guards of locked slots. Each is there but while it is changed.
pub(crate) type Guards<'a, A> = SmallVec<Option<MutexGuard<'a, SlotState<A>>>, 4, &'a A>;

/// The result of a step towards holding pages.
#[derive(Clone, Copy, PartialEq, Eq)]
pub enum HoldStep {
    /// One slot more is held, which was noted.
    Locked,
    /// A slot was divided, which was noted.
    Split,
    /// Another core is to lock the slot first.
    Owned(CoreId),
    /// A division was noted, but the slot's place had a level before. It never comes; the call gives up.
    Unseen,
    /// No memory was there.
    NoMemory,
    /// A slot was in a wrong place, and nothing was noted. It never comes; the call gives up.
    Lost,
}

/// The locked slots of a call, from left to right and side by side. A clause sees their pages and
/// the slots. It may not be dropped: it ends by `finish`, which asks that no slot is held, or by
/// `letting`, which lets the slots go.
pub struct Held<'a, A: Allocator> {
    first: u64,
    end: u64,
    guards: Guards<'a, A>,
}

impl<'a, A: Allocator> Model for Held<'a, A> {
    ghost use Rattle.std.specs.Prelude.{map, All, IsSome};
    ghost use Rattle.live_tree.specs.Held.{HeldView, SideBySide};
    ghost use Rattle.live_tree.specs.Guards.{slot_of};

    ghost Value = { HeldView };

    ghost view = { λ h. record { first = h.first; end = h.end; slots = map slot_of h.guards.items } };

    ghost invariant = { λ h. All IsSome h.guards.items
        × SideBySide h.first h.end (map slot_of h.guards.items) };
}

impl<'a, A: Allocator + Clone> Held<'a, A> {
    /// No slot yet. The first is to begin at the page.
    pub fn new(alloc: &'a A, first: u64) -> Held<'a, A>
        ensures { result ≡ record { first = first; end = first; slots = [] } }
    {
        Held {
            first,
            end: first,
            guards: SmallVec::new(alloc),
        }
    }

    /// The first held page, or the one at which the first slot is to begin.
    pub fn first(&self) -> u64
        ensures { result ≡ self.now.first }
    {
        self.first
    }

    /// The page after the last held one, at which the next slot is to begin.
    pub fn end(&self) -> u64
        ensures { result ≡ self.now.end }
    {
        self.end
    }

    /// How many slots are held.
    pub fn len(&self) -> usize
        ensures { result ≡ length self.now.slots }
    {
        self.guards.len()
    }

    /// One locked slot more, which begins where the others end. Where memory is refused, it is
    /// unlocked, and the others stay held.
    pub fn push(&mut self, guard: MutexGuard<'a, SlotState<A>>) -> Result<(), NoMemory>
        requires next { (mutex_guard_value guard).first ≡ self.old.end }
        ensures ok { OnOk result (self.new ≡ with_slot self.old (mutex_guard_value guard.entry)) }
        ensures err { OnErr result (self.new ≡ self.old) }
    {
        let end = guard.first() + guard.count();
        match self.guards.push(Some(guard)) {
            Ok(()) => {
                self.end = end;
                Ok(())
            }
            Err(_) => Err(NoMemory),
        }
    }

    /// One step of the core towards holding the pages up to the end: the deepest slot that has the
    /// next page is locked, where it begins there and ends by the end, with room for this many
    /// changes; else it is divided into 512. Either is noted while the slot is locked. It waits
    /// while another thread has the slot locked. Want of memory leaves the held slots as they are,
    /// and lets go of the slot that was to be one of them.
    pub fn lock_next<R: Wait, S: Stepper>(
        &mut self,
        rt: &R,
        tree: &'a SharedTree<A>,
        stepper: &mut S,
        core: CoreId,
        end: u64,
        room: usize,
    ) -> HoldStep
        requires range { self.old.end < end }
        requires stepper { S.can_step stepper.old }
        ensures { Acquires S.stepped stepper.old stepper.new self.old self.new core end room result }
    {
        let mut guard = match tree.lock_next(rt, stepper, core, self.end, end) {
            Next::Whole(guard) => guard,
            Next::Split => return HoldStep::Split,
            Next::Unseen => return HoldStep::Unseen,
            Next::Owned(guard) => {
                return match other_owner(&guard, core) {
                    Some(other) => HoldStep::Owned(other),
                    None => HoldStep::Lost,
                };
            }
            Next::NoMemory => return HoldStep::NoMemory,
            Next::Lost => return HoldStep::Lost,
        };
        if guard.reserve(room).is_err() {
            return HoldStep::NoMemory;
        }
        if self.push(guard).is_err() {
            return HoldStep::NoMemory;
        }
        stepper.step();
        HoldStep::Locked
    }

    /// Ends, where no slot is held.
    pub fn finish(self)
        requires none { self.slots ≡ [] }
    {
        let Held {
            first: _,
            end: _,
            guards: _none,
        } = self;
    }

    /// All held slots have to be let go.
    pub fn letting(self) -> Letting<'a, A>
        ensures { result ≡ letting_view self.entry.slots None }
    {
        let Held {
            first: _,
            end: _,
            guards,
        } = self;
        Letting::of(guards)
    }

    /// Makes the change in the held slots that lie in its range, each under one change more of its
    /// history, and in no other. It takes no memory.
    pub fn commit(&mut self, ticket: u64, change: Change)
        requires covers { Covers self.old (range_of change) }
        requires edges { All (CrossesNoEdge (range_of change)) self.old.slots }
        requires room { All (HasRoom (range_of change)) self.old.slots }
        requires files { FitsFiles change }
        ensures slots { self.new
            ≡ record self.old { slots = map (committed ticket change) self.old.slots } }
        ensures pages { ChangesPages change self.old self.new }
    {
        commit_all(&mut self.guards, ticket, change);
    }
}

// The commit at all guards.
fn commit_all<'a, A: Allocator>(guards: &mut Guards<'a, A>, ticket: u64, change: Change)
    requires some { All IsSome guards.old.items }
    requires room { All (HasRoom (range_of change)) (map slot_of guards.old.items) }
    requires files { FitsFiles change }
    ensures some { All IsSome guards.new.items }
    ensures slots { map slot_of guards.new.items ≡ map (committed ticket change)
        (map slot_of guards.old.items) }
{
    'guards: for guard in guards.as_mut_slice().iter_mut() {
        commit_at(guard, ticket, change);
    }
}

// The commit at one guard, which is there.
fn commit_at<A: Allocator>(
    guard: &mut Option<MutexGuard<'_, SlotState<A>>>,
    ticket: u64,
    change: Change,
)
    requires some { IsSome guard.old }
    requires room { HasRoom (range_of change) (slot_of guard.old) }
    requires files { FitsFiles change }
    ensures some { IsSome guard.new }
    ensures slot { slot_of guard.new ≡ committed ticket change (slot_of guard.old) }
{
    if let Some(slot) = guard {
        commit_slot(slot, ticket, change);
    }
}

// The commit at one slot: a change where the slot lies in the range.
fn commit_slot<A: Allocator>(slot: &mut SlotState<A>, ticket: u64, change: Change)
    requires room { HasRoom (range_of change) slot.old }
    requires files { FitsFiles change }
    ensures { slot.new ≡ committed ticket change slot.old }
{
    let range = change.range();
    let first = slot.first();
    if range.first <= first && first + slot.count() <= range.end {
        let act = act_on(change, slot);
        slot.change(ticket, act);
    }
}

// What the change does to a slot of its range.
fn act_on<A: Allocator>(change: Change, slot: &SlotState<A>) -> Act
    requires files { FitsFiles change }
    requires from { (range_of change).first ≤ slot.now.first }
    requires end { slot.now.first + slot.now.count ≤ (range_of change).end }
    ensures act { result ≡ act_on change slot.now }
    ensures suits { Suits result slot.now.count }
{
    let _count = slot.count();
    match change {
        Change::Put { range, meta } => Act::Put(meta.advanced(slot.first() - range.first)),
        Change::Clear { .. } => Act::Clear,
        Change::Protect { prot, .. } => Act::Protect(prot),
    }
}
