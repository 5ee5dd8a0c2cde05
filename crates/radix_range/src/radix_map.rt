//! The second slot map: a radix tree.
ghost use Rattle.std.specs.Prelude.{◌≡◌, ◌≢◌, ℕ, ◌+◌, ◌-◌, ◌^◌, ◌<◌, ◌≤◌, IfOk, OnErr, Option, Some};
ghost use Rattle.std.specs.Prelude.{Bool};
ghost use Rattle.slot_lock.specs.Plan.{IsSoundChange, range_of};
ghost use Rattle.slot_lock.specs.Slots.{IsCut};
ghost use Rattle.slot_lock.specs.Changes.{changed};
ghost use Rattle.radix_range.specs.Tight.{IsKnown};
ghost use Rattle.radix_range.specs.Tree.{IsRadix, tree_slots};

use crate::slot::slot_at;
use crate::tight::Tights;
use crate::{change, full, tight, walk};
use radix_node::{Handover, Lock, Node};
use slot_lock::{Change, Fit, FramedPages, FreePage, Got, SlotMap, SlotRead, SlotRun, Survey};
use std::alloc::Allocator;
use std::cell::Cell;
use vm_base::info::info_from;
use vm_base::{CoreId, CoreSet, NoMemory, PageInfo, PageRange};

/// A map of slots as a tree of four levels. A slot of the root has 2^27 pages, of the next levels
/// 2^18, 2^9 and 1. The pages are those of the lower half of the addresses and as many above them,
/// which are never mapped and never held; nor is page 0. A division makes 512 slots of equal size.
/// A fold makes one slot of the deepest node that has the page, where it isn't the root, none of
/// its slots is a node, nobody holds them, they have no frame and no recorded core, and they are
/// all unmapped or each goes on from the one before.
#[derive(Drop)]
pub struct RadixMap<A: Allocator> {
    root: Node<A>,
    // pages that are all mapped, among which no room is looked for
    full: PageRange,
    // where no room begins
    tights: Tights,
    // from where to where room was last looked for
    sought: Cell<PageRange>,
    ghost ok: { IsRadix root },
    ghost known: { IsKnown (tree_slots root) full tights.items },
}

impl<A: Allocator + Clone> RadixMap<A> {
    ghost use Rattle.slot_lock.specs.Slots.{IsNew};
    ghost use Rattle.radix_range.specs.Tree.{root_edges};

    /// All valid pages unmapped and unheld, in the slots of the root.
    pub fn new(alloc: A) -> Result<RadixMap<A>, NoMemory>
        ensures new { IfOk result (λ map. IsNew (⟦<RadixMap<A> as SlotRead>⟧.slots map)) }
        ensures edges { IfOk result (λ map. (⟦<RadixMap<A> as SlotRead>⟧.slots map).edge ≡ root_edges) }
    {
        match Node::new(alloc, 3) {
            Ok(root) => Ok(RadixMap {
                root,
                full: PageRange { first: 0, end: 0 },
                tights: Tights::new(),
                sought: Cell::new(PageRange { first: 0, end: 0 }),
            }),
            Err(e) => Err(e),
        }
    }
}

impl<A: Allocator> RadixMap<A> {
    // Keeps in mind that room was found behind the first page where it was looked for.
    fn sought_up_to(&self, first: u64, start: u64) {
        if first < start {
            self.sought.set(PageRange { first, end: start });
        }
    }

    // Makes a change of pages that no slot crosses the edge of, and keeps in mind what is known then.
    fn make(&mut self, change: Change)
        requires sound { IsSoundChange change }
        requires cut { IsCut (tree_slots self.old.root) (range_of change) }
        ensures { tree_slots self.new.root ≡ changed (tree_slots self.old.root) change }
    {
        change::change(&mut self.root, change);
        self.full = full::with_change(self.full, change);
        let sought = self.sought.get();
        tight::note_change(&mut self.tights, &self.root, self.full, sought, change);
    }
}

impl<A: Allocator> SlotRead for RadixMap<A> {
    ghost use Rattle.radix_range.specs.Tree.{tree_slots};
    ghost use Rattle.vm_base.specs.Pages.{IsPage};

    ghost slots = { λ m. tree_slots m.root };

    ghost reads = { λ _ p. IsPage p };

    fn page(&self, page: u64) -> Option<PageInfo> {
        let slot = slot_at(&self.root, page);
        info_from(slot.state.info(), page - slot.first)
    }

    fn slot(&self, page: u64) -> PageRange {
        let slot = slot_at(&self.root, page);
        PageRange {
            first: slot.first,
            end: slot.end,
        }
    }

    fn first_free_run(&self, range: PageRange, n: u64) -> Option<u64> {
        let tights = self.tights.as_slice();
        let found = tight::first_free_run(&self.root, self.full, tights, range, n);
        if let Some(start) = found {
            self.sought_up_to(range.first, start);
        }
        found
    }

    fn recorded(&self, range: PageRange) -> CoreSet {
        walk::recorded(&self.root, range)
    }
}

impl<A: Allocator + Clone> SlotMap for RadixMap<A> {
    ghost use Rattle.std.specs.Prelude.{refl};
    ghost use Rattle.radix_range.specs.Folds.{CanFold, FoldsNode};
    ghost use Rattle.radix_range.specs.Found.{in_512};

    ghost parts = { in_512 };

    ghost can_fold = { CanFold };

    ghost folds = { FoldsNode };

    ghost is_slot_map = { λ m. m.ok.laws (tree_slots m.root) refl };

    ghost reads_all = { λ _ _ h. h };

    fn owner(&self, page: u64) -> Option<CoreId> {
        slot_at(&self.root, page).state.owner()
    }

    fn free_page(&self, page: u64) -> Option<FreePage> {
        let slot = slot_at(&self.root, page);
        if slot.end - slot.first > 1 || slot.state.owner().is_some() {
            return None;
        }
        Some(FreePage {
            info: slot.state.info(),
        })
    }

    fn survey(&self, core: CoreId, range: PageRange) -> Option<Survey> {
        walk::survey(&self.root, core, range)
    }

    fn lock_next(&mut self, core: CoreId, cursor: u64, end: u64) -> Result<Got, NoMemory> {
        match change::lock(&mut self.root, core, cursor, end) {
            Lock::Held(owner) => Ok(Got::Held(owner)),
            Lock::Before => {
                change::expand(&mut self.root, cursor)?;
                Ok(Got::Split)
            }
            Lock::Beyond => {
                change::expand(&mut self.root, end)?;
                Ok(Got::Split)
            }
            Lock::Locked(width) => Ok(Got::Locked(cursor + width)),
        }
    }

    fn cut_next(&mut self, core: CoreId, range: PageRange) -> Result<Fit, NoMemory> {
        if slot_at(&self.root, range.first).first < range.first {
            change::expand(&mut self.root, range.first)?;
            return Ok(Fit::Cut);
        }
        if slot_at(&self.root, range.end).first < range.end {
            change::expand(&mut self.root, range.end)?;
            return Ok(Fit::Cut);
        }
        Ok(Fit::Fits)
    }

    fn unlock_next(&mut self, core: CoreId, cursor: u64, end: u64) -> u64 {
        change::unlock(&mut self.root, cursor)
    }

    fn lock_run(&mut self, core: CoreId, cursor: u64, end: u64, most: u64) -> SlotRun {
        let owners = Handover {
            from: None,
            to: Some(core),
        };
        change::own_run(&mut self.root, cursor, end, most, &owners)
    }

    fn unlock_run(&mut self, core: CoreId, cursor: u64, end: u64, most: u64) -> SlotRun {
        let owners = Handover {
            from: Some(core),
            to: None,
        };
        change::own_run(&mut self.root, cursor, end, most, &owners)
    }

    fn change(&mut self, core: CoreId, change: Change) {
        self.make(change);
    }

    fn list_frames(&self, from: u64, end: u64, list: &mut FramedPages) -> u64 {
        walk::list_frames(&self.root, from, end, list)
    }

    #[inline(always)]
    fn change_free(&mut self, change: Change) {
        change::change_one(&mut self.root, change);
        self.full = full::with_change(self.full, change);
        let sought = self.sought.get();
        tight::note_change(&mut self.tights, &self.root, self.full, sought, change);
    }

    fn change_unheld(&mut self, change: Change) {
        self.make(change);
    }

    fn set_leaf(&mut self, core: CoreId, page: u64, info: PageInfo) {
        change::set_info(&mut self.root, page, info);
    }

    fn fold(&mut self, page: u64) -> bool {
        change::fold(&mut self.root, page)
    }
}
