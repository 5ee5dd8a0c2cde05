//! The first slot map: a list of slots.
ghost use Rattle.std.specs.Prelude.{◌≡◌, ◌≢◌, ℕ, ◌+◌, ◌-◌, ◌^◌, ◌<◌, ◌≤◌, IfOk, OnErr, Option, Some};
ghost use Rattle.std.specs.Prelude.{Bool, length};
ghost use Rattle.slot_lock.specs.SlotList.{IsSlotList};
ghost use Rattle.slot_lock.specs.ListedSlots.{slots_of};
ghost use Rattle.slot_lock.specs.Slots.{IsSlotMap};

use crate::framed::FramedPages;
use crate::plan::Change;
use crate::slot::{self, Slot};
use crate::slot_map::{Fit, FreePage, Got, SlotMap, SlotRead, SlotRun};
use crate::{lent, walk};
use std::alloc::Allocator;
use vm_base::info::info_from;
use vm_base::{CoreId, CoreSet, NoMemory, PageInfo, PageRange};

/// A map of slots as the list of them, in order. A division makes two slots. A fold joins a page's
/// slot with the next one to its right, where nobody holds them, they have no frame and no recorded
/// core, and the second's pages go on from the first's. Page 0 and what lies above all valid pages
/// stay slots of their own.
#[derive(Drop)]
pub struct SlotList<A: Allocator> {
    slots: Vec<Slot, A>,
    ghost ok: { IsSlotList slots.items },
    ghost laws: { IsSlotMap (slots_of slots.items) },
}

impl<A: Allocator> SlotList<A> {
    ghost use Rattle.std.specs.Prelude.{IsTrue, ◌↔◌};
    ghost use Rattle.slot_lock.specs.Slots.{IsNew};
    ghost use Rattle.slot_lock.specs.Adding.{IsFreeRest, CanAdd, with_slot};

    /// All valid pages unmapped and unheld, in one slot.
    pub fn new(alloc: A) -> Result<SlotList<A>, NoMemory>
        ensures rest { IfOk result (λ map. IsFreeRest (⟦<SlotList<A> as SlotRead>⟧.slots map) 1) }
        ensures new { IfOk result (λ map. IsNew (⟦<SlotList<A> as SlotRead>⟧.slots map)) }
    {
        let mut slots = Vec::with_capacity(alloc, 3)?;
        slots.push(Slot {
            start: 0,
            owner: None,
            info: None,
        })?;
        slots.push(Slot {
            start: 1,
            owner: None,
            info: None,
        })?;
        slots.push(Slot {
            start: 0x8_0000_0000,
            owner: None,
            info: None,
        })?;
        Ok(SlotList { slots })
    }

    /// Adds the slot of the pages from `first` up to `end`, with its owner and what its first page
    /// has. Answers false, and changes nothing, where it doesn't begin at the end of the last one,
    /// has no valid page or another one too, is a slot of several pages with a frame or a recorded
    /// core, or has file pages that no file can have. A refusal for memory changes nothing.
    pub fn add_slot(
        &mut self,
        first: u64,
        end: u64,
        owner: Option<CoreId>,
        info: Option<PageInfo>,
    ) -> Result<bool, NoMemory>
        ensures can { IfOk result (λ is. IsTrue is
            ↔ CanAdd (⟦<SlotList<A> as SlotRead>⟧.slots self.old) first end info) }
        ensures added { IfOk result (λ is. IsTrue is
            → ⟦<SlotList<A> as SlotRead>⟧.slots self.new ≡ with_slot
            (⟦<SlotList<A> as SlotRead>⟧.slots self.old) first end owner info) }
        ensures same { IfOk result (λ is. ¬ IsTrue is
            → ⟦<SlotList<A> as SlotRead>⟧.slots self.new ≡ ⟦<SlotList<A> as SlotRead>⟧.slots self.old) }
        ensures err { OnErr result
            (⟦<SlotList<A> as SlotRead>⟧.slots self.new ≡ ⟦<SlotList<A> as SlotRead>⟧.slots self.old) }
    {
        if !lent::can_add(&self.slots, first, end, &info) {
            return Ok(false);
        }
        lent::add(&mut self.slots, first, end, owner, &info)?;
        Ok(true)
    }
}

impl<A: Allocator> SlotRead for SlotList<A> {
    ghost use Rattle.slot_lock.specs.ListedSlots.{slots_of};
    ghost use Rattle.vm_base.specs.Pages.{IsPage};

    ghost slots = { λ m. slots_of m.slots.items };

    ghost reads = { λ _ p. IsPage p };

    fn page(&self, page: u64) -> Option<PageInfo> {
        let slot = self.slots[slot::place(&self.slots, page)];
        info_from(slot.info, page - slot.start)
    }

    fn slot(&self, page: u64) -> PageRange {
        let i = slot::place(&self.slots, page);
        PageRange {
            first: self.slots[i].start,
            end: self.slots[i + 1].start,
        }
    }

    fn first_free_run(&self, range: PageRange, n: u64) -> Option<u64> {
        walk::first_free_run(&self.slots, range, n)
    }

    fn recorded(&self, range: PageRange) -> CoreSet {
        walk::recorded(&self.slots, range)
    }
}

impl<A: Allocator> SlotMap for SlotList<A> {
    ghost use Rattle.std.specs.Prelude.{ℕ};
    ghost use Rattle.slot_lock.specs.ListedSlots.{two_parts};
    ghost use Rattle.slot_lock.specs.Slots.{CanJoin, Folds};

    ghost parts = { two_parts };

    ghost can_fold = { λ s page. (at : ℕ) × CanJoin s page at };

    ghost folds = { Folds };

    ghost is_slot_map = { λ m. m.laws };

    ghost reads_all = { λ _ _ h. h };

    fn owner(&self, page: u64) -> Option<CoreId> {
        self.slots[slot::place(&self.slots, page)].owner
    }

    fn free_page(&self, page: u64) -> Option<FreePage> {
        let i = slot::place(&self.slots, page);
        let slot = self.slots[i];
        if slot.owner.is_some() || slot.start < page || page + 1 < self.slots[i + 1].start {
            return None;
        }
        Some(FreePage { info: slot.info })
    }

    fn lock_next(&mut self, core: CoreId, cursor: u64, end: u64) -> Result<Got, NoMemory> {
        let i = slot::place(&self.slots, cursor);
        let slot = self.slots[i];
        let slot_end = self.slots[i + 1].start;
        if let Some(owner) = slot.owner {
            return Ok(Got::Held(owner));
        }
        if slot.start < cursor {
            slot::cut(&mut self.slots, i, cursor)?;
            return Ok(Got::Split);
        }
        if end < slot_end {
            slot::cut(&mut self.slots, i, end)?;
            return Ok(Got::Split);
        }
        slot::set_owner(&mut self.slots, i, Some(core));
        Ok(Got::Locked(slot_end))
    }

    fn cut_next(&mut self, core: CoreId, range: PageRange) -> Result<Fit, NoMemory> {
        let i = slot::place(&self.slots, range.first);
        if self.slots[i].start < range.first {
            slot::cut(&mut self.slots, i, range.first)?;
            return Ok(Fit::Cut);
        }
        let j = slot::place(&self.slots, range.end);
        if self.slots[j].start < range.end {
            slot::cut(&mut self.slots, j, range.end)?;
            return Ok(Fit::Cut);
        }
        Ok(Fit::Fits)
    }

    fn unlock_next(&mut self, core: CoreId, cursor: u64, end: u64) -> u64 {
        let i = slot::place(&self.slots, cursor);
        let slot_end = self.slots[i + 1].start;
        slot::set_owner(&mut self.slots, i, None);
        slot_end
    }

    // a slot of the list is looked for anew each time, so that several at once save nothing
    fn lock_run(&mut self, core: CoreId, cursor: u64, end: u64, most: u64) -> SlotRun {
        SlotRun {
            slots: 0,
            upto: cursor,
        }
    }

    fn unlock_run(&mut self, core: CoreId, cursor: u64, end: u64, most: u64) -> SlotRun {
        SlotRun {
            slots: 0,
            upto: cursor,
        }
    }

    fn change(&mut self, core: CoreId, change: Change) {
        slot::change(&mut self.slots, change);
    }

    fn list_frames(&self, from: u64, end: u64, list: &mut FramedPages) -> u64 {
        walk::list_frames(&self.slots, from, end, list)
    }

    fn change_free(&mut self, change: Change) {
        slot::change(&mut self.slots, change);
    }

    fn change_unheld(&mut self, change: Change) {
        slot::change(&mut self.slots, change);
    }

    fn set_leaf(&mut self, core: CoreId, page: u64, info: PageInfo) {
        let i = slot::place(&self.slots, page);
        slot::set_info(&mut self.slots, i, info);
    }

    fn fold(&mut self, page: u64) -> bool {
        slot::fold(&mut self.slots, page)
    }
}
