//! What the slots of a range have together, in one walk.
ghost use Rattle.std.specs.Prelude.{◌≡◌, ◌*◌, ◌<◌, ◌≤◌, IfSome, IsTrue, None};
ghost use Rattle.slot_lock.specs.Slots.{between};
ghost use Rattle.slot_lock.specs.Surveys.{IsSurvey};
ghost use Rattle.radix_node.specs.State.{state_of};
ghost use Rattle.radix_node.specs.Run.{width_of};
ghost use Rattle.radix_node.specs.Node.{runs};
ghost use Rattle.radix_node.specs.Survey.{IsSlotSurvey, slots_in};

use crate::node::{Node, Slot};
use crate::place::{part_in, slot_pages, slots_of};
use crate::state::SlotState;
use slot_lock::Survey;
use std::alloc::Allocator;
use vm_base::{CoreId, CoreSet};

impl SlotState {
    // Tells whether nobody holds the slot, and no other core than this is recorded on it.
    #[inline(always)]
    fn is_free_for(&self, core: CoreId) -> bool
        ensures { IsTrue result → (state_of self.now).owner ≡ None }
    {
        self.owner().is_none() && self.cores().without(core).is_empty()
    }

    // What the slot has, which nobody holds, or its pages from a later one on.
    #[inline(always)]
    fn survey(&self, begins: bool) -> Survey
        requires { (state_of self.now).owner ≡ None }
        ensures { IsSlotSurvey (state_of self.now) begins result }
    {
        Survey {
            slots: if begins { 1 } else { 0 },
            cores: self.cores(),
            gap: !self.is_mapped(),
            framed: self.frame().is_some(),
            shared: self.is_shared(),
        }
    }
}

impl<A: Allocator> Node<A> {
    // What `survey` tells, in a node whose slots have one page each.
    fn survey_pages(&self, first: usize, end: usize, core: CoreId) -> Option<Survey>
        requires level { self.now.level ≡ 0 }
        requires some { first < end }
        requires within { end ≤ 512 }
        ensures { IfSome result (IsSurvey (slots_in (runs self.now)) (between first end)) }
    {
        let mut cores = CoreSet::empty();
        let mut gap = false;
        let mut framed = false;
        let mut shared = false;
        'pages: for k in first..end {
            match &self.slots[k] {
                Slot::Own(state) => {
                    if !state.is_free_for(core) {
                        return None;
                    }
                    cores = cores.union(state.cores());
                    gap |= !state.is_mapped();
                    framed |= state.frame().is_some();
                    shared |= state.is_shared();
                }
                Slot::Child(_) => unreachable!(),
            }
        }
        Some(Survey {
            slots: (end - first) as u64,
            cores,
            gap,
            framed,
            shared,
        })
    }

    /// What the slots of the node's pages from `first` up to `end` have together, if nobody holds
    /// them. It tells nothing where another core than this is recorded on some page.
    pub fn survey(&self, first: u64, end: u64, core: CoreId) -> Option<Survey>
        requires some { first < end }
        requires within { end ≤ 512 * width_of self.now.level }
        ensures { IfSome result (IsSurvey (slots_in (runs self.now)) (between first end)) }
    {
        if self.level == 0 {
            return self.survey_pages(first as usize, end as usize, core);
        }
        let width = slot_pages(self.level);
        let slots = slots_of(self.level, first, end);
        let mut found = Survey::empty();
        'slots: for k in slots.from..slots.to {
            let start = k as u64 * width;
            match &self.slots[k] {
                Slot::Own(state) => {
                    if !state.is_free_for(core) {
                        return None;
                    }
                    found = found.and(state.survey(first <= start));
                }
                Slot::Child(node) => {
                    let part = part_in(first, end, start, width);
                    let below = node.survey(part.first, part.end, core)?;
                    found = found.and(below);
                }
            }
        }
        Some(found)
    }
}
