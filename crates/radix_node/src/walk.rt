//! Walks over the slots of a range of a node's pages, from left to right: each slot, and each node
//! below, is visited once.
ghost use Rattle.std.specs.Prelude.{◌≡◌, ℕ, ◌+◌, ◌*◌, ◌<◌, ◌≤◌, ◌^◌, ◌↔◌, true};
ghost use Rattle.vm_base.specs.Cores.{members};
ghost use Rattle.arrayvec.specs.ArrayVec.{array_vec_len};
ghost use Rattle.slot_lock.specs.Framed.{AddsFrames};
ghost use Rattle.radix_node.specs.Run.{width_of};
ghost use Rattle.radix_node.specs.Node.{runs};
ghost use Rattle.radix_node.specs.Walk.{HasUser, FindsRun, frames_from};

use crate::node::{Node, Slot};
use crate::place::{part_in, slot_pages, slots_of};
use slot_lock::{Framed, FramedPages};
use std::alloc::Allocator;
use vm_base::CoreSet;

/// What a search for a run of free pages found in a range.
#[derive(Clone, Copy)]
pub enum FreeRun {
    /// The run begins at this page.
    Found(u64),
    /// No run ends in the range. The pages from this one up to the range's end are free.
    Open(u64),
}

impl<A: Allocator> Node<A> {
    /// The cores that are recorded on some of the node's pages from `first` up to `end`.
    pub fn recorded(&self, first: u64, end: u64) -> CoreSet
        requires some { first < end }
        requires within { end ≤ 512 * width_of self.now.level }
        ensures { (core : ℕ) → (members result core ≡ true) ↔ HasUser (runs self.now) first end core }
    {
        let width = slot_pages(self.level);
        let slots = slots_of(self.level, first, end);
        let mut cores = CoreSet::empty();
        'slots: for k in slots.from..slots.to {
            match &self.slots[k] {
                Slot::Own(state) => cores = cores.union(state.cores()),
                Slot::Child(node) => {
                    let part = part_in(first, end, k as u64 * width, width);
                    cores = cores.union(node.recorded(part.first, part.end));
                }
            }
        }
        cores
    }

    /// Adds the node's pages from `first` up to `end` that have a frame, and their frames, to the
    /// list, in order, until it is full. Answers the page up to which none is left out. There and
    /// in the list the node's pages are counted from `base` on.
    pub fn list_frames(&self, base: u64, first: u64, end: u64, list: &mut FramedPages) -> u64
        requires some { first < end }
        requires within { end ≤ 512 * width_of self.now.level }
        requires fits { base + 512 * width_of self.now.level ≤ 2 ^ 36 }
        ensures low { base + first ≤ result }
        ensures high { result ≤ base + end }
        ensures added { AddsFrames (frames_from base (runs self.now))
            (base + first) result list.old.items list.new.items }
        ensures full { result < base + end → array_vec_len list.new ≡ 32 }
    {
        let width = slot_pages(self.level);
        let slots = slots_of(self.level, first, end);
        'slots: for k in slots.from..slots.to {
            match &self.slots[k] {
                Slot::Own(state) => {
                    if let Some(frame) = state.frame() {
                        let slot = base + k as u64 * width;
                        if list.is_full() {
                            return slot;
                        }
                        list.push(Framed { page: slot, frame });
                    }
                }
                Slot::Child(node) => {
                    let slot = base + k as u64 * width;
                    let part = part_in(first, end, k as u64 * width, width);
                    let upto = node.list_frames(slot, part.first, part.end, list);
                    if upto < slot + part.end {
                        return upto;
                    }
                }
            }
        }
        base + end
    }

    /// Looks for the first `n` free pages that end by `end`, where the node's pages are counted
    /// from `base` on but for `first` and `end`, and the pages from `start` up to `first` are free,
    /// and too few.
    pub fn free_run(&self, base: u64, first: u64, end: u64, n: u64, start: u64) -> FreeRun
        requires some { first < end }
        requires within { end ≤ 512 * width_of self.now.level }
        requires fits { base + 512 * width_of self.now.level ≤ 2 ^ 36 }
        requires by { start ≤ base + first }
        requires short { base + first < start + n }
        ensures { FindsRun (runs self.now) base first end n start result }
    {
        let width = slot_pages(self.level);
        let slots = slots_of(self.level, first, end);
        let mut open_from = start;
        'slots: for k in slots.from..slots.to {
            let part = part_in(first, end, k as u64 * width, width);
            let slot = base + k as u64 * width;
            match &self.slots[k] {
                Slot::Own(state) => {
                    if state.is_mapped() {
                        open_from = slot + part.end;
                    } else if n <= slot + part.end - open_from {
                        return FreeRun::Found(open_from);
                    }
                }
                Slot::Child(node) => match node.free_run(slot, part.first, part.end, n, open_from) {
                    FreeRun::Found(found) => return FreeRun::Found(found),
                    FreeRun::Open(still) => open_from = still,
                },
            }
        }
        FreeRun::Open(open_from)
    }
}
