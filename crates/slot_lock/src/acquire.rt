//! Locking the pages of a footprint from left to right.
ghost use Rattle.std.specs.Prelude.{◌≡◌, ◌≢◌, ℕ, ◌+◌, ◌-◌, ◌^◌, ◌<◌, ◌≤◌, ◌↔◌, IsTrue, IfOk, OnErr};
ghost use Rattle.std.specs.Prelude.{Option, Some, None, Bool, true, false};
ghost use Rattle.slot_lock.specs.Footprint.{IsFootprint, end_at, is_place, is_past, cursor_after};
ghost use Rattle.slot_lock.specs.Slots.{Steps, Crosses};

use crate::footprint::Footprint;
use crate::slot_map::{Got, SlotMap};
use vm_base::{CoreId, NoMemory};

/// How far the pages of a footprint are locked.
#[derive(Clone, Copy)]
pub struct Acquire {
    pub footprint: Footprint,
    /// The pages of the footprint below it are locked.
    pub cursor: u64,
    ghost sound: { IsFootprint footprint },
    ghost place: { is_place footprint cursor ≡ true },
}

impl Acquire {
    ghost use Rattle.slot_lock.specs.Acquire.{HoldsUpTo};

    /// None of the pages is locked yet.
    pub fn new(footprint: Footprint) -> Acquire
        requires { IsFootprint footprint }
        ensures footprint { result.footprint ≡ footprint }
        ensures cursor { result.cursor ≡ footprint.first.first }
    {
        Acquire {
            footprint,
            cursor: footprint.first.first,
        }
    }

    /// Tells whether all pages are locked.
    pub fn is_done(&self) -> bool
        ensures { result ≡ is_past self.now.footprint self.now.cursor }
    {
        self.footprint.is_past(self.cursor)
    }

    /// One step of the map at the cursor. A refusal for memory changes nothing.
    pub fn next<M: SlotMap>(&mut self, map: &mut M, core: CoreId) -> Result<Got, NoMemory>
        requires not_done { is_past self.old.footprint self.old.cursor ≡ false }
        requires not_held { (M.slots map.old).owner self.old.cursor ≢ Some core }
        ensures step { IfOk result
            (λ got. Steps (M.slots map.old) (M.slots map.new) core self.old.cursor
            (end_at self.old.footprint self.old.cursor) got) }
        ensures footprint { self.new.footprint ≡ self.old.footprint }
        ensures cursor { IfOk result
            (λ got. self.new.cursor ≡ cursor_after self.old.footprint self.old.cursor got) }
        ensures err_map { OnErr result (M.slots map.new ≡ M.slots map.old) }
        ensures err_only { OnErr result (((M.slots map.old).owner self.old.cursor ≡ None)
            × Crosses (M.slots map.old) self.old.cursor (end_at self.old.footprint self.old.cursor)) }
        ensures err_cursor { OnErr result (self.new.cursor ≡ self.old.cursor) }
        ensures holds { HoldsUpTo (M.slots map.old) core self.old.footprint self.old.cursor
            → HoldsUpTo (M.slots map.new) core self.new.footprint self.new.cursor }
    {
        let end = self.footprint.end_at(self.cursor);
        let got = map.lock_next(core, self.cursor, end)?;
        if let Got::Locked(locked_to) = got {
            self.cursor = self.footprint.next_after(locked_to);
        }
        Ok(got)
    }
}
