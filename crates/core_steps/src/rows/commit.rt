//! The step that makes a change, once no core that was told is awaited any more.
ghost use Rattle.std.specs.Prelude.{◌≡◌, ℕ, ◌-◌, ◌<◌, IfSome, Option};
ghost use Rattle.vm_base.specs.declared.info.PageInfo.{PageInfo};
ghost use Rattle.vm_base.specs.Info.{frame_of};
ghost use Rattle.vm_base.specs.Pages.{IsPageRange};
ghost use Rattle.refcache.specs.Parts.{counts_of};
ghost use Rattle.slot_lock.specs.Plan.{IsSoundChange, range_of};
ghost use Rattle.slot_lock.specs.Changes.{IsMappedFor};
ghost use Rattle.slot_lock.specs.Slots.{IsHeld};
ghost use Rattle.slot_lock.specs.Surveys.{IsSurvey};
ghost use Rattle.machine_model.specs.Changes.{slots_after, reply_to};
ghost use Rattle.machine_model.specs.Counting.{CountsDown, frame_lost};
ghost use Rattle.machine_model.specs.Step.{Goes};
ghost use Rattle.core_steps.specs.State.{world};
ghost use Rattle.core_steps.specs.Moving.{IsAt};
ghost use Rattle.core_steps.specs.Taking.{AreCounted, IsCounted};

use crate::engine::Engine;
use machine_log::ledger::Ledger;
use machine_model::answers::reply_to;
use machine_model::{Blocker, Outcome, Phase};
use mmu::Hardware;
use refcache::Refcache;
use slot_lock::{Change, Framed, FramedPages, Goal, SlotMap, Survey};
use std::alloc::Allocator;
use vm_base::{CoreId, PageInfo, PageRange};

/// Counts the frames of all pages of the range down, in order of pages, a list of them at a time.
fn count_frames<M: SlotMap, A: Allocator>(
    map: &M,
    counts: &mut Refcache<A>,
    core: CoreId,
    range: PageRange,
)
    requires pages { IsPageRange range }
    requires here { core < (counts_of counts.old).cores }
    requires counted { AreCounted (M.slots map.now) (counts_of counts.old) }
    ensures { CountsDown core (λ p. frame_of ((M.slots map.now).info p)) range.first
        (range.end - range.first) (counts_of counts.old) (counts_of counts.new) }
{
    let mut list = FramedPages::new();
    let mut from = range.first;
    'lists: while from < range.end {
        list.clear();
        from = map.list_frames(from, range.end, &mut list);
        let framed: &[Framed] = &list;
        'pages: for k in 0..framed.len() {
            counts.dec(core, framed[k].frame);
        }
    }
}

/// The frame that a page, which has this, loses by a change, if it does.
fn frame_lost(change: Change, info: Option<PageInfo>) -> Option<u32>
    ensures { (infos : ℕ → Option PageInfo) (p : ℕ) → info ≡ infos p
        → result ≡ frame_lost change infos p }
{
    match change {
        Change::Put { .. } | Change::Clear { .. } => info?.frame,
        Change::Protect { .. } => None,
    }
}

/// Counts down the frame that the only page of a change, which has this, loses by it, if it does.
#[inline(always)]
pub fn count_page<A: Allocator>(
    counts: &mut Refcache<A>,
    core: CoreId,
    change: Change,
    info: Option<PageInfo>,
)
    requires here { core < (counts_of counts.old).cores }
    requires counted { IfSome (frame_of info) (IsCounted (counts_of counts.old)) }
    ensures { (infos : ℕ → Option PageInfo) (p : ℕ) → info ≡ infos p
        → CountsDown core (frame_lost change infos) p 1 (counts_of counts.old) (counts_of counts.new) }
{
    if let Some(frame) = frame_lost(change, info) {
        counts.dec(core, frame);
    }
}

/// Counts down the frames that pages lose by the change: those of pages that are replaced or
/// unmapped.
fn count_lost<M: SlotMap, A: Allocator>(
    map: &M,
    counts: &mut Refcache<A>,
    core: CoreId,
    change: Change,
)
    requires sound { IsSoundChange change }
    requires here { core < (counts_of counts.old).cores }
    requires counted { AreCounted (M.slots map.now) (counts_of counts.old) }
    ensures { CountsDown core (frame_lost change (M.slots map.now).info)
        (range_of change).first ((range_of change).end - (range_of change).first)
        (counts_of counts.old) (counts_of counts.new) }
{
    match change {
        Change::Put { range, .. } | Change::Clear { range } => {
            count_frames(map, counts, core, range);
        }
        Change::Protect { .. } => {}
    }
}

/// Counts down the frames that the pages of a change, whose slots have this together, lose by it.
#[inline(always)]
pub fn count_surveyed<M: SlotMap, A: Allocator>(
    map: &M,
    counts: &mut Refcache<A>,
    core: CoreId,
    change: Change,
    found: &Survey,
)
    requires sound { IsSoundChange change }
    requires here { core < (counts_of counts.old).cores }
    requires counted { AreCounted (M.slots map.now) (counts_of counts.old) }
    requires survey { IsSurvey (M.slots map.now) (range_of change) found.now }
    ensures { CountsDown core (frame_lost change (M.slots map.now).info)
        (range_of change).first ((range_of change).end - (range_of change).first)
        (counts_of counts.old) (counts_of counts.new) }
{
    if found.framed {
        count_lost(map, counts, core, change);
    }
}

/// Makes the change of pages that the core holds. The frames that they lose are counted down first.
fn make_change<M: SlotMap, A: Allocator>(
    map: &mut M,
    counts: &mut Refcache<A>,
    core: CoreId,
    change: Change,
)
    requires sound { IsSoundChange change }
    requires held { IsHeld (M.slots map.old) core (range_of change) }
    requires mapped { IsMappedFor (M.slots map.old) change }
    requires here { core < (counts_of counts.old).cores }
    requires counted { AreCounted (M.slots map.old) (counts_of counts.old) }
    ensures slots { M.slots map.new ≡ slots_after change (M.slots map.old) }
    ensures counted { CountsDown core (frame_lost change (M.slots map.old).info)
        (range_of change).first ((range_of change).end - (range_of change).first)
        (counts_of counts.old) (counts_of counts.new) }
{
    count_lost(map, counts, core, change);
    map.change(core, change);
}

impl<M: SlotMap, H: Hardware, A: Allocator, L: Ledger> Engine<M, H, A, L> {
    /// Once no core is awaited, the change is made at once, and its reply stands from here on.
    pub fn go_acks(&mut self, core: CoreId, goal: Goal, change: Change) -> Outcome
        requires { IsAt (world M.slots self.old) core (Phase.Acks goal change) }
        ensures { Goes (world M.slots self.old) core (Phase.Acks goal change) result
            (world M.slots self.new) }
    {
        if let Some(waiting) = self.cores.awaited(core) {
            return Outcome::Wait(Blocker::Acks(waiting));
        }
        make_change(&mut self.map, &mut self.counts, core, change);
        self.reply(core, Some(goal.range()), reply_to(change));
        Outcome::Stepped
    }
}
