//! What is decided of a change whose pages are held, and which frames they lose.
ghost use Rattle.std.specs.Prelude.{◌≡◌, ◌+◌, IfSome};
ghost use Rattle.std.specs.Prelude.{option_to_list};
ghost use Rattle.slot_lock.specs.declared.plan.Change.TheVariants as ChangeOf;
ghost use Rattle.slot_lock.specs.Plan.{IsSoundChange, IsSoundGoal, range_of};
ghost use Rattle.frames.specs.Files.{files_of};
ghost use Rattle.vm_calls.specs.Decisions.{Decides, IsNoAccess, IsSoundAct};
ghost use Rattle.machine_model.specs.Counting.{frame_lost};
ghost use Rattle.live_tree.specs.Deciding.{DecidesHeld};
ghost use Rattle.live_tree.specs.Held.{Covers};
ghost use Rattle.live_tree.specs.Shown.{shown};

use crate::held::Held;
use crate::held::losses::{FrameList, FramesLost, add_frame, frame_of};
use frames::Objects;
use slot_lock::{Change, Goal, SlotMap};
use smallvec::SmallVec;
use std::alloc::Allocator;
use vm_base::{CoreId, Errno, PageInfo, PageRange, Prot};
use vm_calls::{Decision, decide, decide_page};

/// What a call does that holds the pages of its change.
#[derive(Drop)]
pub enum Decided<'a, A: Allocator> {
    /// It is refused, and changes nothing.
    Refuse(Errno),
    /// It changes the pages.
    Act(FramesLost<'a, A>),
}

/// What a call of the core does that holds the pages of its change. None where memory is refused.
pub fn decide_held<'a, A: Allocator + Clone>(
    objects: &Objects<A>,
    alloc: &'a A,
    core: CoreId,
    held: &Held<'_, A>,
    change: Change,
) -> Option<Decided<'a, A>>
    requires sound { IsSoundChange change }
    requires covers { Covers held.now (range_of change) }
    ensures { IfSome result (DecidesHeld (files_of objects.now) (shown held.now.slots) change) }
{
    let range = change.range();
    if range.end - range.first == 1 {
        return decide_one(objects, alloc, held, change);
    }
    decide_several(objects, alloc, core, held, change)
}

// The frame that a page, which has this, loses by the change.
fn lost_by(change: Change, info: &Option<PageInfo>) -> Option<u32>
    ensures { result ≡ frame_lost change (λ _. info.now) 0 }
{
    match change {
        Change::Put { .. } | Change::Clear { .. } => frame_of(info),
        Change::Protect { .. } => None,
    }
}

// The frame that a page, which has this, loses by the change. None where memory is refused.
fn frame_lost<'a, A: Allocator>(
    alloc: &'a A,
    change: Change,
    info: &Option<PageInfo>,
) -> Option<FrameList<'a, A>>
    ensures { IfSome result (λ frames. frames.items
        ≡ option_to_list (frame_lost change (λ _. info.now) 0)) }
{
    let mut frames = SmallVec::new(alloc);
    if !add_frame(&mut frames, lost_by(change, info)) {
        return None;
    }
    Some(frames)
}

// The decision of a change of one page.
fn decide_one<'a, A: Allocator + Clone>(
    objects: &Objects<A>,
    alloc: &'a A,
    held: &Held<'_, A>,
    change: Change,
) -> Option<Decided<'a, A>>
    requires { (range_of change).end ≡ (range_of change).first + 1 }
    ensures { IfSome result (DecidesHeld (files_of objects.now) (shown held.now.slots) change) }
{
    let info = held.page(change.range().first);
    let frames = frame_lost(alloc, change, &info)?;
    match decide_page(objects, change, info) {
        Ok(cores) => Some(Decided::Act(FramesLost { cores, frames })),
        Err(errno) => Some(Decided::Refuse(errno)),
    }
}

// The decision of a change of several pages. What they lose is read where it is.
fn decide_several<'a, A: Allocator + Clone>(
    objects: &Objects<A>,
    alloc: &'a A,
    core: CoreId,
    held: &Held<'_, A>,
    change: Change,
) -> Option<Decided<'a, A>>
    requires sound { IsSoundChange change }
    requires covers { Covers held.now (range_of change) }
    ensures { IfSome result (DecidesHeld (files_of objects.now) (shown held.now.slots) change) }
{
    match change {
        Change::Put { range, .. } => {
            let losses = held.losses(alloc, range)?;
            Some(Decided::Act(losses))
        }
        Change::Clear { range } => {
            let losses = held.losses(alloc, range)?;
            Some(Decided::Act(losses))
        }
        Change::Protect { range, prot } => {
            decide_protect(objects, alloc, core, held, range, prot)
        }
    }
}

// The decision of another protection, which takes no frame. It looks at a copy of what the slots say.
fn decide_protect<'a, A: Allocator + Clone>(
    objects: &Objects<A>,
    alloc: &'a A,
    core: CoreId,
    held: &Held<'_, A>,
    range: PageRange,
    prot: Prot,
) -> Option<Decided<'a, A>>
    requires sound { IsSoundChange (ChangeOf.Protect range prot) }
    requires covers { Covers held.now range }
    ensures { IfSome result (DecidesHeld (files_of objects.now) (shown held.now.slots)
        (ChangeOf.Protect range prot)) }
{
    let own = alloc.clone().ok()?;
    let lent = held.lent(own, core)?;
    let change = Change::Protect { range, prot };
    match decide_over(&lent, objects, Goal::Change(change)) {
        Decision::Refuse(errno) => Some(Decided::Refuse(errno)),
        Decision::Act { shoot, .. } => Some(Decided::Act(FramesLost {
            cores: shoot,
            frames: SmallVec::new(alloc),
        })),
        Decision::Again => unreachable!(),
    }
}

// What a call decides over a whole slot map, all of whose pages may be asked for.
fn decide_over<M: SlotMap, A: Allocator>(map: &M, objects: &Objects<A>, goal: Goal) -> Decision
    requires no_access { IsNoAccess goal }
    requires sound { IsSoundGoal goal }
    ensures decision { Decides (files_of objects.now) (M.slots map.now) goal result }
    ensures sound { IsSoundAct goal result }
{
    decide(map, objects, goal)
}
