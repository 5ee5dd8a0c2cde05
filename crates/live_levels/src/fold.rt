//! Slots that are made one again, once no thread shares the tree.
ghost use Rattle.std.specs.Prelude.{◌≡◌, ◌+◌, ◌-◌, ◌<◌, ◌≤◌, ◌^◌, ◌↔◌, IsTrue, IfSome, IfNone, None};
ghost use Rattle.std.specs.Prelude.{false};
ghost use Rattle.live_levels.specs.Folding.{CanBegin, CanFollow, CanJoin, HasPagesOf, Joins, StandsFor, begun_act};
ghost use Rattle.live_levels.specs.Slots.{Suits};

use crate::act::Act;
use crate::joint::Foldable;
use crate::level::Stepper;
use crate::slot::SlotState;
use std::alloc::Allocator;
use vm_base::info::goes_on;
use vm_base::{PageRange, is_leaf};

// Tells whether the slot can be a part of a larger one.
fn can_begin<A: Allocator>(slot: &SlotState<A>) -> bool
    ensures { IsTrue result ↔ CanBegin slot.now }
{
    !is_leaf(slot.content()) && slot.owner().is_none()
}

// One slot, where it can be a part of a larger one: no core is to lock it first, and it has no
// frame and no recorded core.
fn begin_joint<A: Allocator>(slot: &SlotState<A>) -> Option<Foldable>
    ensures some { IfSome result (λ j. (j.first ≡ slot.now.first)
        × (j.end ≡ slot.now.first + slot.now.count) × (j.content ≡ slot.now.content)) }
    ensures can { IfSome result (λ j. CanBegin slot.now) }
    ensures none { IfNone result (¬ CanBegin slot.now) }
{
    if !can_begin(slot) {
        return None;
    }
    let first = slot.first();
    let end = first + slot.count();
    let content = slot.content();
    Some(Foldable {
        first,
        end,
        content,
    })
}

// The slots with one more, where it follows on.
fn join_next<A: Allocator>(joint: Foldable, slot: &SlotState<A>) -> Option<Foldable>
    ensures some { IfSome result (λ j. (j.first ≡ joint.first) × (j.end ≡ joint.end + slot.now.count)
        × (j.content ≡ joint.content)) }
    ensures can { IfSome result (λ j. CanFollow joint slot.now) }
    ensures none { IfNone result (¬ CanFollow joint slot.now) }
{
    let next = begin_joint(slot)?;
    if next.first != joint.end {
        return None;
    }
    if !goes_on(joint.content, next.content, next.first - joint.first) {
        return None;
    }
    Some(Foldable {
        first: joint.first,
        end: next.end,
        content: joint.content,
    })
}

/// The slots so far, if there are any, with one more, where it can begin or follows on.
pub(crate) fn with_next<A: Allocator>(
    joint: Option<Foldable>,
    slot: &SlotState<A>,
) -> Option<Foldable>
    ensures some { IfSome result (Joins joint slot.now) }
    ensures can { IfSome result (λ _. CanJoin joint slot.now) }
    ensures none { IfNone result (¬ CanJoin joint slot.now) }
{
    match joint {
        None => begin_joint(slot),
        Some(joint) => join_next(joint, slot),
    }
}

/// Slots that were joined: their pages, and the ticket of the step. Only `replace` makes one, which
/// takes their level away.
#[derive(Clone, Copy)]
pub struct JoinedSlots {
    range: PageRange,
    ticket: u64,
}

impl JoinedSlots {
    /// The pages of the slots.
    pub fn range(&self) -> PageRange
        ensures { result ≡ self.now.range }
    {
        self.range
    }
}

/// Tells whether the slot has just the pages of the parts.
pub(crate) fn has_pages_of<A: Allocator>(slot: &SlotState<A>, joint: &Foldable) -> bool
    ensures { IsTrue result ↔ HasPagesOf joint.now slot.now }
{
    let first = slot.first();
    joint.first == first && joint.end == first + slot.count()
}

/// Takes away the level of the parts, which the slot had been divided into, and lets the slot stand
/// for them: it begins anew with one change, under the ticket of the step, which is noted. It takes
/// no memory.
pub(crate) fn replace<C: Drop, A: Allocator, S: Stepper>(
    slot: &mut SlotState<A>,
    _parts: Box<C, A>,
    joint: &Foldable,
    stepper: &mut S,
) -> JoinedSlots
    requires step { S.can_step stepper.old }
    requires pages { HasPagesOf joint.now slot.old }
    ensures stands { StandsFor joint.now result.ticket slot.old slot.new }
    ensures noted { S.stepped stepper.old result.ticket stepper.new }
    ensures range { (result.range.first ≡ joint.now.first) × (result.range.end ≡ joint.now.end) }
{
    let act = begun_act(joint);
    let ticket = stepper.step();
    slot.restart(ticket, act, None);
    JoinedSlots {
        range: PageRange {
            first: joint.first,
            end: joint.end,
        },
        ticket,
    }
}

// The change with which a slot begins that stands for its parts.
fn begun_act(joint: &Foldable) -> Act
    ensures act { result ≡ begun_act joint.now.content }
    ensures suits { Suits result (joint.now.end - joint.now.first) }
{
    match joint.content {
        None => Act::Clear,
        Some(info) => Act::Put(info.meta),
    }
}
