//! What is judged of one reply.
ghost use Rattle.std.specs.Prelude.{◌≡◌, ◌+◌, ◌↔◌, IsTrue, IfOk, OnErr, Bool};
ghost use Rattle.slot_lock.specs.Plan.{IsSoundPlan, IsSoundChange, IsSoundPlace, IsSoundTouch};
ghost use Rattle.slot_lock.specs.declared.plan.Plan.TheVariants as PlanOf;
ghost use Rattle.slot_lock.specs.declared.plan.Goal.TheVariants as GoalOf;
ghost use Rattle.vm_calls.specs.Plainly.{answer_to};
ghost use Rattle.slot_lock.specs.Plan.{range_of};
ghost use Rattle.slot_lock.specs.Slots.{IsFreePage};
ghost use Rattle.frames.specs.Files.{cached_in};
ghost use Rattle.audit.specs.Keeping.{Keeps, NobodyHolds, plain_kept};
ghost use Rattle.audit.specs.Judging.{Compares, GivesPlan, JudgesPlan};

use crate::bytes::access_reply;
use crate::changing::{change_alone, free_alone, make_change};
use crate::placing::{due_place, is_allowed, place_said, reply_at};
use crate::storing::store;
use frames::{Frames, Objects};
use slot_lock::{Change, FreePage, Goal, Place, Plan, SlotMap, Touch};
use std::alloc::Allocator;
use vm_base::page::PAGE_SIZE;
use vm_base::{NoMemory, PageRange, Reply, SegvCode};
use vm_calls::{Decision, decide, decide_page};

/// What is judged of a reply.
#[derive(Clone, Copy, PartialEq, Eq)]
pub enum ReplyVerdict {
    /// It is the plain page map's.
    Legal,
    /// No plain page map gives it. One would give this.
    Illegal(Reply),
}

/// Tells whether two replies are the same.
fn is_same(reply: Reply, other: Reply) -> bool
    ensures { IsTrue result ↔ (reply ≡ other) }
{
    reply == other
}

/// Judges a reply where this one is due.
pub fn compared(reply: Reply, due: Reply) -> ReplyVerdict
    ensures { Compares reply due result }
{
    if is_same(reply, due) {
        ReplyVerdict::Legal
    } else {
        ReplyVerdict::Illegal(due)
    }
}

/// Tells whether a request was done.
fn is_done(reply: Reply) -> bool
    ensures { IsTrue result ↔ (reply ≡ Reply.Done) }
{
    matches!(reply, Reply::Done)
}

/// The reply to a change that is made.
fn change_reply(change: Change) -> Reply
    requires { IsSoundChange change }
    ensures { result ≡ answer_to (GoalOf.Change change) (range_of change) }
{
    match change {
        Change::Put { range, .. } => Reply::Mapped(range.first * PAGE_SIZE),
        Change::Clear { .. } | Change::Protect { .. } => Reply::Done,
    }
}

/// Makes a change of one page that is a slot of its own, which has this, where its reply is legal.
fn judge_alone<M: SlotMap, A: Allocator>(
    map: &mut M,
    objects: &Objects<A>,
    frames: &mut Frames<A>,
    change: Change,
    page: FreePage,
    reply: Reply,
) -> ReplyVerdict
    requires sound { IsSoundChange change }
    requires one { (range_of change).end ≡ (range_of change).first + 1 }
    requires page { IsFreePage (M.slots map.old) (range_of change).first page }
    requires free { NobodyHolds (M.slots map.old) }
    requires kept { Keeps (M.slots map.old) (cached_in objects.now) frames.old }
    ensures judged { (any_place : Bool) → JudgesPlan any_place
        (plain_kept (M.slots map.old) objects.now frames.old) (PlanOf.Change change) reply result
        (plain_kept (M.slots map.new) objects.now frames.new) }
    ensures free { NobodyHolds (M.slots map.new) }
    ensures kept { Keeps (M.slots map.new) (cached_in objects.now) frames.new }
{
    if let Err(errno) = decide_page(objects, change, page.info) {
        return compared(reply, Reply::Refused(errno));
    }
    let due = change_reply(change);
    if !is_same(reply, due) {
        return ReplyVerdict::Illegal(due);
    }
    change_alone(map, frames, change, page);
    ReplyVerdict::Legal
}

/// Makes a change whose reply is legal: of a page alone without holding it, and of others while they are
/// held.
fn judge_change<M: SlotMap, A: Allocator>(
    map: &mut M,
    objects: &Objects<A>,
    frames: &mut Frames<A>,
    change: Change,
    reply: Reply,
) -> Result<ReplyVerdict, NoMemory>
    requires sound { IsSoundChange change }
    requires free { NobodyHolds (M.slots map.old) }
    requires kept { Keeps (M.slots map.old) (cached_in objects.now) frames.old }
    ensures judged { IfOk result (λ verdict. (any_place : Bool) → JudgesPlan any_place
        (plain_kept (M.slots map.old) objects.now frames.old) (PlanOf.Change change) reply verdict
        (plain_kept (M.slots map.new) objects.now frames.new)) }
    ensures err { OnErr result (plain_kept (M.slots map.new) objects.now frames.new
        ≡ plain_kept (M.slots map.old) objects.now frames.old) }
    ensures legal { OnErr result ((any_place : Bool) → GivesPlan any_place
        (plain_kept (M.slots map.old) objects.now frames.old) (PlanOf.Change change) reply) }
    ensures free { NobodyHolds (M.slots map.new) }
    ensures kept { Keeps (M.slots map.new) (cached_in objects.now) frames.new }
{
    if let Some(page) = free_alone(map, change) {
        return Ok(judge_alone(map, objects, frames, change, page, reply));
    }
    match decide(map, objects, Goal::Change(change)) {
        Decision::Refuse(errno) => Ok(compared(reply, Reply::Refused(errno))),
        Decision::Act { .. } => {
            let due = change_reply(change);
            if !is_same(reply, due) {
                return Ok(ReplyVerdict::Illegal(due));
            }
            make_change(map, frames, change)?;
            Ok(ReplyVerdict::Legal)
        }
        Decision::Again => unreachable!(),
    }
}

/// Does an access whose reply is legal.
fn judge_touch<M: SlotMap, A: Allocator>(
    map: &mut M,
    objects: &mut Objects<A>,
    frames: &mut Frames<A>,
    touch: Touch,
    reply: Reply,
) -> Result<ReplyVerdict, NoMemory>
    requires sound { IsSoundTouch touch }
    requires free { NobodyHolds (M.slots map.old) }
    requires kept { Keeps (M.slots map.old) (cached_in objects.old) frames.old }
    ensures judged { IfOk result (λ verdict. (any_place : Bool) → JudgesPlan any_place
        (plain_kept (M.slots map.old) objects.old frames.old) (PlanOf.Touch touch) reply verdict
        (plain_kept (M.slots map.new) objects.new frames.new)) }
    ensures err { OnErr result (plain_kept (M.slots map.new) objects.new frames.new
        ≡ plain_kept (M.slots map.old) objects.old frames.old) }
    ensures legal { OnErr result ((any_place : Bool) → GivesPlan any_place
        (plain_kept (M.slots map.old) objects.old frames.old) (PlanOf.Touch touch) reply) }
    ensures free { NobodyHolds (M.slots map.new) }
    ensures kept { Keeps (M.slots map.new) (cached_in objects.new) frames.new }
{
    let Some(info) = map.page(touch.page) else {
        return Ok(compared(reply, Reply::Segv(SegvCode::MapErr)));
    };
    let due = access_reply(objects, frames, &info, touch);
    if !is_same(reply, due) {
        return Ok(ReplyVerdict::Illegal(due));
    }
    if !is_done(due) {
        return Ok(ReplyVerdict::Legal);
    }
    store(map, objects, frames, info, touch)?;
    Ok(ReplyVerdict::Legal)
}

/// Makes a mapping that was answered with this place, if it may be there.
fn judge_place<M: SlotMap, A: Allocator>(
    map: &mut M,
    objects: &Objects<A>,
    frames: &mut Frames<A>,
    any_place: bool,
    place: Place,
    reply: Reply,
) -> Result<ReplyVerdict, NoMemory>
    requires sound { IsSoundPlace place }
    requires free { NobodyHolds (M.slots map.old) }
    requires kept { Keeps (M.slots map.old) (cached_in objects.now) frames.old }
    ensures judged { IfOk result (λ verdict. JudgesPlan any_place
        (plain_kept (M.slots map.old) objects.now frames.old) (PlanOf.Place place) reply verdict
        (plain_kept (M.slots map.new) objects.now frames.new)) }
    ensures err { OnErr result (plain_kept (M.slots map.new) objects.now frames.new
        ≡ plain_kept (M.slots map.old) objects.now frames.old) }
    ensures legal { OnErr result (GivesPlan any_place
        (plain_kept (M.slots map.old) objects.now frames.old) (PlanOf.Place place) reply) }
    ensures free { NobodyHolds (M.slots map.new) }
    ensures kept { Keeps (M.slots map.new) (cached_in objects.now) frames.new }
{
    let said = place_said(reply);
    let Some(found) = said else {
        return Ok(ReplyVerdict::Illegal(reply_at(due_place(map, any_place, place))));
    };
    if !is_allowed(map, any_place, place, found) {
        return Ok(ReplyVerdict::Illegal(reply_at(due_place(map, any_place, place))));
    }
    let Some(first) = found else {
        return Ok(ReplyVerdict::Legal);
    };
    let range = PageRange {
        first,
        end: first + place.count,
    };
    let meta = place.meta;
    make_change(map, frames, Change::Put { range, meta })?;
    Ok(ReplyVerdict::Legal)
}

/// Does what a request is to do, where its reply is legal.
pub fn judge_plan<M: SlotMap, A: Allocator>(
    map: &mut M,
    objects: &mut Objects<A>,
    frames: &mut Frames<A>,
    any_place: bool,
    plan: Plan,
    reply: Reply,
) -> Result<ReplyVerdict, NoMemory>
    requires sound { IsSoundPlan plan }
    requires free { NobodyHolds (M.slots map.old) }
    requires kept { Keeps (M.slots map.old) (cached_in objects.old) frames.old }
    ensures judged { IfOk result (λ verdict. JudgesPlan any_place
        (plain_kept (M.slots map.old) objects.old frames.old) plan reply verdict
        (plain_kept (M.slots map.new) objects.new frames.new)) }
    ensures err { OnErr result (plain_kept (M.slots map.new) objects.new frames.new
        ≡ plain_kept (M.slots map.old) objects.old frames.old) }
    ensures legal { OnErr result (GivesPlan any_place
        (plain_kept (M.slots map.old) objects.old frames.old) plan reply) }
    ensures free { NobodyHolds (M.slots map.new) }
    ensures kept { Keeps (M.slots map.new) (cached_in objects.new) frames.new }
{
    match plan {
        Plan::Place(place) => judge_place(map, objects, frames, any_place, place, reply),
        Plan::Change(change) => judge_change(map, objects, frames, change, reply),
        Plan::Touch(touch) => judge_touch(map, objects, frames, touch, reply),
    }
}
