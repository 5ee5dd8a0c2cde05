//! What the turn of a request comes to on the map that steps make.
ghost use Rattle.std.specs.Prelude.{◌≡◌, ◌<◌, IfSome, false};
ghost use Rattle.vm_base.specs.Requests.{is_placed};
ghost use Rattle.slot_lock.specs.declared.plan.Change.TheVariants as ChangeOf;
ghost use Rattle.slot_lock.specs.declared.plan.Place.{Place};
ghost use Rattle.slot_lock.specs.declared.plan.Plan.TheVariants as PlanOf;
ghost use Rattle.slot_lock.specs.Plan.{IsSoundChange, IsSoundPlan};
ghost use Rattle.litmus_merges.specs.OneTurn.{TurnsTo};
ghost use Rattle.litmus_merges.specs.Steps.{AreSound, IsSoundStep, after_any, map_of};
ghost use Rattle.litmus_merges.specs.Turns.{IsChangeTurn, IsPlanTurn, IsTouchTurn, answer_alone, byte_turn, page_turn, store_turn, touch_turn};

use crate::change::MapChange;
use crate::protecting::{has_absent, has_read_only};
use crate::reading::{look, shown_byte};
use crate::seen::{Seen, Spot};
use frames::Objects;
use slot_lock::{Change, Plan, Touch};
use std::alloc::Allocator;
use vm_base::page::PAGE_SIZE;
use vm_base::{Access, Back, CoreId, Errno, PageRange, Prot, Reply, Request, SegvCode, allows};
use vm_calls::check;

/// What the turn of a request comes to: its reply, or none where its page is copied first, and the step that this
/// makes, if it makes one.
#[derive(Clone, Copy)]
pub(crate) struct Turn {
    /// The reply.
    pub reply: Option<Reply>,
    /// The step.
    pub step: Option<MapChange>,
}

/// The request is answered, and nothing changes.
fn answer_alone(reply: Reply) -> Turn
    ensures { result ≡ answer_alone reply }
{
    Turn {
        reply: Some(reply),
        step: None,
    }
}

/// The turn of a store to a page that has bytes, is backed so and has this own byte.
fn store_turn(back: Back, own: Option<u8>, touch: Touch) -> Turn
    ensures { result ≡ store_turn back own touch }
{
    let Touch {
        page,
        offset,
        byte,
        ..
    } = touch;
    match own {
        Some(_) => Turn {
            reply: Some(Reply::Done),
            step: Some(MapChange::Own { page, offset, byte }),
        },
        None => match back {
            Back::Shared { file, page: k } => Turn {
                reply: Some(Reply::Done),
                step: Some(MapChange::File {
                    file,
                    page: k,
                    offset,
                    byte,
                }),
            },
            Back::Anon | Back::Private { .. } => Turn {
                reply: None,
                step: Some(MapChange::Copy { page }),
            },
        },
    }
}

/// The turn of an access that is allowed, of a page with bytes.
fn byte_turn(access: Access, seen: Seen, byte: u8, touch: Touch) -> Turn
    ensures { result ≡ byte_turn access seen byte touch }
{
    match access {
        Access::Load | Access::Fetch => answer_alone(Reply::Byte(byte)),
        Access::Store => store_turn(seen.back, seen.own, touch),
    }
}

/// The turn of an access that is allowed.
fn page_turn(seen: Seen, byte: Option<u8>, touch: Touch) -> Turn
    ensures { result ≡ page_turn seen byte touch }
{
    match byte {
        None => answer_alone(Reply::Bus),
        Some(byte) => byte_turn(touch.access, seen, byte, touch),
    }
}

/// The turn of an access of a place that shows this.
fn touch_turn(seen: Option<Seen>, byte: Option<u8>, touch: Touch) -> Turn
    ensures { result ≡ touch_turn seen byte touch }
{
    match seen {
        None => answer_alone(Reply::Segv(SegvCode::MapErr)),
        Some(seen) => {
            if allows(seen.prot, touch.access) {
                page_turn(seen, byte, touch)
            } else {
                answer_alone(Reply::Segv(SegvCode::AccErr))
            }
        }
    }
}

/// The turn of an access.
fn access_turn<A: Allocator>(objects: &Objects<A>, steps: &[MapChange], touch: Touch) -> Turn
    requires offset { touch.offset < 4096 }
    requires sound { AreSound steps.now }
    ensures { IsTouchTurn (map_of objects.now steps.now) touch result }
{
    let spot = Spot {
        page: touch.page,
        offset: touch.offset,
    };
    let seen = look(objects, steps, spot);
    let byte = shown_byte(objects, steps, seen, spot.offset);
    touch_turn(seen, byte, touch)
}

/// The turn of an mprotect: refused where a page isn't mapped, or may not be made writable.
fn protect_turn<A: Allocator>(
    objects: &Objects<A>,
    steps: &[MapChange],
    range: PageRange,
    prot: Prot,
) -> Turn
    requires change { IsSoundChange (ChangeOf.Protect range prot) }
    requires sound { AreSound steps.now }
    ensures { IsChangeTurn (map_of objects.now steps.now) (ChangeOf.Protect range prot) result }
{
    if has_absent(objects, steps, range) {
        return answer_alone(Reply::Refused(Errno::ENOMEM));
    }
    if prot.write && has_read_only(objects, steps, range) {
        return answer_alone(Reply::Refused(Errno::EACCES));
    }
    Turn {
        reply: Some(Reply::Done),
        step: Some(MapChange::Change(Change::Protect { range, prot })),
    }
}

/// The turn of a change of a range.
fn change_turn<A: Allocator>(objects: &Objects<A>, steps: &[MapChange], change: Change) -> Turn
    requires change { IsSoundChange change }
    requires sound { AreSound steps.now }
    ensures { IsChangeTurn (map_of objects.now steps.now) change result }
{
    match change {
        Change::Put { range, .. } => Turn {
            reply: Some(Reply::Mapped(range.first * PAGE_SIZE)),
            step: Some(MapChange::Change(change)),
        },
        Change::Clear { .. } => Turn {
            reply: Some(Reply::Done),
            step: Some(MapChange::Change(change)),
        },
        Change::Protect { range, prot } => protect_turn(objects, steps, range, prot),
    }
}

/// The turn of a plan, which isn't that of a mapping whose place is still open.
fn plan_turn<A: Allocator>(objects: &Objects<A>, steps: &[MapChange], plan: Plan) -> Turn
    requires plan { IsSoundPlan plan }
    requires named { (place : Place) → plan ≡ PlanOf.Place place → ⊥ }
    requires sound { AreSound steps.now }
    ensures { IsPlanTurn (map_of objects.now steps.now) plan result }
{
    match plan {
        Plan::Touch(touch) => access_turn(objects, steps, touch),
        Plan::Change(change) => change_turn(objects, steps, change),
        Plan::Place(_) => unreachable!(),
    }
}

/// What the turn of a core's request comes to, which leaves no place open.
pub(crate) fn turn_of<A: Allocator>(
    objects: &Objects<A>,
    steps: &[MapChange],
    core: CoreId,
    request: Request,
) -> Turn
    requires named { is_placed request ≡ false }
    requires sound { AreSound steps.now }
    ensures turns { TurnsTo (map_of objects.now steps.now) core request result.reply
        (after_any (map_of objects.now steps.now) result.step) }
    ensures sound { IfSome result.step IsSoundStep }
{
    match check(objects, core, request) {
        Err(reply) => answer_alone(reply),
        Ok(plan) => plan_turn(objects, steps, plan),
    }
}
