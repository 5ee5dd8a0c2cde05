//! What a thread asks of its seat.
ghost use Rattle.std.specs.Prelude.{◌≡◌, ◌≤◌, ◌++◌, ◌∷◌, IfSome, IfNone, length, map};
ghost use Rattle.std.specs.Arc.{arc_value};
ghost use Rattle.shared.specs.Cores.{Answers, AnswersAll, Passes, told_of};
ghost use Rattle.coded.specs.Asked.{aside_of, asked_of};
ghost use Rattle.coded.specs.Codes.{reply_code};
ghost use Rattle.radixvm_c.specs.Rooms.{IsIn};
ghost use Rattle.radixvm_c.specs.Seats.{core_in, core_on, placed_state, IsSplit, SplitsSeat, SplitsChair, TellsSplit};
ghost use Rattle.radixvm_c.specs.Seats.{TellsAnswer, TellsPassed, PassesOn, TriesOn, TellsTry, stop_status, calls_done, CallsOn, TellsCalls};
ghost use Rattle.radixvm_c.specs.Seats.{AreBeside, TakesIn, TellsReturn};

use crate::chair::{Chair, HeldSeat, Room};
use crate::chair_handle::ChairHandle;
use crate::placed::Placed;
use crate::sharing::{DONE, EMPTY, IN_USE, NO_MEMORY, new_chair};
use coded::asked::{aside_of, asked_of};
use coded::batch::{Done, refusal_done, refusal_of};
use coded::codes::{RawEvent, RawOutcome, outcome_code, reply_code};
use coded::opening::Refusal;
use machine_model::Outcome;
use shared::{Answer, Aside, Calls, CoreSeat, Passed, SeriesEnd};
use std::alloc::Global;
use std::sync::Arc;
use vm_base::Request;

/// The status of an event that no seat takes.
const BAD_EVENT: u32 = 1;

/// The status where all cores have a seat.
const ABSENT: u32 = 9;

/// The status where another seat is in a call.
const BUSY: u32 = 17;

/// The status of calls that a limit of the machine stopped.
const AT_LIMIT: u32 = 20;

// ---- one more seat

// One more core of the space that the room has.
fn split_core(room: &Room, core: &mut CoreSeat<Placed>) -> Option<CoreSeat<Placed>>
    requires { IsIn (arc_value room.now) core.old }
    ensures some { IfSome result (λ other. IsSplit core.old other core.new) }
    ensures none { IfNone result ((core.old.spare ≡ 0) × (core.new ≡ core.old)) }
{
    match &**room {
        Some(space) => space.split(core),
        None => unreachable!(),
    }
}

// One more seat beside this one.
fn split_seat(seat: &mut HeldSeat) -> Result<HeldSeat, u32>
    ensures { SplitsSeat seat.old.core result seat.new.core }
{
    let Ok(room) = Arc::try_clone(&seat.room) else {
        return Err(NO_MEMORY);
    };
    match split_core(&room, &mut seat.core) {
        Some(core) => Ok(HeldSeat { room, core }),
        None => Err(ABSENT),
    }
}

fn split_chair(chair: &mut Chair) -> Result<HeldSeat, u32>
    ensures { SplitsChair (core_on chair.old) result (core_on chair.new) }
{
    match chair {
        Chair::Vacant => Err(EMPTY),
        Chair::Taken(seat) => split_seat(seat),
    }
}

/// Splits off a core into an empty handle: the last one that has no seat yet. Where there is none, or no memory, all is as it was.
pub fn split(alloc: Global, first: &mut ChairHandle, other: &mut ChairHandle) -> u32
    ensures { TellsSplit (core_in first.old.value) other.old.value result (core_in first.new.value)
        other.new.value }
{
    if !first.has_seat() {
        return EMPTY;
    }
    if other.is_open() {
        return IN_USE;
    }
    let Some(mut place) = new_chair(alloc) else {
        return NO_MEMORY;
    };
    match split_chair(first.get_mut()) {
        Ok(seat) => {
            let _vacant = Box::replace(&mut place, Chair::Taken(seat));
            other.put(place);
            DONE
        }
        Err(status) => status,
    }
}

// ---- a call

// Tells the answer.
fn tell(answer: Answer, told: &mut RawOutcome) -> u32
    ensures { TellsAnswer answer told.old result told.new }
{
    match answer {
        Answer::Reply(reply) => {
            *told = reply_code(reply);
            DONE
        }
        Answer::Full => {
            *told = outcome_code(Outcome::Full);
            DONE
        }
        Answer::Busy => BUSY,
    }
}

// Writes the outcome of the aside.
fn tell_passed(passed: Passed, told: &mut RawOutcome) -> u32
    ensures { TellsPassed passed told.old result told.new }
{
    match passed {
        Passed::Came(outcome) => {
            *told = outcome_code(outcome);
            DONE
        }
        Passed::Busy => BUSY,
    }
}

fn call_on(room: &Room, core: &mut CoreSeat<Placed>, request: Request) -> Answer
    requires here { IsIn (arc_value room.now) core.old }
    ensures answers { Answers placed_state core.old request result core.new }
    ensures here { IsIn (arc_value room.now) core.new }
{
    match &**room {
        Some(space) => space.call(core, request),
        None => unreachable!(),
    }
}

fn aside_on(room: &Room, core: &mut CoreSeat<Placed>, aside: Aside) -> Passed
    requires here { IsIn (arc_value room.now) core.old }
    ensures passes { Passes placed_state core.old aside result core.new }
    ensures here { IsIn (arc_value room.now) core.new }
{
    match &**room {
        Some(space) => space.aside(core, aside),
        None => unreachable!(),
    }
}

// What the event does beside calls, if it does that.
fn pass_seat(seat: &mut HeldSeat, raw: &RawEvent, told: &mut RawOutcome) -> u32
    ensures { PassesOn seat.old.core (aside_of raw.now) told.old result told.new seat.new.core }
{
    let Some(aside) = aside_of(raw) else {
        return BAD_EVENT;
    };
    tell_passed(aside_on(&seat.room, &mut seat.core, aside), told)
}

fn try_seat(seat: &mut HeldSeat, raw: &RawEvent, told: &mut RawOutcome) -> u32
    ensures { TriesOn seat.old.core raw.now told.old result told.new seat.new.core }
{
    let Some(request) = asked_of(raw) else {
        return pass_seat(seat, raw, told);
    };
    tell(call_on(&seat.room, &mut seat.core, request), told)
}

/// A whole call of the seat's core, or a step beside calls; or the answer is that another seat is in a call.
pub fn try_chair(chair: &mut Chair, raw: &RawEvent, told: &mut RawOutcome) -> u32
    ensures { TellsTry (core_on chair.old) raw.now told.old result told.new (core_on chair.new) }
{
    match chair {
        Chair::Vacant => EMPTY,
        Chair::Taken(seat) => try_seat(seat, raw, told),
    }
}

// ---- many calls

fn calls_on(
    room: &Room,
    core: &mut CoreSeat<Placed>,
    raws: &[RawEvent],
    told: &mut [RawOutcome],
) -> Calls
    requires here { IsIn (arc_value room.now) core.old }
    requires room { length raws.now ≤ length told.old }
    ensures answers { AnswersAll placed_state core.old (map asked_of raws.now) reply_code told.old result told.new core.new }
    ensures here { IsIn (arc_value room.now) core.new }
{
    match &**room {
        Some(space) => space.call_all(core, raws, told),
        None => unreachable!(),
    }
}

fn stop_status(stop: SeriesEnd) -> u32
    ensures { result ≡ stop_status stop }
{
    match stop {
        SeriesEnd::Done => DONE,
        SeriesEnd::NoCall => BAD_EVENT,
        SeriesEnd::NoMemory => NO_MEMORY,
        SeriesEnd::Refused | SeriesEnd::Spent => AT_LIMIT,
    }
}

fn calls_done(calls: Calls) -> Done
    ensures { result ≡ calls_done calls }
{
    match calls {
        Calls::Made(series) => Done {
            status: stop_status(series.stop),
            count: series.made as u64,
        },
        Calls::Busy => Done {
            status: BUSY,
            count: 0,
        },
    }
}

fn call_seat(seat: &mut HeldSeat, raws: &[RawEvent], told: &mut [RawOutcome]) -> Done
    ensures { CallsOn seat.old.core raws.now told.old result told.new seat.new.core }
{
    if let Some(refusal) = refusal_of(0, 0, raws.len(), told.len()) {
        return refusal_done(refusal);
    }
    calls_done(calls_on(&seat.room, &mut seat.core, raws, told))
}

/// Whole calls of the seat's core, one after another; or the answer is that another seat is in a call.
pub fn call_chair(chair: &mut Chair, raws: &[RawEvent], told: &mut [RawOutcome]) -> Done
    ensures { TellsCalls (core_on chair.old) raws.now told.old result told.new (core_on chair.new) }
{
    match chair {
        Chair::Vacant => refusal_done(Refusal::Empty),
        Chair::Taken(seat) => call_seat(seat, raws, told),
    }
}

// ---- a seat that is done

fn take_core(room: &Room, core: &mut CoreSeat<Placed>, other: CoreSeat<Placed>)
    requires here { IsIn (arc_value room.now) core.old }
    requires beside { other.space ≡ core.old.space }
    ensures { core.new ≡ record core.old { others = core.old.others ++ told_of other ∷ other.others } }
{
    match &**room {
        Some(space) => space.take_in(core, other),
        None => unreachable!(),
    }
}

// The core of a seat, which gives its room up.
fn core_from(seat: HeldSeat) -> CoreSeat<Placed>
    ensures { result ≡ seat.core }
{
    let HeldSeat { room: _room, core } = seat;
    core
}

fn take_seat(first: &mut HeldSeat, other: HeldSeat)
    requires { other.core.space ≡ first.old.core.space }
    ensures { first.new.core ≡ record first.old.core { others = first.old.core.others ++ told_of other.core ∷ other.core.others } }
{
    take_core(&first.room, &mut first.core, core_from(other))
}

fn take_chair(first: &mut Chair, other: Chair)
    requires { AreBeside (core_on first.old) (core_on other) }
    ensures { TakesIn (core_on first.old) (core_on other) (core_on first.new) }
{
    match (first, other) {
        (Chair::Taken(first), Chair::Taken(other)) => take_seat(first, other),
        _ => {}
    }
}

/// Takes the core of the other seat in, whose handle is left empty. Both are of one machine.
pub fn give_back(alloc: Global, first: &mut ChairHandle, other: &mut ChairHandle) -> u32
    requires { AreBeside (core_in first.old.value) (core_in other.old.value) }
    ensures { TellsReturn (core_in first.old.value) (core_in other.old.value) result
        (core_in first.new.value) other.new.value }
{
    if !first.has_seat() || !other.has_seat() {
        return EMPTY;
    }
    let chair = Box::into_inner(other.take(alloc));
    take_chair(first.get_mut(), chair);
    DONE
}
