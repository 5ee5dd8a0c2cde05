//! A machine that decides what real page tables may translate, and that is told of faults instead of accesses.
ghost use Rattle.std.specs.Prelude.{◌≡◌, ◌<◌, ◌↔◌, IsTrue, Some};
ghost use Rattle.vm_base.specs.Pages.{is_page};
ghost use Rattle.machine_model.specs.Holding.{awaits_in, plan_in};
ghost use Rattle.core_steps.specs.Machine.{state};
ghost use Rattle.coded.specs.Holding.{held_state, GoesOn};
ghost use Rattle.driven.specs.Driving.{core_in, touch_request, change_request, with_fill, filled_of, own_code};
ghost use Rattle.driven.specs.Driving.{drop_code, drive_code, page_touched, both, HasSender, IsSender, IsSent, TellsDrop};
ghost use Rattle.driven.specs.Driving.{TouchesOn, ChangesOn, ResumesOn, TakesDrop};

use crate::telling::{FrameFill, NOTHING, Origin, call_telling, go_telling};
use crate::touching::touch_telling;
use coded::asked::asked_of;
use coded::codes::{RawEvent, RawOutcome, core_of, outcome_code};
use coded::held::AnyMachine;
use core_steps::Machine;
use machine_log::Ledger;
use machine_model::Phase;
use mmu::Took;
use slot_lock::{Goal, SlotMap};
use std::alloc::Allocator;
use vm_base::{CoreId, PageRange, Request, is_valid, page_of};

/// What a touch comes to, as C reads it.
#[repr(C)]
#[derive(Clone, Copy, Drop)]
pub struct RawFilled {
    /// The core's entry of the page, 0 where it has none.
    pub word: u64,
    /// The page.
    pub page: u64,
    /// The page's frame, 0 where it has none.
    pub frame: u32,
    /// 1 where the frame is new and its bytes are 0, 2 where they are those of another frame, 3 where they are those of
    /// a file's page; else 0.
    pub fill: u32,
    /// The other frame, or the file's page; else 0.
    pub from: u64,
    /// The file; else 0.
    pub file: u32,
}

/// Pages of which a core is to drop its translations, as C reads them.
#[repr(C)]
#[derive(Clone, Copy, Drop)]
pub struct RawDrop {
    /// The first page.
    pub first: u64,
    /// The page after the last.
    pub end: u64,
    /// 1 at the first take of a message, 2 at the second, 3 where the core's own call drops them; else 0.
    pub what: u32,
    /// The core whose call asks for it.
    pub from: u32,
}

/// Why the machine did nothing, or didn't come to an outcome.
#[derive(Clone, Copy)]
pub enum DriveStop {
    /// There is no such core.
    Absent,
    /// What is asked for is none.
    BadEvent,
    /// The core has a call.
    InFlight,
    /// Memory was refused to a step.
    NoMemory,
    /// Frames didn't come back within the rounds that are made.
    Limit,
}

const NO_FILLED: RawFilled = RawFilled {
    word: 0,
    page: 0,
    frame: 0,
    fill: 0,
    from: 0,
    file: 0,
};

const NO_DROP: RawDrop = RawDrop {
    first: 0,
    end: 0,
    what: 0,
    from: 0,
};

/// The machine's core of this number.
pub(crate) fn core_in<M: SlotMap, A: Allocator + Clone, L: Ledger>(
    machine: &Machine<M, A, L>,
    core: u32,
) -> Option<CoreId>
    ensures { result ≡ core_in (state machine.now) core }
{
    if core as usize >= machine.cores() {
        return None;
    }
    core_of(core)
}

// The access of a fault. A store stores 0, since the machine's own bytes stay so.
fn touch_request(kind: u32, at: u64) -> Option<Request>
    ensures { result ≡ touch_request kind at }
{
    match kind {
        4 => Some(Request::Load { addr: at }),
        5 => Some(Request::Store { addr: at, byte: 0 }),
        6 => Some(Request::Fetch { addr: at }),
        _ => None,
    }
}

// The request of an event that begins a change.
fn change_request(raw: &RawEvent) -> Option<Request>
    ensures { result ≡ change_request raw.now }
{
    if raw.kind >= 4 {
        return None;
    }
    asked_of(raw)
}

// What a touch comes to, with the frame that the page got, if it got one, and where its bytes come from.
fn with_fill(shown: RawFilled, fill: &Option<FrameFill>) -> RawFilled
    ensures { result ≡ with_fill shown fill.now }
{
    let Some(fill) = fill else { return shown };
    let filled = RawFilled {
        frame: fill.frame,
        ..shown
    };
    match fill.from {
        Origin::Zero => RawFilled { fill: 1, ..filled },
        Origin::Frame(frame) => RawFilled {
            fill: 2,
            from: u64::from(frame),
            ..filled
        },
        Origin::File { file, page } => RawFilled {
            fill: 3,
            from: page,
            file,
            ..filled
        },
    }
}

// What the machine has of the page that got a frame, or else of this one, if there is one.
fn filled_of<M: SlotMap, A: Allocator + Clone, L: Ledger>(
    machine: &Machine<M, A, L>,
    core: CoreId,
    touched: Option<u64>,
    fill: &Option<FrameFill>,
) -> RawFilled
    requires { core < (state machine.now).made.cores }
    ensures { result ≡ filled_of (state machine.now) core touched fill.now }
{
    let told = match fill {
        Some(fill) => Some(fill.page),
        None => touched,
    };
    let Some(page) = told else { return NO_FILLED };
    if !is_valid(page) {
        return NO_FILLED;
    }
    let word = machine.entry(core, page).unwrap_or(0);
    let frame = match machine.page(page) {
        Some(info) => info.frame.unwrap_or(0),
        None => 0,
    };
    let shown = RawFilled {
        word,
        page,
        frame,
        fill: 0,
        from: 0,
        file: 0,
    };
    with_fill(shown, fill)
}

fn drop_code(range: PageRange, what: u32, from: u32) -> RawDrop
    ensures { result ≡ drop_code range what from }
{
    RawDrop {
        first: range.first,
        end: range.end,
        what,
        from,
    }
}

// What the core's own call drops.
fn own_code(core: CoreId, own: Option<PageRange>) -> RawDrop
    ensures { result ≡ own_code core own }
{
    match own {
        None => NO_DROP,
        Some(range) => drop_code(range, 3, u32::from(core.index())),
    }
}

/// A page fault of the core: its TLB drops the page, and the access is made, to its end or until it waits.
pub fn touch<M: SlotMap, A: Allocator + Clone, L: Ledger>(
    machine: &mut Machine<M, A, L>,
    core: u32,
    at: u64,
    kind: u32,
    told: &mut RawOutcome,
    filled: &mut RawFilled,
) -> Result<(), DriveStop>
    ensures { TouchesOn L.keeps (state machine.old) core at kind told.old filled.old result told.new filled.new
        (state machine.new) }
{
    let Some(core) = core_in(machine, core) else {
        return Err(DriveStop::Absent);
    };
    let Some(request) = touch_request(kind, at) else {
        return Err(DriveStop::BadEvent);
    };
    if !machine.phase(core).is_free() {
        return Err(DriveStop::InFlight);
    }
    let mut dues = NOTHING;
    let ended = touch_telling(machine, core, at, request, &mut dues);
    *filled = filled_of(machine, core, Some(page_of(at)), &dues.fill);
    let Ok(outcome) = ended else {
        return Err(DriveStop::NoMemory);
    };
    *told = outcome_code(outcome);
    Ok(())
}

/// A change is made, to its end or until it waits.
pub fn change<M: SlotMap, A: Allocator + Clone, L: Ledger>(
    machine: &mut Machine<M, A, L>,
    raw: &RawEvent,
    told: &mut RawOutcome,
    own: &mut RawDrop,
) -> Result<(), DriveStop>
    ensures { ChangesOn L.keeps (state machine.old) raw.now told.old own.old result told.new own.new (state machine.new) }
{
    let Some(core) = core_in(machine, raw.core) else {
        return Err(DriveStop::Absent);
    };
    let Some(request) = change_request(raw) else {
        return Err(DriveStop::BadEvent);
    };
    if !machine.phase(core).is_free() {
        return Err(DriveStop::InFlight);
    }
    let mut dues = NOTHING;
    let ended = call_telling(machine, core, request, &mut dues);
    *own = own_code(core, dues.own);
    let Ok(outcome) = ended else {
        return Err(DriveStop::NoMemory);
    };
    *told = outcome_code(outcome);
    Ok(())
}

// The page of the access that the core's call makes.
fn page_touched(phase: Phase) -> Option<u64>
    ensures { result ≡ page_touched (plan_in phase) }
{
    match phase {
        Phase::Lock {
            goal: Goal::Access(touch),
            ..
        } => Some(touch.page),
        Phase::Acks {
            goal: Goal::Access(touch),
            ..
        } => Some(touch.page),
        Phase::Try(touch) => Some(touch.page),
        Phase::Settle(touch) => Some(touch.page),
        Phase::Want { touch, .. } => Some(touch.page),
        Phase::Fill { touch, .. } => Some(touch.page),
        Phase::CopyPost { touch, .. } => Some(touch.page),
        Phase::CopyAcks { touch, .. } => Some(touch.page),
        Phase::Install(touch) => Some(touch.page),
        Phase::Release(touch) => Some(touch.page),
        _ => None,
    }
}

/// The core's call goes on, to its end or until it waits.
pub fn go_on<M: SlotMap, A: Allocator + Clone, L: Ledger>(
    machine: &mut Machine<M, A, L>,
    core: u32,
    told: &mut RawOutcome,
    filled: &mut RawFilled,
    own: &mut RawDrop,
) -> Result<(), DriveStop>
    ensures { ResumesOn L.keeps (state machine.old) core told.old (both filled.old own.old) result told.new
        (both filled.new own.new) (state machine.new) }
{
    let Some(core) = core_in(machine, core) else {
        return Err(DriveStop::Absent);
    };
    let touched = page_touched(machine.phase(core));
    let mut dues = NOTHING;
    let ended = go_telling(machine, core, &mut dues);
    *filled = filled_of(machine, core, touched, &dues.fill);
    *own = own_code(core, dues.own);
    let Ok(outcome) = ended else {
        return Err(DriveStop::NoMemory);
    };
    *told = outcome_code(outcome);
    Ok(())
}

// Whether the call awaits that these pages are dropped.
fn awaits(phase: Phase, range: PageRange) -> bool
    ensures { IsTrue result ↔ (awaits_in phase ≡ Some range) }
{
    match phase {
        Phase::Acks { change, .. } => change.range() == range,
        Phase::CopyAcks { touch, .. } => {
            touch.page == range.first && range.first < range.end && range.end - range.first == 1
        }
        _ => false,
    }
}

// The core whose call awaits that these pages are dropped.
fn sender<M: SlotMap, A: Allocator + Clone, L: Ledger>(
    machine: &Machine<M, A, L>,
    range: PageRange,
) -> u32
    requires { ∥ HasSender (state machine.now) range ∥₁ }
    ensures { IsSender (state machine.now) range result }
{
    'cores: for index in 0..machine.cores() {
        let core = CoreId::new(index as u8);
        if awaits(machine.phase(core), range) {
            return index as u32;
        }
    }
    unreachable!()
}

// What the message asked for, and whose it is.
fn drop_of<M: SlotMap, A: Allocator + Clone, L: Ledger>(
    machine: &Machine<M, A, L>,
    took: Took,
) -> RawDrop
    requires { IsSent (state machine.now) took }
    ensures { TellsDrop (state machine.now) took result }
{
    match took {
        Took::Clear(range) => drop_code(range, 1, sender(machine, range)),
        Took::Invalidate(range) => drop_code(range, 2, sender(machine, range)),
        Took::Idle => NO_DROP,
    }
}

/// The core does what the oldest message of its inbox asks, which is told.
pub fn take<M: SlotMap, A: Allocator + Clone, L: Ledger>(
    machine: &mut Machine<M, A, L>,
    core: u32,
    drop: &mut RawDrop,
) -> Result<(), DriveStop>
    ensures { TakesDrop (state machine.old) core drop.old result drop.new (state machine.new) }
{
    let Some(core) = core_in(machine, core) else {
        return Err(DriveStop::Absent);
    };
    let took = machine.take(core);
    *drop = drop_of(machine, took);
    Ok(())
}

/// What C reads of it: 0 where it was done.
pub fn drive_code(done: Result<(), DriveStop>) -> u32
    ensures { result ≡ drive_code done }
{
    match done {
        Ok(()) => 0,
        Err(DriveStop::BadEvent) => 1,
        Err(DriveStop::NoMemory) => 2,
        Err(DriveStop::Absent) => 9,
        Err(DriveStop::InFlight) => 18,
        Err(DriveStop::Limit) => 20,
    }
}

/// `touch` on a machine that C holds.
pub fn touch_on(
    held: &mut AnyMachine,
    core: u32,
    at: u64,
    kind: u32,
    told: &mut RawOutcome,
    filled: &mut RawFilled,
) -> Result<(), DriveStop>
    ensures { GoesOn (held_state held.old) (TouchesOn (held_state held.old).keeps (held_state held.old).world core at kind
        told.old filled.old result told.new filled.new) (held_state held.new) }
{
    match held {
        AnyMachine::Plain(machine) => touch(machine, core, at, kind, told, filled),
        AnyMachine::Logged(machine) => touch(machine, core, at, kind, told, filled),
    }
}

/// `change` on a machine that C holds.
pub fn change_on(
    held: &mut AnyMachine,
    raw: &RawEvent,
    told: &mut RawOutcome,
    own: &mut RawDrop,
) -> Result<(), DriveStop>
    ensures { GoesOn (held_state held.old) (ChangesOn (held_state held.old).keeps (held_state held.old).world raw.now
        told.old own.old result told.new own.new) (held_state held.new) }
{
    match held {
        AnyMachine::Plain(machine) => change(machine, raw, told, own),
        AnyMachine::Logged(machine) => change(machine, raw, told, own),
    }
}

/// `go_on` on a machine that C holds.
pub fn go_on_on(
    held: &mut AnyMachine,
    core: u32,
    told: &mut RawOutcome,
    filled: &mut RawFilled,
    own: &mut RawDrop,
) -> Result<(), DriveStop>
    ensures { GoesOn (held_state held.old) (ResumesOn (held_state held.old).keeps (held_state held.old).world core
        told.old (both filled.old own.old) result told.new (both filled.new own.new)) (held_state held.new) }
{
    match held {
        AnyMachine::Plain(machine) => go_on(machine, core, told, filled, own),
        AnyMachine::Logged(machine) => go_on(machine, core, told, filled, own),
    }
}

/// `take` on a machine that C holds.
pub fn take_on(held: &mut AnyMachine, core: u32, drop: &mut RawDrop) -> Result<(), DriveStop>
    ensures { GoesOn (held_state held.old) (TakesDrop (held_state held.old).world core drop.old result drop.new)
        (held_state held.new) }
{
    match held {
        AnyMachine::Plain(machine) => take(machine, core, drop),
        AnyMachine::Logged(machine) => take(machine, core, drop),
    }
}
