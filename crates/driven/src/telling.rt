//! Steps of a core's call that tell what they owe to real page tables and to the bytes of frames.
ghost use Rattle.std.specs.Prelude.{◌≡◌, ◌<◌, true, IfSome};
ghost use Rattle.vm_base.specs.Pages.{is_page};
ghost use Rattle.core_steps.specs.Machine.{state, IsLegal};
ghost use Rattle.slot_lock.specs.Plan.{IsSoundTouch};
ghost use Rattle.machine_model.specs.Files.{back_of};
ghost use Rattle.real_mmu.specs.Fills.{due_in, source_of};
ghost use Rattle.real_mmu.specs.Remembered.{own_range};
ghost use Rattle.driven.specs.Telling.{touch_in, origin_of, fill_of, fill_due, fill_made, joined, told_by, nothing_told, is_second};
ghost use Rattle.driven.specs.Telling.{TriesTelling, GoesTelling, CallsTelling};

use core_steps::Machine;
use machine_log::Ledger;
use machine_model::answers::{back_of, page_of_touch};
use machine_model::{Event, Outcome, Phase};
use slot_lock::SlotMap;
use std::alloc::Allocator;
use vm_base::{Back, CoreId, NoMemory, PageRange, Request};

/// Where the bytes of a new frame come from.
#[derive(Clone, Copy)]
pub enum Origin {
    /// They are all 0.
    Zero,
    /// They are those that this frame has.
    Frame(u32),
    /// They are those of a page of a file, as the file was opened.
    File { file: u32, page: u64 },
}

/// A frame that a page got, and where its bytes come from.
#[derive(Clone, Copy)]
pub struct FrameFill {
    /// The page.
    pub page: u64,
    /// The frame.
    pub frame: u32,
    /// Where its bytes come from.
    pub from: Origin,
}

/// What steps of a core's call told.
#[derive(Clone, Copy)]
pub struct Told {
    /// The pages of which the core dropped its translations.
    pub own: Option<PageRange>,
    /// The frame that a page got.
    pub fill: Option<FrameFill>,
}

// The pages of which the call's next step has its core drop its translations.
fn own_range(phase: Phase) -> Option<PageRange>
    requires { IfSome (touch_in phase) IsSoundTouch }
    ensures { result ≡ own_range phase }
{
    match phase {
        Phase::Post { change, .. } => Some(change.range()),
        Phase::CopyPost { touch, .. } => Some(page_of_touch(touch)),
        _ => None,
    }
}

/// Where the bytes of a new frame of a page with this backing come from.
pub(crate) fn source_at<M: SlotMap, A: Allocator + Clone, L: Ledger>(
    machine: &Machine<M, A, L>,
    back: Back,
) -> Origin
    ensures { result ≡ origin_of (source_of (state machine.now).memory.cached back) }
{
    match back {
        Back::Anon => Origin::Zero,
        Back::Shared { file, page } | Back::Private { file, page } => match machine.cached(
            file, page,
        ) {
            Some(frame) => Origin::Frame(frame),
            None => Origin::File { file, page },
        },
    }
}

// The page and the frame, with where its bytes come from.
fn fill_of<M: SlotMap, A: Allocator + Clone, L: Ledger>(
    machine: &Machine<M, A, L>,
    page: u64,
    frame: u32,
) -> FrameFill
    requires { is_page page ≡ true }
    ensures { result ≡ fill_of (state machine.now) page frame }
{
    let info = machine.page(page);
    FrameFill {
        page,
        frame,
        from: source_at(machine, back_of(&info)),
    }
}

// The frame that the call's next step may give its page.
fn fill_due<M: SlotMap, A: Allocator + Clone, L: Ledger>(
    machine: &Machine<M, A, L>,
    phase: Phase,
) -> Option<FrameFill>
    requires { IfSome (touch_in phase) IsSoundTouch }
    ensures value { result ≡ fill_due (state machine.now) (due_in phase) }
    ensures page { IfSome result (λ x. is_page x.page ≡ true) }
{
    match phase {
        Phase::Fill {
            touch,
            frame: Some(frame),
        } => Some(fill_of(machine, touch.page, frame)),
        Phase::CopyAcks { touch, frame } => Some(fill_of(machine, touch.page, frame)),
        _ => None,
    }
}

// What was due, if the page has the frame now.
fn fill_made<M: SlotMap, A: Allocator + Clone, L: Ledger>(
    machine: &Machine<M, A, L>,
    due: &Option<FrameFill>,
) -> Option<FrameFill>
    requires { IfSome due.now (λ x. is_page x.page ≡ true) }
    ensures { result ≡ fill_made (state machine.now) due.now }
{
    match due {
        None => None,
        Some(fill) => {
            let info = machine.page(fill.page)?;
            let frame = info.frame?;
            if frame == fill.frame {
                Some(*fill)
            } else {
                None
            }
        }
    }
}

// What was told, with what is told now.
fn join(told: &mut Told, own: &Option<PageRange>, fill: &Option<FrameFill>)
    ensures { told.new ≡ joined told.old (told_by own.now fill.now) }
{
    if let Some(range) = own {
        told.own = Some(*range);
    }
    if let Some(fill) = fill {
        told.fill = Some(*fill);
    }
}

// Where the core's call stands.
fn stand<M: SlotMap, A: Allocator + Clone, L: Ledger>(
    machine: &Machine<M, A, L>,
    core: CoreId,
) -> Phase
    requires { core < (state machine.now).made.cores }
    ensures value { result ≡ (state machine.now).calls.phase core }
    ensures sound { IfSome (touch_in result) IsSoundTouch }
{
    machine.phase(core)
}

// A step of the core's call. What it tells joins what was told. A refusal for memory changes nothing.
fn step_telling<M: SlotMap, A: Allocator + Clone, L: Ledger>(
    machine: &mut Machine<M, A, L>,
    core: CoreId,
    told: &mut Told,
) -> Result<Outcome, NoMemory>
    requires { core < (state machine.old).made.cores }
    ensures { TriesTelling L.keeps (state machine.old) core told.old result told.new (state machine.new) }
{
    let first = stand(machine, core);
    let own = own_range(first);
    let again = stand(machine, core);
    let due = fill_due(machine, again);
    let Ok(outcome) = machine.step(Event::Go(core)) else {
        return Err(NoMemory);
    };
    let fill = fill_made(machine, &due);
    join(told, &own, &fill);
    Ok(outcome)
}

// Whether the next step would have a second thing to tell.
fn is_second(told: &Told, phase: Phase) -> bool
    ensures { result ≡ is_second told.now phase }
{
    match phase {
        Phase::Post { .. } | Phase::CopyPost { .. } => told.own.is_some(),
        Phase::Fill { frame: Some(_), .. } | Phase::CopyAcks { .. } => told.fill.is_some(),
        _ => false,
    }
}

/// Nothing is told.
pub const NOTHING: Told = Told {
    own: None,
    fill: None,
};

/// How many steps a call goes on at the most.
const STEP_LIMIT: u64 = 1 << 40;

/// The core's call goes on until a step isn't `Stepped`, and what its steps tell is written. Where a step would have a
/// second thing to tell, it stops before it, with `Stepped`; so it does after 2^40 steps. After a refusal for memory the
/// steps before it stay made and told.
pub fn go_telling<M: SlotMap, A: Allocator + Clone, L: Ledger>(
    machine: &mut Machine<M, A, L>,
    core: CoreId,
    told: &mut Told,
) -> Result<Outcome, NoMemory>
    requires here { core < (state machine.old).made.cores }
    requires nothing { told.old ≡ nothing_told }
    ensures goes { GoesTelling L.keeps (state machine.old) core told.new result (state machine.new) }
    ensures made { (state machine.new).made ≡ (state machine.old).made }
{
    'steps: for _step in 0..STEP_LIMIT {
        if is_second(told, machine.phase(core)) {
            return Ok(Outcome::Stepped);
        }
        let Ok(outcome) = step_telling(machine, core, told) else {
            return Err(NoMemory);
        };
        if outcome != Outcome::Stepped {
            return Ok(outcome);
        }
    }
    Ok(Outcome::Stepped)
}

/// A call of the core begins, if it has none, and goes on as `go_telling` says.
pub fn call_telling<M: SlotMap, A: Allocator + Clone, L: Ledger>(
    machine: &mut Machine<M, A, L>,
    core: CoreId,
    request: Request,
    told: &mut Told,
) -> Result<Outcome, NoMemory>
    requires here { core < (state machine.old).made.cores }
    requires nothing { told.old ≡ nothing_told }
    ensures calls { CallsTelling L.keeps (state machine.old) core request told.new result (state machine.new) }
    ensures made { (state machine.new).made ≡ (state machine.old).made }
{
    let Ok(outcome) = machine.step(Event::Call(core, request)) else {
        return Err(NoMemory);
    };
    if outcome != Outcome::Stepped {
        return Ok(outcome);
    }
    go_telling(machine, core, told)
}
