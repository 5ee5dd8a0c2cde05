//! What a step is to do to TLBs, inboxes and tables, by what the machine tells of itself.
ghost use Rattle.std.specs.Prelude.{◌≡◌, ◌==◌, ◌<◌, ◌/◌, ◌%◌, ◌^◌, nat_lt};
ghost use Rattle.vm_base.specs.Info.{recorded_cores};
ghost use Rattle.core_steps.specs.Machine.{state};
ghost use Rattle.machine_model.specs.Holding.{page_of_touch};
ghost use Rattle.machine_model.specs.declared.phase.Phase.TheVariants.{CopyPost};
ghost use Rattle.state_seen.specs.declared.deed.HardwareStep.TheVariants.{Walk};
ghost use Rattle.state_seen.specs.Deeds.{deed_at, deed_of, if_here};
ghost use Rattle.state_seen.specs.Edits.{edit_at, edit_of, if_edits};
ghost use Rattle.state_seen.specs.declared.edit.TableStep.TheVariants as To;

use crate::deed::HardwareStep;
use crate::edit::TableStep;
use core_steps::Machine;
use machine_log::Ledger;
use machine_model::{Event, Phase};
use mmu::entry::Translation;
use slot_lock::{SlotMap, Touch};
use std::alloc::Allocator;
use vm_base::page::is_valid;
use vm_base::{CoreId, CoreSet, PageInfo, PageRange};

/// Execution is disabled (Intel SDM volume 3A, format of a page-table entry that maps a 4-KByte page).
const NO_EXECUTE: u64 = 1 << 63;

// The entry of these 64 bits, which leads to the frame.
fn decoded(word: u64, frame: u32) -> Translation
    ensures { result ≡ record { frame = frame; write = word / 2 % 2 == 1; exec = nat_lt word (2 ^ 63) } }
{
    Translation {
        frame,
        write: word / 2 % 2 == 1,
        exec: word < NO_EXECUTE,
    }
}

// The frame of a page.
fn frame_of(info: &PageInfo) -> Option<u32>
    ensures { result ≡ info.now.frame }
{
    info.frame
}

/// The entry that the core's tables have of the page.
pub(crate) fn entry_of<M: SlotMap, A: Allocator + Clone, L: Ledger>(
    machine: &Machine<M, A, L>,
    core: CoreId,
    page: u64,
) -> Option<Translation>
    requires { core < (state machine.now).made.cores }
    ensures { result ≡ (state machine.now).hardware.table core page }
{
    let _kept = machine.kept_log();
    if !is_valid(page) {
        return None;
    }
    let Some(word) = machine.entry(core, page) else {
        return None;
    };
    let Some(info) = machine.page(page) else {
        return None;
    };
    let Some(frame) = frame_of(&info) else {
        return None;
    };
    Some(decoded(word, frame))
}

// The cores that are recorded on the page.
fn recorded_on<M: SlotMap, A: Allocator + Clone, L: Ledger>(
    machine: &Machine<M, A, L>,
    page: u64,
) -> CoreSet
    ensures { result ≡ recorded_cores ((state machine.now).slots.info page) }
{
    let _kept = machine.kept_log();
    if !is_valid(page) {
        return CoreSet::empty();
    }
    match machine.page(page) {
        Some(info) => info.cores,
        None => CoreSet::empty(),
    }
}

// The page of an access whose copy is to be made known.
fn page_of_copy<M: SlotMap, A: Allocator + Clone, L: Ledger>(
    machine: &Machine<M, A, L>,
    core: CoreId,
    touch: Touch,
    frame: u32,
) -> PageRange
    requires { (state machine.now).calls.phase core ≡ CopyPost touch frame }
    ensures { result ≡ page_of_touch touch }
{
    let _kept = machine.kept_log();
    PageRange {
        first: touch.page,
        end: touch.page + 1,
    }
}

// What the core's call, which stands so, does by its next step.
fn deed_at<M: SlotMap, A: Allocator + Clone, L: Ledger>(
    machine: &Machine<M, A, L>,
    core: CoreId,
    phase: &Phase,
) -> HardwareStep
    requires here { core < (state machine.now).made.cores }
    requires stands { (state machine.now).calls.phase core ≡ phase.now }
    ensures { result ≡ deed_at (state machine.now) core phase.now }
{
    match phase {
        Phase::Try(touch) => HardwareStep::Translate {
            core,
            touch: *touch,
            entry: entry_of(machine, core, touch.page),
        },
        Phase::Post { change, shoot } => HardwareStep::Shoot {
            core,
            set: *shoot,
            range: change.range(),
        },
        Phase::CopyPost { touch, frame } => HardwareStep::Shoot {
            core,
            set: recorded_on(machine, touch.page),
            range: page_of_copy(machine, core, *touch, *frame),
        },
        _ => HardwareStep::Nothing,
    }
}

// What the core's call does by its next step, if the core is there.
fn deed_of_call<M: SlotMap, A: Allocator + Clone, L: Ledger>(
    machine: &Machine<M, A, L>,
    core: CoreId,
) -> HardwareStep
    ensures { result ≡ if_here (state machine.now) core
        (deed_at (state machine.now) core ((state machine.now).calls.phase core)) }
{
    if usize::from(core.index()) >= machine.cores() {
        return HardwareStep::Nothing;
    }
    let phase = machine.phase(core);
    deed_at(machine, core, &phase)
}

// What a walk of the core's tables for a page does, if the core is there.
fn deed_of_walk<M: SlotMap, A: Allocator + Clone, L: Ledger>(
    machine: &Machine<M, A, L>,
    core: CoreId,
    page: u64,
) -> HardwareStep
    ensures { result ≡ if_here (state machine.now) core
        (Walk core page ((state machine.now).hardware.table core page)) }
{
    if usize::from(core.index()) >= machine.cores() {
        return HardwareStep::Nothing;
    }
    let entry = entry_of(machine, core, page);
    HardwareStep::Walk { core, page, entry }
}

// This deed, if its core is there.
fn if_here<M: SlotMap, A: Allocator + Clone, L: Ledger>(
    machine: &Machine<M, A, L>,
    core: CoreId,
    deed: HardwareStep,
) -> HardwareStep
    ensures { result ≡ if_here (state machine.now) core deed }
{
    if usize::from(core.index()) >= machine.cores() {
        return HardwareStep::Nothing;
    }
    deed
}

/// What the event does, if its core is there.
pub(crate) fn deed_of<M: SlotMap, A: Allocator + Clone, L: Ledger>(
    machine: &Machine<M, A, L>,
    event: &Event,
) -> HardwareStep
    ensures { result ≡ deed_of (state machine.now) event.now }
{
    match event {
        Event::Go(core) => deed_of_call(machine, *core),
        Event::Frame(core, _) => deed_of_call(machine, *core),
        Event::Take(core) => if_here(machine, *core, HardwareStep::Take(*core)),
        Event::Walk(core, page) => deed_of_walk(machine, *core, *page),
        Event::Evict(core, page) => if_here(
            machine,
            *core,
            HardwareStep::Evict {
                core: *core,
                page: *page,
            },
        ),
        _ => HardwareStep::Nothing,
    }
}

// ---- tables

// What the core's call, which stands so, does to its tables by its next step.
fn edit_at<M: SlotMap, A: Allocator + Clone, L: Ledger>(
    machine: &Machine<M, A, L>,
    core: CoreId,
    phase: &Phase,
) -> TableStep
    requires { (state machine.now).calls.phase core ≡ phase.now }
    ensures { result ≡ edit_at core phase.now }
{
    match phase {
        Phase::Post { change, .. } => TableStep::Clear {
            core,
            range: change.range(),
        },
        Phase::CopyPost { touch, frame } => TableStep::Clear {
            core,
            range: page_of_copy(machine, core, *touch, *frame),
        },
        Phase::Install(touch) => TableStep::Install {
            core,
            page: touch.page,
        },
        _ => TableStep::Nothing,
    }
}

// What the core's call does to its tables by its next step, if the core is there.
fn edit_of_call<M: SlotMap, A: Allocator + Clone, L: Ledger>(
    machine: &Machine<M, A, L>,
    core: CoreId,
) -> TableStep
    ensures { result ≡ if_edits (state machine.now) core (edit_at core ((state machine.now).calls.phase core)) }
{
    if usize::from(core.index()) >= machine.cores() {
        return TableStep::Nothing;
    }
    let phase = machine.phase(core);
    edit_at(machine, core, &phase)
}

// What a take does to the core's tables, if the core is there.
fn edit_of_take<M: SlotMap, A: Allocator + Clone, L: Ledger>(
    machine: &Machine<M, A, L>,
    core: CoreId,
) -> TableStep
    ensures { result ≡ if_edits (state machine.now) core (To.Take core) }
{
    if usize::from(core.index()) >= machine.cores() {
        return TableStep::Nothing;
    }
    TableStep::Take(core)
}

/// What the event does to tables.
pub(crate) fn edit_of<M: SlotMap, A: Allocator + Clone, L: Ledger>(
    machine: &Machine<M, A, L>,
    event: &Event,
) -> TableStep
    ensures { result ≡ edit_of (state machine.now) event.now }
{
    match event {
        Event::Go(core) => edit_of_call(machine, *core),
        Event::Frame(core, _) => edit_of_call(machine, *core),
        Event::Take(core) => edit_of_take(machine, *core),
        _ => TableStep::Nothing,
    }
}
