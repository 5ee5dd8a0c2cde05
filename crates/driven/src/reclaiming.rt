//! Frames that nothing uses come back.
ghost use Rattle.std.specs.Prelude.{◌≡◌, ◌<◌, true};
ghost use Rattle.core_steps.specs.Machine.{state};
ghost use Rattle.machine_model.specs.declared.event.Event.{Event};
ghost use Rattle.machine_model.specs.Holding.{taken_in};
ghost use Rattle.machine_model.specs.Step.{Step};
ghost use Rattle.coded.specs.Holding.{held_state, GoesOn};
ghost use Rattle.driven.specs.Reclaiming.{CountsSome, IsTaken, IsBack, AllAreBack, BringsBack, Reclaims};

use crate::driving::DriveStop;
use coded::held::AnyMachine;
use core_steps::Machine;
use machine_log::Ledger;
use machine_model::{Event, Outcome, Phase};
use slot_lock::SlotMap;
use std::alloc::Allocator;
use vm_base::CoreId;

/// After so many epochs frames are no longer waited for. A count that became 0 is flushed within two, and its frame is
/// reviewed two epochs later, or four where the count left 0 in between.
const EPOCHS: u64 = 8;

/// How many rounds are made at the most.
const ROUNDS: u64 = 1 << 40;

/// How many more flushes a core makes in a round: it has at most 64 counts, and then ends its part of the epoch.
const FLUSHES: u32 = 64;

// The core flushes one of its counts, or ends its part of the epoch.
fn flush<M: SlotMap, A: Allocator + Clone, L: Ledger>(
    machine: &mut Machine<M, A, L>,
    core: CoreId,
) -> Outcome
    ensures { Step (state machine.old) (Event.Flush core) result (state machine.new) }
{
    match machine.step(Event::Flush(core)) {
        Ok(outcome) => outcome,
        Err(_) => unreachable!(),
    }
}

// The core reviews the frame at the front of its queue.
fn review<M: SlotMap, A: Allocator + Clone, L: Ledger>(
    machine: &mut Machine<M, A, L>,
    core: CoreId,
) -> Outcome
    ensures { Step (state machine.old) (Event.Review core) result (state machine.new) }
{
    match machine.step(Event::Review(core)) {
        Ok(outcome) => outcome,
        Err(_) => unreachable!(),
    }
}

// The core flushes all its counts, and ends its part of the epoch.
fn flush_core<M: SlotMap, A: Allocator + Clone, L: Ledger>(
    machine: &mut Machine<M, A, L>,
    core: CoreId,
)
    ensures { CountsSome (state machine.old) (state machine.new) }
{
    let epoch = machine.epoch();
    let mut outcome = flush(machine, core);
    'flushes: for _flush in 0..FLUSHES {
        if outcome != Outcome::Stepped || machine.epoch() != epoch {
            return;
        }
        outcome = flush(machine, core);
    }
}

// The core reviews each frame that is due.
fn review_core<M: SlotMap, A: Allocator + Clone, L: Ledger>(
    machine: &mut Machine<M, A, L>,
    core: CoreId,
)
    ensures { CountsSome (state machine.old) (state machine.new) }
{
    let mut outcome = review(machine, core);
    'reviews: for _review in 0..machine.frames() {
        if outcome != Outcome::Stepped {
            return;
        }
        outcome = review(machine, core);
    }
}

// Each core does its part of the epoch, and reviews what is due.
fn make_round<M: SlotMap, A: Allocator + Clone, L: Ledger>(machine: &mut Machine<M, A, L>)
    ensures { CountsSome (state machine.old) (state machine.new) }
{
    flush_core(machine, CoreId::new(0));
    'flushing: for core in 1..machine.cores() {
        flush_core(machine, CoreId::new(core as u8));
    }
    'reviewing: for core in 0..machine.cores() {
        review_core(machine, CoreId::new(core as u8));
    }
}

// The frame that the call has taken.
fn taken_in(phase: Phase) -> Option<u32>
    ensures { result ≡ taken_in phase }
{
    match phase {
        Phase::Fill { frame, .. } => frame,
        Phase::CopyPost { frame, .. } | Phase::CopyAcks { frame, .. } => Some(frame),
        _ => None,
    }
}

// Whether some call has taken the frame.
fn is_taken<M: SlotMap, A: Allocator + Clone, L: Ledger>(
    machine: &Machine<M, A, L>,
    frame: u32,
) -> bool
    ensures { result ≡ true → IsTaken (state machine.now) frame }
{
    'cores: for core in 0..machine.cores() {
        if taken_in(machine.phase(CoreId::new(core as u8))) == Some(frame) {
            return true;
        }
    }
    false
}

// Whether the frame is free, or used.
fn is_back<M: SlotMap, A: Allocator + Clone, L: Ledger>(
    machine: &Machine<M, A, L>,
    frame: u32,
) -> bool
    requires { frame < (state machine.now).made.frames }
    ensures { result ≡ true → IsBack (state machine.now) frame }
{
    if machine.is_free(frame) {
        return true;
    }
    if machine.true_count(frame) != 0 {
        return true;
    }
    is_taken(machine, frame)
}

// Whether each frame that nothing uses is free.
fn are_back<M: SlotMap, A: Allocator + Clone, L: Ledger>(machine: &Machine<M, A, L>) -> bool
    ensures { result ≡ true → AllAreBack (state machine.now) }
{
    'frames: for frame in 0..machine.frames() {
        if !is_back(machine, frame) {
            return false;
        }
    }
    true
}

// Rounds, until each frame that nothing uses is free.
fn bring_back<M: SlotMap, A: Allocator + Clone, L: Ledger>(
    machine: &mut Machine<M, A, L>,
) -> Result<(), DriveStop>
    ensures { BringsBack (state machine.old) result (state machine.new) }
{
    let first = machine.epoch();
    'rounds: for _round in 0..ROUNDS {
        if are_back(machine) {
            return Ok(());
        }
        if machine.epoch().saturating_sub(first) >= EPOCHS {
            return Err(DriveStop::Limit);
        }
        make_round(machine);
    }
    Err(DriveStop::Limit)
}

/// Frames that nothing uses are brought back: rounds over all cores, each of which flushes its counts and reviews the
/// frames that are due, until no frame is left that isn't free and that nothing uses. How many frames came back is told.
pub fn reclaim<M: SlotMap, A: Allocator + Clone, L: Ledger>(
    machine: &mut Machine<M, A, L>,
    frames: &mut u64,
) -> Result<(), DriveStop>
    ensures { Reclaims (state machine.old) result frames.new (state machine.new) }
{
    let before = machine.free_frames();
    let ended = bring_back(machine);
    let after = machine.free_frames();
    *frames = u64::from(after.saturating_sub(before));
    ended
}

/// `reclaim` on a machine that C holds.
pub fn reclaim_on(held: &mut AnyMachine, frames: &mut u64) -> Result<(), DriveStop>
    ensures { GoesOn (held_state held.old) (Reclaims (held_state held.old).world result frames.new)
        (held_state held.new) }
{
    match held {
        AnyMachine::Plain(machine) => reclaim(machine, frames),
        AnyMachine::Logged(machine) => reclaim(machine, frames),
    }
}
