//! What is looked at before and after a step.
ghost use Rattle.std.specs.Prelude.{◌≡◌};
ghost use Rattle.core_steps.specs.Machine.{state};
ghost use Rattle.vm_base.specs.Cores.{members};
ghost use Rattle.frames.specs.Bits.{count_below};
ghost use Rattle.watched.specs.Sums.{in_use, looked, stand_in, stand_of};

use core_steps::Machine;
use machine_log::Ledger;
use machine_model::Phase;
use slot_lock::{Goal, SlotMap};
use std::alloc::Allocator;
use vm_base::{CoreId, CoreSet};

/// How far the core's call has come with an access, where that is counted.
#[derive(Clone, Copy)]
pub enum Stand {
    /// The access is tried.
    Trying,
    /// After a fault its page has to be locked.
    Locking,
    /// The page is to get its frame.
    Filling,
    /// It has one, and its translation has to be installed.
    Installing,
    /// Anywhere else, or the core isn't there.
    Elsewhere,
}

/// What is looked at before and after a step, of the core that takes it and of the frames.
#[derive(Clone, Copy)]
pub struct Sight {
    /// How far its call has come.
    pub stand: Stand,
    /// How many cores have not acknowledged its message yet.
    pub awaited: u64,
    /// How many other cores there are.
    pub others: u64,
    /// How many frames are in use.
    pub in_use: u64,
    /// The present epoch.
    pub epoch: u64,
}

// How far a call in this phase has come.
fn stand_of(phase: &Phase) -> Stand
    ensures { result ≡ stand_of phase.now }
{
    match phase {
        Phase::Try(_) => Stand::Trying,
        Phase::Lock {
            goal: Goal::Access(_),
            ..
        } => Stand::Locking,
        Phase::Fill { .. } | Phase::CopyAcks { .. } => Stand::Filling,
        Phase::Install(_) => Stand::Installing,
        _ => Stand::Elsewhere,
    }
}

// How many cores are in the set.
fn core_count(set: CoreSet) -> u64
    ensures { result ≡ count_below (members set) 64 }
{
    let mut count = 0u64;
    'cores: for index in 0..64u8 {
        if set.contains(CoreId::new(index)) {
            count += 1;
        }
    }
    count
}

// How far the core's call has come; a core that isn't there has none.
fn stand_in<M: SlotMap, A: Allocator + Clone, L: Ledger>(
    machine: &Machine<M, A, L>,
    core: CoreId,
) -> Stand
    ensures { result ≡ stand_in (state machine.now) core }
{
    if usize::from(core.index()) >= machine.cores() {
        return Stand::Elsewhere;
    }
    let phase = machine.phase(core);
    stand_of(&phase)
}

// How many frames are in use.
fn in_use<M: SlotMap, A: Allocator + Clone, L: Ledger>(machine: &Machine<M, A, L>) -> u64
    ensures { result ≡ in_use (state machine.now) }
{
    u64::from(machine.frames().saturating_sub(machine.free_frames()))
}

/// What there is to see of the machine and of the core, if the step has one.
pub fn look<M: SlotMap, A: Allocator + Clone, L: Ledger>(
    machine: &Machine<M, A, L>,
    core: &Option<CoreId>,
) -> Sight
    ensures { result ≡ looked (state machine.now) core.now }
{
    let others = (machine.cores() as u64).saturating_sub(1);
    let in_use = in_use(machine);
    let epoch = machine.epoch();
    let (stand, awaited) = match core {
        Some(core) => (stand_in(machine, *core), core_count(machine.awaited(*core))),
        None => (Stand::Elsewhere, 0),
    };
    Sight {
        stand,
        awaited,
        others,
        in_use,
        epoch,
    }
}
