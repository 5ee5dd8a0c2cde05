//! What a recorder sees of the machine before and after a step.
ghost use Rattle.std.specs.Prelude.{◌≡◌, ◌&&◌};
ghost use Rattle.core_steps.specs.Machine.{state};
ghost use Rattle.draw_records.specs.Looking.{awaited_by, cores_where, first_teller, looked, pass_of, phase_in, told_before};
ghost use Rattle.mmu.specs.Inboxes.{awaited};
ghost use Rattle.vm_base.specs.Cores.{members};

use core_steps::Machine;
use draw_steps::moments::Pass;
use machine_log::Ledger;
use machine_model::{Event, Phase};
use slot_lock::SlotMap;
use std::alloc::Allocator;
use vm_base::{CoreId, CoreSet};

/// What is seen before a step.
#[derive(Clone, Copy)]
pub struct Before {
    /// Of a call that goes on: where it stands.
    pub phase: Phase,
    /// Of a take: the core whose message is the oldest.
    pub sender: Option<CoreId>,
}

// The same set, core by core.
fn cores_of(set: CoreSet) -> CoreSet
    ensures { result ≡ cores_where (members set) 64 }
{
    let mut cores = CoreSet::empty();
    'cores: for index in 0..64u8 {
        let core = CoreId::new(index);
        if set.contains(core) {
            cores = cores.with(core);
        }
    }
    cores
}

/// The other cores that have not acknowledged the core's message yet.
pub fn awaited_by<M: SlotMap, A: Allocator + Clone, L: Ledger>(
    machine: &Machine<M, A, L>,
    core: CoreId,
) -> CoreSet
    ensures { result ≡ awaited_by (state machine.now) core }
{
    cores_of(machine.awaited(core))
}

// Tells whether the core told others before another did, if there is another.
fn told_before(told: &[u64; 64], core: CoreId, other: &Option<CoreId>) -> bool
    ensures { result ≡ told_before told.now core other.now }
{
    match other {
        None => true,
        Some(other) => told[core.index() as usize] < told[other.index() as usize],
    }
}

// Tells whether the other core awaits this one.
fn awaits<M: SlotMap, A: Allocator + Clone, L: Ledger>(
    machine: &Machine<M, A, L>,
    other: CoreId,
    core: CoreId,
) -> bool
    ensures { result ≡ awaited (state machine.now).hardware.inbox other core }
{
    machine.awaited(other).contains(core)
}

// Tells whether the other core awaits this one, and told it before the first so far, if there is one.
fn told_first<M: SlotMap, A: Allocator + Clone, L: Ledger>(
    machine: &Machine<M, A, L>,
    told: &[u64; 64],
    other: CoreId,
    core: CoreId,
    first: &Option<CoreId>,
) -> bool
    ensures { result ≡ (awaited (state machine.now).hardware.inbox other core && told_before told.now other first.now) }
{
    awaits(machine, other, core) && told_before(told, other, first)
}

// Of the cores that await this one, the one that told first.
fn first_teller<M: SlotMap, A: Allocator + Clone, L: Ledger>(
    machine: &Machine<M, A, L>,
    told: &[u64; 64],
    core: CoreId,
) -> Option<CoreId>
    ensures { result ≡ first_teller (state machine.now) told.now core 64 }
{
    let mut first = None;
    'cores: for index in 0..64u8 {
        let other = CoreId::new(index);
        if told_first(machine, told, other, core, &first) {
            first = Some(other);
        }
    }
    first
}

/// Where the core's call stands; a core that isn't there has none.
pub fn phase_in<M: SlotMap, A: Allocator + Clone, L: Ledger>(
    machine: &Machine<M, A, L>,
    core: CoreId,
) -> Phase
    ensures { result ≡ phase_in (state machine.now) core }
{
    if usize::from(core.index()) >= machine.cores() {
        return Phase::Free;
    }
    machine.phase(core)
}

/// What there is to see before the event, where each core told others last in these steps.
pub fn look<M: SlotMap, A: Allocator + Clone, L: Ledger>(
    machine: &Machine<M, A, L>,
    told: &[u64; 64],
    event: &Event,
) -> Before
    ensures { result ≡ looked told.now (state machine.now) event.now }
{
    match event {
        Event::Go(core) => Before {
            phase: phase_in(machine, *core),
            sender: None,
        },
        Event::Take(core) => Before {
            phase: Phase::Free,
            sender: first_teller(machine, told, *core),
        },
        _ => Before {
            phase: Phase::Free,
            sender: None,
        },
    }
}

/// Which take of the sender's message the core has made.
pub fn pass_of<M: SlotMap, A: Allocator + Clone, L: Ledger>(
    machine: &Machine<M, A, L>,
    sender: CoreId,
    core: CoreId,
) -> Pass
    ensures { result ≡ pass_of (state machine.now) sender core }
{
    if awaits(machine, sender, core) {
        Pass::First
    } else {
        Pass::Second
    }
}
