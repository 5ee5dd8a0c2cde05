//! The running of a script on threads over one machine.
ghost use Rattle.std.specs.Prelude.{◌≡◌, ◌-◌, ◌<◌, [], IfErr, IfOk, List, None, map};
ghost use Rattle.trace_words.specs.Declarations.{made_by};
ghost use Rattle.shared.specs.Cores.{made_of, new_core};
ghost use Rattle.shared_script.specs.Lanes.{AreCores, AreOfSpace, EndEach, EndsAs, IsDone, IsFresh, last_stop};
ghost use Rattle.shared_script.specs.Runs.{Fails, IsRun};

use crate::fault::SharedFault;
use crate::lane::Lane;
use crate::tasks::run_lane;
use shared::{CoreSeat, Replied, SharedMachine, Whole};
use std::alloc::Global;
use std::sync::Wait;
use std::thread::{self, Threads};
use trace_words::Script;
use trace_words::fault::TraceFault;
use vm_base::NoMemory;

/// A machine on which a script was run, and the calls of each core with the replies that its thread was told.
#[derive(Drop)]
pub struct RunMachine<S> {
    pub machine: S,
    pub told: Vec<Vec<Replied>>,
}

// The core with this number, which has done nothing yet.
fn lane_of<S>(alloc: Global, number: usize, core: CoreSeat<S>) -> Lane<S>
    ensures { (result.number ≡ number) × (result.core ≡ core) × (result.told.items ≡ []) }
{
    Lane {
        number,
        core,
        told: Vec::new(alloc),
        stop: None,
    }
}

// Splits off all cores of the space, of which this many are left: a lane for each, from the last to the first.
fn lanes_of<S: Whole + Drop>(
    alloc: Global,
    space: &SharedMachine<S>,
    mut first: CoreSeat<S>,
    left: usize,
) -> Result<Vec<Lane<S>>, NoMemory>
    requires here { first.space ≡ space.now.table.shared.table_id }
    requires new { first ≡ new_core S.state first.space 0 first.spare first.first }
    requires left { left ≡ first.spare }
    ensures { IfOk result (λ lanes. AreCores first.spare (IsFresh S.state first.space first.first) lanes.items) }
{
    let mut lanes = Vec::new(alloc);
    let mut number = left;
    'cores: while let Some(core) = space.split(&mut first) {
        lanes.push(lane_of(alloc, number, core))?;
        number -= 1;
    }
    lanes.push(lane_of(alloc, 0, first))?;
    Ok(lanes)
}

// Does the tasks of each lane's core, each core in a thread of its own where one can be made.
fn run_side_by_side<S: Whole + Drop + Send, R: Threads + Wait + Sync>(
    rt: &R,
    space: &SharedMachine<S>,
    script: &Script<Global>,
    lanes: &mut [Lane<S>],
)
    requires { AreOfSpace space.now.table.shared.table_id lanes.old }
    ensures { EndEach S.state script.now.tasks lanes.old lanes.new }
{
    let count = lanes.len();
    if count == 0 {
        return;
    }
    let run = |_at: usize, lane: &mut Lane<S>|
        requires { lane.old.core.space ≡ space.now.table.shared.table_id }
        ensures { EndsAs S.state script.entry.now.tasks lane.old lane.new }
    { run_lane(rt, space, script, lane) };
    thread::for_each_mut(rt, lanes, count, &run);
}

// Why the last lane stopped that did.
fn last_stop<S>(lanes: &[Lane<S>]) -> Option<SharedFault>
    ensures { result ≡ last_stop None (map (λ lane. lane.stop) lanes.now) }
{
    let mut last = None;
    'lanes: for at in 0..lanes.len() {
        if let Some(stop) = lanes[at].stop {
            last = Some(stop);
        }
    }
    last
}

// Takes all other cores in, and ends the space.
fn gather<S: Whole + Drop>(
    alloc: Global,
    space: SharedMachine<S>,
    script: &Script<Global>,
    mut lanes: Vec<Lane<S>>,
) -> Result<RunMachine<S>, SharedFault>
    requires cores { 0 < script.now.asked.cores }
    requires done { (first : List S) × (made_of S.state first ≡ made_by script.now.asked)
        × AreCores (script.now.asked.cores - 1) (IsDone S.state script.now.tasks space.table.shared.table_id first) lanes.items }
    ensures ran { IfOk result (λ ran. IsRun script.now (map (λ told. told.items) ran.told.items) (S.state ran.machine)) }
    ensures fails { IfErr result (Fails script.now) }
{
    let Ok(mut told) = Vec::with_capacity(alloc, lanes.len()) else {
        return Err(SharedFault::Text(TraceFault::NoMemory));
    };
    let Some(lane) = lanes.pop() else {
        unreachable!()
    };
    let mut first = lane.core;
    told.push_reserved(lane.told);
    'cores: while let Some(lane) = lanes.pop() {
        space.take_in(&mut first, lane.core);
        told.push_reserved(lane.told);
    }
    match space.close(first) {
        Some(machine) => Ok(RunMachine { machine, told }),
        // (no core was let go, so that none has the machine)
        None => Err(SharedFault::Text(TraceFault::NoMemory)),
    }
}

/// Does each core's tasks, in their order, on a thread of the core's own, or one core after another where no thread can be
/// made, over one machine that has begun no call. A core stops at its first call for which the machine has no room, while the
/// others go on; of several such faults the least core's is reported. Memory may run out at any time.
pub fn run_shared<S: Whole + Drop + Send, R: Threads + Wait + Sync>(
    rt: &R,
    alloc: Global,
    script: &Script<Global>,
    machine: S,
) -> Result<RunMachine<S>, SharedFault>
    requires cores { 0 < script.now.asked.cores }
    requires made { (S.state machine).made ≡ made_by script.now.asked }
    requires new { (S.state machine).calls.log ≡ [] }
    ensures ran { IfOk result (λ ran. IsRun script.now (map (λ told. told.items) ran.told.items) (S.state ran.machine)) }
    ensures fails { IfErr result (Fails script.now) }
{
    let left = machine.core_count() - 1;
    let Ok((space, first)) = SharedMachine::new(alloc, machine) else {
        return Err(SharedFault::Text(TraceFault::NoMemory));
    };
    let Ok(mut lanes) = lanes_of(alloc, &space, first, left) else {
        return Err(SharedFault::Text(TraceFault::NoMemory));
    };
    run_side_by_side(rt, &space, script, lanes.as_mut_slice());
    match last_stop(lanes.as_slice()) {
        Some(fault) => Err(fault),
        None => gather(alloc, space, script, lanes),
    }
}
