//! Calls of two cores on one machine, by turns. What they are answered is said by POSIX.1-2017, mmap
//! and munmap.
ghost use Rattle.std.specs.Prelude.{◌≡◌};

use crate::asks::{FIRST, maps};
use crate::logged::machine;
use machine_model::{Event, Outcome};
use shared::{
    Answer, Aside, Calls, CoreSeat, Passed, Series, SeriesEnd, ShareFault, SharedMachine, Whole,
};
use shared_script::Tree;
use std::alloc::Global;
use std::test::Fail;
use vm_base::{CoreId, Entry, Reply, Request, SegvCode};

/// Whether the call is answered so.
fn is_told<S: Whole + Drop>(
    space: &SharedMachine<S>,
    core: &mut CoreSeat<S>,
    request: Request,
    due: Reply,
) -> bool
    requires { core.old.space ≡ space.now.table.shared.table_id }
    ensures { core.new.space ≡ core.old.space }
{
    space.call(core, request) == Answer::Reply(due)
}

/// Whether all calls of the two cores are answered as they are on a machine of one thread. The page
/// that is unmapped has a translation on both cores, so that the unmapping waits for the other.
fn are_told<S: Whole + Drop>(
    space: &SharedMachine<S>,
    one: &mut CoreSeat<S>,
    two: &mut CoreSeat<S>,
) -> bool
    requires one { one.old.space ≡ space.now.table.shared.table_id }
    requires two { two.old.space ≡ space.now.table.shared.table_id }
    ensures one { one.new.space ≡ one.old.space }
    ensures two { two.new.space ≡ two.old.space }
{
    let load = Request::Load { addr: FIRST };
    let store = Request::Store {
        addr: FIRST,
        byte: 7,
    };
    let unmap = Request::Munmap {
        addr: FIRST,
        len: 4096,
    };
    let mapped = is_told(space, one, maps(4096), Reply::Mapped(FIRST));
    let zero = is_told(space, two, load, Reply::Byte(0));
    let stored = is_told(space, one, store, Reply::Done);
    let seen = is_told(space, two, load, Reply::Byte(7));
    let unmapped = is_told(space, one, unmap, Reply::Done);
    let gone = is_told(space, two, load, Reply::Segv(SegvCode::MapErr));
    mapped && zero && stored && seen && unmapped && gone
}

/// How many calls of the core the log answers.
fn answers_of(log: &[Entry], core: u8) -> u64 {
    let mut count = 0u64;
    for entry in log {
        if let Entry::Answer { core: by, .. } = *entry {
            if by.index() == core {
                count = count.saturating_add(1);
            }
        }
    }
    count
}

/// Two cores make six calls; the machine that comes back has three of each in its log.
fn goes_well(alloc: Global, machine: Tree) -> Option<bool> {
    let Ok((space, mut one)) = SharedMachine::new(alloc, machine) else {
        return None;
    };
    let mut two = space.split(&mut one)?;
    let told = are_told(&space, &mut one, &mut two);
    let no_third = space.split(&mut one).is_none();
    space.take_in(&mut one, two);
    let back = space.close(one)?;
    let logged = answers_of(back.machine.log(), 0) == 3 && answers_of(back.machine.log(), 1) == 3;
    Some(told && no_third && logged)
}

/// After as many calls as the machine may have, each is told so.
fn ends_full(alloc: Global, machine: Tree) -> Option<bool> {
    let Ok((space, mut one)) = SharedMachine::new(alloc, machine) else {
        return None;
    };
    let first = space.call(&mut one, maps(4096)) == Answer::Reply(Reply::Mapped(FIRST));
    let second = space.call(&mut one, maps(4096)) == Answer::Full;
    let back = space.close(one)?;
    Some(first && second && answers_of(back.machine.log(), 0) == 1)
}

/// A machine that has a call in flight isn't shared, and comes back with the call.
fn is_refused(alloc: Global, mut busy: Tree) -> Option<bool> {
    let core = CoreId::new(0);
    let _begun = busy.machine.step(Event::Call(core, maps(4096)));
    let Err(unshared) = SharedMachine::new(alloc, busy) else {
        return Some(false);
    };
    let has_call = unshared.machine.machine.requests().len() == 1;
    Some(unshared.why == ShareFault::NotCalm && has_call)
}

/// Calls in a list are answered in their places, up to the limit of calls; a core may act beside them.
fn lists_go_well(alloc: Global, machine: Tree) -> Option<bool> {
    let Ok((space, mut one)) = SharedMachine::new(alloc, machine) else {
        return None;
    };
    let load = Request::Load { addr: FIRST };
    let store = Request::Store {
        addr: FIRST,
        byte: 7,
    };
    let asks = [maps(4096), store, load];
    let mut told = [Reply::Bus; 3];
    let first = space.call_all(&mut one, &asks, &mut told);
    let due = [Reply::Mapped(FIRST), Reply::Done, Reply::Byte(7)];
    let are_all = told == due && is_made(first, 3, SeriesEnd::Done);
    let second = space.call_all(&mut one, &asks, &mut told);
    let is_limited = is_made(second, 1, SeriesEnd::Refused) && told[1] == Reply::Done;
    let passed = space.aside(&mut one, Aside::Flush) == Passed::Came(Outcome::Stepped);
    let back = space.close(one)?;
    Some(are_all && is_limited && passed && answers_of(back.machine.log(), 0) == 4)
}

/// Whether so many calls were made.
fn is_made(calls: Calls, made: usize, stop: SeriesEnd) -> bool {
    calls == Calls::Made(Series { made, stop })
}

fn tree_goes_well(alloc: Global) -> Option<bool> {
    goes_well(alloc, machine(alloc, 2, 4, 8)?)
}

fn tree_ends_full(alloc: Global) -> Option<bool> {
    ends_full(alloc, machine(alloc, 1, 4, 1)?)
}

fn tree_is_refused(alloc: Global) -> Option<bool> {
    is_refused(alloc, machine(alloc, 1, 4, 1)?)
}

fn tree_lists_go_well(alloc: Global) -> Option<bool> {
    lists_go_well(alloc, machine(alloc, 1, 4, 4)?)
}

#[test]
fn two_cores_call_by_turns(rt: HostRuntime) -> Result<(), Fail> {
    assert!(rt; tree_goes_well(rt.alloc()) == Some(true));
    Ok(())
}

#[test]
fn the_limit_of_calls_is_told(rt: HostRuntime) -> Result<(), Fail> {
    assert!(rt; tree_ends_full(rt.alloc()) == Some(true));
    Ok(())
}

#[test]
fn a_call_in_flight_is_not_shared(rt: HostRuntime) -> Result<(), Fail> {
    assert!(rt; tree_is_refused(rt.alloc()) == Some(true));
    Ok(())
}

#[test]
fn lists_are_told_in_their_places(rt: HostRuntime) -> Result<(), Fail> {
    assert!(rt; tree_lists_go_well(rt.alloc()) == Some(true));
    Ok(())
}
