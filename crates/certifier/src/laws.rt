//! What follows from the definitions in specs/.
//!
//! `certificates_are_exact` speaks of reached states only: elsewhere Refcache could evict one of two entries in one
//! place.
ghost use Rattle.certifier.specs.Laws.{RefusalsAreExact, RunsAreExact, StepsAreExact};

use std::alloc::Allocator;

/// Over a tree of slots the machine has one next state by an event, and one outcome, and so one run by
/// the events of notes. So a fault of `certify` shows that they aren't certified: where a ticket is reported,
/// not each stands once; where an outcome differs, the notes are, in order of tickets, no run; where a
/// slot is reported, the histories aren't those of the run that they are.
pub fn certificates_are_exact<A: Allocator>()
    ensures steps { StepsAreExact }
    ensures runs { RunsAreExact A }
    ensures refusals { RefusalsAreExact A }
{}
