//! Machines whose log is kept, which threads may share.
ghost use Rattle.std.specs.Prelude.{◌≡◌};

use core_steps::Machine;
use machine_log::KeepsAll;
use machine_model::Outcome;
use radix_range::RadixMap;
use shared::{Aside, CallEnd, Whole};
use std::alloc::Global;
use vm_base::{CoreId, Entry, Request};

/// A machine that may be shared, and that keeps its log.
pub trait Logged: Whole {
    /// The entries made so far, in order.
    fn entries(&self) -> &[Entry]
        ensures { result.now ≡ (Self.state self.now).calls.log };

    /// The requests of the calls begun, in order: an entry's call is the one with that number, from 1.
    fn requests(&self) -> &[Request]
        ensures { result.now ≡ (Self.state self.now).calls.requests };
}

/// A machine over a tree that keeps its log.
pub struct Tree {
    pub machine: Machine<RadixMap<Global>, Global, KeepsAll<Global>>,
}

impl Drop for Tree {
    fn drop(self) {
        let Tree { machine: _machine } = self;
    }
}

impl Whole for Tree {
    ghost use Rattle.core_steps.specs.Machine.{state as machine_state};

    ghost state = { λ tree. machine_state tree.machine };

    fn core_count(&self) -> usize {
        self.machine.core_count()
    }

    fn is_calm(&self) -> bool {
        self.machine.is_calm()
    }

    fn call_whole(&mut self, core: CoreId, request: Request) -> CallEnd {
        self.machine.call_whole(core, request)
    }

    fn step_aside(&mut self, core: CoreId, aside: Aside) -> Outcome {
        self.machine.step_aside(core, aside)
    }
}

impl Logged for Tree {
    fn entries(&self) -> &[Entry] {
        self.machine.log()
    }

    fn requests(&self) -> &[Request] {
        self.machine.requests()
    }
}
