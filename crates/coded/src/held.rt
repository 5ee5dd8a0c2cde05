//! A machine that C holds.
use crate::opening::{LoggedSpace, Unlogged};
use machine_model::Outcome;
use shared::{Aside, CallEnd, Whole};
use vm_base::{CoreId, Request};

/// A machine that lives until C lets it go.
pub enum AnyMachine {
    /// One without a log.
    Plain(Unlogged),
    /// One that keeps its log.
    Logged(LoggedSpace),
}

// A derived `Drop` of what has a machine isn't covered.
impl Drop for AnyMachine {
    fn drop(self) {
        match self {
            AnyMachine::Plain(_machine) => {}
            AnyMachine::Logged(_machine) => {}
        }
    }
}

impl Whole for AnyMachine {
    ghost use Rattle.coded.specs.Holding.{held_state};

    ghost state = { λ held. (held_state held).world };

    fn core_count(&self) -> usize {
        match self {
            AnyMachine::Plain(machine) => machine.core_count(),
            AnyMachine::Logged(machine) => machine.core_count(),
        }
    }

    fn is_calm(&self) -> bool {
        match self {
            AnyMachine::Plain(machine) => machine.is_calm(),
            AnyMachine::Logged(machine) => machine.is_calm(),
        }
    }

    #[inline(always)]
    fn call_whole(&mut self, core: CoreId, request: Request) -> CallEnd {
        match self {
            AnyMachine::Plain(machine) => machine.call_whole(core, request),
            AnyMachine::Logged(machine) => machine.call_whole(core, request),
        }
    }

    fn step_aside(&mut self, core: CoreId, aside: Aside) -> Outcome {
        match self {
            AnyMachine::Plain(machine) => machine.step_aside(core, aside),
            AnyMachine::Logged(machine) => machine.step_aside(core, aside),
        }
    }
}
