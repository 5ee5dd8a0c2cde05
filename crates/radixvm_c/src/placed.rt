//! A held machine may be shared.
ghost use Rattle.std.specs.Prelude.{◌≡◌};

use coded::held::AnyMachine;
use machine_model::Outcome;
use shared::{Aside, CallEnd, Whole};
use std::alloc::Global;
use vm_base::{CoreId, Request};

/// A held machine where it lies, which it doesn't leave while threads share it: so it can be handed
/// back without memory.
#[derive(Drop)]
pub struct Placed {
    pub held: Box<AnyMachine, Global>,
}

impl Whole for Placed {
    ghost use Rattle.coded.specs.Holding.{held_state};

    ghost state = { λ placed. (held_state placed.held.value).world };

    fn core_count(&self) -> usize {
        self.held.as_ref().core_count()
    }

    fn is_calm(&self) -> bool {
        self.held.as_ref().is_calm()
    }

    #[inline(always)]
    fn call_whole(&mut self, core: CoreId, request: Request) -> CallEnd {
        self.held.as_mut().call_whole(core, request)
    }

    fn step_aside(&mut self, core: CoreId, aside: Aside) -> Outcome {
        self.held.as_mut().step_aside(core, aside)
    }
}
