//! A machine whose calls are whole: none is in flight between two of them.
ghost use Rattle.std.specs.Prelude.{◌≡◌, ◌<◌, false, IsTrue};
ghost use Rattle.machine_model.specs.World.{World};
ghost use Rattle.machine_model.specs.Alone.{IsCalm};
ghost use Rattle.core_steps.specs.Machine.{IsLegal};
ghost use Rattle.shared.specs.Histories.{Ends, StepsAside, event_of};

use crate::asides::Aside;
use machine_model::Outcome;
use vm_base::{CoreId, Reply, Request};

/// The result of a whole call.
#[derive(Clone, Copy)]
pub enum CallEnd {
    /// It was made, and has this reply.
    Reply(Reply),
    /// None could begin, and nothing was done: the limit of calls is reached, or that of events.
    Refused,
    /// It couldn't be ended: the limit of events is reached. No other can begin either.
    Spent,
}

/// What threads may share: a machine, or one of several kinds of machine.
pub trait Whole {
    /// The state of the abstract machine that it has.
    ghost state: { Self → World };

    /// How many cores it has.
    fn core_count(&self) -> usize
        ensures cores { result ≡ (state self.now).made.cores }
        ensures legal { IsLegal (state self.now) };

    /// Tells whether no core has a call.
    fn is_calm(&self) -> bool
        ensures calm { IsTrue result → IsCalm (state self.now) }
        ensures busy { result ≡ false → IsCalm (state self.now) → ⊥ };

    /// Makes a call of this core, where no core has one, and leaves none.
    fn call_whole(&mut self, core: CoreId, request: Request) -> CallEnd
        requires here { core < (state self.old).made.cores }
        requires calm { IsCalm (state self.old) }
        ensures ends { Ends (state self.old) core request result (state self.new) }
        ensures made { (state self.new).made ≡ (state self.old).made }
        ensures legal { IsLegal (state self.new) };

    /// Makes an aside of this core, where no core has a call, and leaves none.
    fn step_aside(&mut self, core: CoreId, aside: Aside) -> Outcome
        requires calm { IsCalm (state self.old) }
        ensures steps { StepsAside (state self.old) (event_of core aside) result (state self.new) }
        ensures calm { IsCalm (state self.new) }
        ensures made { (state self.new).made ≡ (state self.old).made }
        ensures legal { IsLegal (state self.new) };
}
