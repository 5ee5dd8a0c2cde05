//! What the machine is given, and what it answers.
ghost use Rattle.std.specs.Prelude.{◌≡◌};
ghost use Rattle.machine_model.specs.Events.{core_of};

use vm_base::{CoreId, CoreSet, Reply, Request};

/// One step. Frames and pages are numbers of which some don't exist; an event that names such a one
/// is not possible.
#[derive(Clone, Copy)]
pub enum Event {
    /// The core begins a call.
    Call(CoreId, Request),
    /// The core's call goes one step on.
    Go(CoreId),
    /// The core's call, which wants a frame, takes this one.
    Frame(CoreId, u64),
    /// The core's call, which looks for a place, guesses that there is one from this page on.
    Guess(CoreId, u64),
    /// The core's call, which looks for a place, guesses none and takes its whole window.
    Whole(CoreId),
    /// The core acts on the oldest message of its inbox.
    Take(CoreId),
    /// The core's TLB gets the page's translation from its tables, without an access (Intel SDM
    /// volume 3A, caching translation information).
    Walk(CoreId, u64),
    /// The core's TLB drops its translation of the page.
    Evict(CoreId, u64),
    /// The core flushes one of its counts, or ends its part of the epoch.
    Flush(CoreId),
    /// The core reviews the object at the front of its queue. A frame that is freed may be taken again.
    Review(CoreId),
    /// Slots are joined at the page.
    Fold(u64),
    /// The core's call is given up for want of memory.
    GiveUp(CoreId),
}

impl Event {
    /// The core that takes the step, if one does.
    pub fn core(&self) -> Option<CoreId>
        ensures { result ≡ core_of self.now }
    {
        match self {
            Event::Call(core, _) => Some(*core),
            Event::Go(core) => Some(*core),
            Event::Frame(core, _) => Some(*core),
            Event::Guess(core, _) => Some(*core),
            Event::Whole(core) => Some(*core),
            Event::Take(core) => Some(*core),
            Event::Walk(core, _) => Some(*core),
            Event::Evict(core, _) => Some(*core),
            Event::Flush(core) => Some(*core),
            Event::Review(core) => Some(*core),
            Event::Fold(_) => None,
            Event::GiveUp(core) => Some(*core),
        }
    }
}

/// What a call waits for.
#[derive(Clone, Copy, Debug, PartialEq, Eq)]
pub enum Blocker {
    /// This core holds a slot of the call's pages.
    Slot(CoreId),
    /// These cores have not acknowledged the call's shootdown.
    Acks(CoreSet),
}

/// The outcome of a step.
#[derive(Clone, Copy, Debug, PartialEq, Eq)]
pub enum Outcome {
    Stepped,
    Wait(Blocker),
    /// The event is not possible now.
    Idle,
    Answered(Reply),
    /// The limit of calls or of events is reached.
    Full,
}
