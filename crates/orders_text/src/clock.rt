//! By which clock the calls of a text have their times, and what waits where lines are that clock.
ghost use Rattle.std.specs.Prelude.{◌≡◌, ◌↔◌, IfOk, IfSome, IsTrue, None, replicate};
ghost use Rattle.orders_text.specs.History.{between, may_event, may_stamp};

use audit::Call;
use orders::Timed;
use std::alloc::{AllocError, Allocator};
use vm_base::Request;

/// How many cores a space may have.
const CORES: usize = 64;

/// How many lines a text has at most whose lines are the clock: so that their times are numbers of 64 bits.
const LINES: u64 = 0x4000_0000_0000_0000;

/// By which clock the calls of a text have their times.
#[derive(Clone, Copy)]
pub enum Clock {
    /// No call or event came so far.
    Unset,
    /// Each call's line begins with its two times.
    Stamps,
    /// The text is one of events, as `run --echo` writes it, and its lines are the clock.
    Lines,
}

impl Clock {
    // Tells whether no call or event came so far.
    pub(crate) fn is_unset(&self) -> bool
        ensures { IsTrue result ↔ (self.now ≡ Clock.Unset) }
    {
        matches!(self, Clock::Unset)
    }

    // Tells whether a call with its times may come.
    pub(crate) fn may_stamp(&self) -> bool
        ensures { result ≡ may_stamp self.now }
    {
        match self {
            Clock::Unset | Clock::Stamps => true,
            Clock::Lines => false,
        }
    }

    // Tells whether an event may come.
    pub(crate) fn may_event(&self) -> bool
        ensures { result ≡ may_event self.now }
    {
        match self {
            Clock::Unset | Clock::Lines => true,
            Clock::Stamps => false,
        }
    }
}

/// A call that waits for its reply: the number of the line in which it began, and what it asks for.
#[derive(Clone, Copy)]
pub struct PendingCall {
    pub line: u64,
    pub request: Request,
}

// A call that began in one line and ended in another, by its lines as times. `None` where the numbers are too great.
pub(crate) fn between(first: u64, last: u64, call: Call) -> Option<Timed>
    ensures { IfSome result (λ timed. timed ≡ between first last call) }
{
    if first >= LINES || last >= LINES {
        return None;
    }
    Some(Timed {
        begin: 2 * first,
        end: 2 * last + 1,
        call,
    })
}

// No call waits.
pub(crate) fn none_waits<A: Allocator>(alloc: A) -> Result<Vec<Option<PendingCall>, A>, AllocError>
    ensures { IfOk result (λ waiting. waiting.items ≡ replicate 64 None) }
{
    let mut waiting = Vec::with_capacity(alloc, CORES)?;
    'cores: for _core in 0..CORES {
        waiting.push_reserved(None);
    }
    Ok(waiting)
}
