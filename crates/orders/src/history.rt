//! Calls with their times, and the items of an order of them.
ghost use Rattle.std.specs.Prelude.{◌≡◌, slice_get};
ghost use Rattle.orders.specs.Orders.{call_of};

use audit::Call;

/// A call, and when it was under way. Both times are of one clock. A call ended before another began only where its end is below
/// the other's begin: at a time in common they overlap.
#[derive(Clone, Copy)]
pub struct Timed {
    /// A time at which it had not taken effect yet.
    pub begin: u64,
    /// A time at which it had.
    pub end: u64,
    /// What was asked, and what was answered.
    pub call: Call,
}

/// What an order of a history's calls, counted from 0, has at one place.
#[derive(Clone, Copy)]
pub enum Item {
    /// This call takes effect.
    Reply(u32),
    /// The page of this call, a store, gets a copy of its own.
    Copy(u32),
}

impl Item {
    /// The number of its call.
    pub fn call(self) -> u32
        ensures { result ≡ call_of self }
    {
        match self {
            Item::Reply(call) | Item::Copy(call) => call,
        }
    }
}

/// The call of this number, if the history has it.
pub(crate) fn call_at(history: &[Timed], call: u32) -> Option<Timed>
    ensures { result ≡ slice_get history.now call }
{
    history.get(call as usize).copied()
}
