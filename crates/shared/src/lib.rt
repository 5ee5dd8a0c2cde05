//! One machine for threads, each of which makes whole calls; nobody waits.
//!
//! Who finds the machine with another seat gets a busy answer.
//!
//! - `space`: the space, and a core with which one thread calls; `history`: what cores know of the machine;
//!   `machine`: it may be shared.
//! - `whole`, `calling`: whole calls; `series`: calls in a list; `asides`: what a core does beside its calls.
//!
//! It exists for the `call` of `space`, clause `answers`: in every schedule the replies are those of one plain page
//! map, in one order. It knows of no notes and no certificate.
//!
//! A machine whose limit is reached says so in its word, so that it still comes back.
#![tactic(auto)]

pub mod asides;
pub mod calling;
pub mod history;
pub mod machine;
pub mod series;
pub mod space;
pub mod whole;

pub use asides::Aside;
pub use history::{JoinedCore, Replied, SeenLog, Turn};
pub use series::{Ask, Series, SeriesEnd, Tell};
pub use space::{Answer, Calls, CoreSeat, Known, Passed, ShareFault, SharedMachine, Unshared};
pub use whole::{CallEnd, Whole};

fn is_send<T: Send>(_one: &T) {}

fn is_sync<T: Sync>(_one: &T) {}

/// Threads may share the space, and a core may go to another thread, where the machine may.
pub fn may_cross<S: Whole + Send>(space: &SharedMachine<S>, core: &CoreSeat<S>) {
    is_send(space);
    is_sync(space);
    is_send(core);
}
