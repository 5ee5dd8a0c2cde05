//! What can come out of a litmus test, each outcome with events that show it.
//!
//! - `listing` (`list_outcomes`), `outcome`, `fault`: the list; `opening`, `machines`, `leading`: what comes before
//!   the calls.
//! - `performing`, `witnessing`, `driving`, `turns`, `same`: events that perform the calls with given replies.
//!
//! It exists for `listing::list_outcomes`, clause `outcomes`; it stands on `laws::scripts_are_merged`. It knows of no
//! text.
#![tactic(auto)]

pub mod driving;
pub mod fault;
pub mod laws;
mod leading;
pub mod listing;
mod machines;
mod opening;
pub mod outcome;
pub mod performing;
mod same;
pub mod turns;
mod witnessing;

pub use driving::{give, go_on};
pub use fault::OutcomesFault;
pub use listing::list_outcomes;
pub use outcome::{LitmusOutcome, Opened, Outcomes};
pub use performing::perform;
pub use turns::schedule;
