//! The abstract machine: its state, its events, and what each event does to it.
//!
//! - `event`, `phase`: what a machine is given and answers, and where a call stands; `setup`: what a machine is made
//!   with.
//! - `answers`: what the machine and the threads both answer. specs/ has the state (`World`) and a relation for each
//!   row; `Step` picks the row.
//! - `laws`: what holds of every run.
//!
//! It exists for `laws::runs_are_sound`: each reached state and each step is sound. Also for
//! `laws::lone_calls_are_answered` and `laws::calls_keep_apart`. There is no code of a machine here: `core_steps`
//! shows that it makes such steps.
#![tactic(auto)]

pub mod answers;
pub mod event;
pub mod laws;
pub mod phase;
pub mod setup;

pub use event::{Blocker, Event, Outcome};
pub use phase::Phase;
pub use setup::{CallLimit, Setup, SetupFault, first_fault, first_fault_within};
