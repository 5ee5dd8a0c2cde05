//! The machine: one address space, moved by its cores' events as the abstract machine says.
//!
//! Its face is `machine` (`Machine`), `running` and `run_result`. Behind it are rooms, each over those below it:
//!
//! - `at_once`: a call's steps one after another;
//! - `events`: one event, and what an event does that is no step of a call;
//! - `rows`: the steps of a call, each once;
//! - `engine`: the machine's parts, and what each of them has.
//!
//! It exists for `running::run`, clauses `plain` and `brackets`: a run's log is that of a plain page map, and each
//! reply stands in it once. `laws` says what a step leaves as it is. It knows of no text and of no threads.
#![tactic(auto)]

mod at_once;
mod engine;
mod events;
pub mod laws;
pub mod machine;
mod rows;
pub mod run_result;
pub mod running;

pub use machine::{Finished, Machine};
pub use run_result::{Run, RunFault};
pub use running::run;
