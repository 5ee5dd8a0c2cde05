//! What is told of a litmus test, by a list of all its outcomes or by runs on threads.
//!
//! - `telling` (`tell_litmus`), `lists`, `faults`, `fault`: a text is read, its outcomes are listed, and what comes
//!   of it is written.
//! - `running` (`count_runs`), `calling`, `opening`, `came`, `counts`, `following`, `in_order`, `reading`, `lacking`:
//!   runs on threads.
//!
//! It exists for `telling::tell_litmus`, and for `running::count_runs`: each run's notes are a run of a new machine.
#![tactic(auto)]

mod calling;
pub mod came;
mod counts;
pub mod fault;
pub mod faults;
mod following;
mod in_order;
mod lacking;
mod lists;
mod opening;
mod reading;
pub mod running;
pub mod telling;

pub use came::{Came, TestRun};
pub use fault::LiveTestFault;
pub use faults::TestFault;
pub use running::count_runs;
pub use telling::{
    Listing, LitmusAsk, Output, tell, tell_litmus, tell_live, tell_observed, tell_program,
};
