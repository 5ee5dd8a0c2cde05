//! What each line of a trace changes in the state, and a page that steps through it.
//!
//! - `behind` (`changes_of`), `recorder`, `spans`: states beside a line; `differing`, `finding`, `marks`, `part`,
//!   `applying`: texts that differ.
//! - `knowing`, `seeking`: what is said of a page, and the first state that has some words.
//! - `data`, `json`, `listing`, `template`: the page of HTML that steps through a trace.
//!
//! It exists for `behind::changes_of`. The word `page` and `run --state` call it.
#![tactic(auto)]

mod applying;
pub mod behind;
pub mod data;
pub mod differing;
mod finding;
mod json;
pub mod knowing;
mod listing;
pub mod marks;
pub mod part;
pub mod recorder;
pub mod seeking;
pub mod spans;
pub mod template;

pub use behind::changes_of;
pub use differing::{Difference, difference_of};
pub use part::DiffOp;
pub use recorder::{StateRecorder, StateStep};
