//! What more is told of a fault: the line, a caret, and what was expected there.
//!
//! - `explain`: of a trace's line; `forms`: how far a line is one of each form; `naming`: the outcome or reply that
//!   it names.
//! - `histories`, `noting`: of histories and of audited texts.
//!
//! No theorem says what goes to standard error.
#![tactic(auto)]

pub mod explain;
pub mod forms;
pub mod histories;
mod naming;
pub mod noting;
