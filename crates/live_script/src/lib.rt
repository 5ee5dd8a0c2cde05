//! A script run on threads in one space: its notes, their verdict, or its history.
//!
//! - `running` (`run_script`), `runner`, `tasks`, `lane`, `fault`: each core's tasks by a seat of its own; `ran`,
//!   `sums`: what there is afterwards.
//! - `texts` (`run_text`), `certifying` (`certify_ran`): the notes as text, or their certificate.
//! - `history_texts` (`history_of_text`), `calls`, `line`, `writing`: the answered calls, with the tickets of begin
//!   and answer.
//!
//! It exists for `texts::run_text`, clause `ends`: the text of what was noted went out, in order of tickets.
//! `laws::texts_are_read_back` says that it is read as it was meant.
#![tactic(auto)]

pub mod calls;
pub mod certifying;
pub mod fault;
pub mod history_texts;
pub mod lane;
pub mod laws;
pub mod line;
pub mod ran;
pub mod runner;
pub mod running;
pub mod sums;
mod tasks;
pub mod texts;
pub mod writing;

pub use certifying::certify_ran;
pub use fault::ScriptFault;
pub use history_texts::history_of_text;
pub use ran::{RunNotes, RunSpace};
pub use runner::{InTurn, OnThreads, Runner};
pub use running::{begin, finish_in_turn, finish_side_by_side, run_in_turn, run_script};
pub use sums::Sums;
pub use writing::write_history;
