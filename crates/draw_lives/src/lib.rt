//! The picture of mappings over a run: which pages were mapped over which steps; and that of a history of calls.
//!
//! - `calls`: the calls of a history; `histories` (`draw_history`): their picture.
//! - `living`: what was mapped when, found by halving the rows; `joining`: rows that are alike; `drawing`
//!   (`draw_lives`): the text.
//!
//! It exists for `drawing::draw_lives`: the text is just what is to be drawn of the recorded changes.
#![tactic(auto)]

pub mod calls;
pub mod drawing;
pub mod histories;
pub mod joining;
pub mod living;
