//! What words of the program share: what is asked and read, how one ends, lines of a fault.
//!
//! - `asked`, `input`, `keeping`: what is asked for, what is read, and the end of it that is kept; `ended`: how a
//!   word ends.
//! - `pointing`: a line, and a caret below the place that is meant; `held`: a writer that holds all.
//!
//! It does nothing that a word asks: the crates `word_runs`, `word_pictures`, `word_audit` and `word_import` do.
#![tactic(auto)]

pub mod asked;
pub mod ended;
pub mod held;
pub mod input;
pub mod keeping;
pub mod pointing;
