//! The command line: its first word says what is done, and this crate does it.
//!
//! - `command`: each command is done; `saving`: the files that it reads as one and those that it writes.
//! - `asks`, `errors`: what is said of an error in a text; `telling`: arguments that can't be acted on; `output`,
//!   `terminals`: where it is written.
//!
//! It exists for `command::command`, clause `does`: status, output and files are what the arguments ask for. The
//! program itself is `radixvm`.
#![tactic(auto)]

mod asks;
pub mod command;
mod errors;
pub mod output;
mod saving;
mod telling;
pub mod terminals;
