//! What C writes and reads of a machine, as numbers and structs.
//!
//! These are events, calls, replies, files, mappings and logs.
//!
//! - `codes`, `bits`, `logs`, `maps`: codes of each; `opening`: what a machine is made with, and why it isn't.
//! - `batch`: many events or calls on one machine; `held`, `holding`: a machine that C holds; `asked`: one core of a
//!   shared machine.
//!
//! It exists for `batch::run_events`, clause `runs`. There is no export here: those stand in `radixvm_c`.
//!
//! Codes begin at 1, so memory of zeros is no event. Rights, flags and errnos are Linux's on x86-64. An unknown bit
//! is a bad event, no errno: it is the caller's mistake.
#![tactic(auto)]

pub mod asked;
pub mod batch;
mod bits;
pub mod codes;
pub mod held;
pub mod holding;
pub mod logs;
pub mod maps;
pub mod opening;
