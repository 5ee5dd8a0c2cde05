//! The words that run a machine: run, maps, certify, live and litmus.
//!
//! - `job` (`run`), `summing`: `run` and `maps`; `certifying`: `certify`; `live`: a script on threads.
//! - `litmus_tests`, `witnessing`, `unmet`: `litmus`, the picture of a witness, and warnings of a clause.
//!
//! Clauses `ends` and `does` say what goes out and with which status. `command_line` calls it.
#![tactic(auto)]

pub mod certifying;
pub mod job;
pub mod litmus_tests;
pub mod live;
mod summing;
pub mod unmet;
pub mod witnessing;
