//! The word audit: replies and histories, judged by each rule.
//!
//! - `auditing`: in order and overlapping; `obeying`: by the rule that kernels keep.
//!
//! Clauses `ends` say what goes out and with which status. `command_line` calls it.
#![tactic(auto)]

pub mod auditing;
pub mod obeying;
