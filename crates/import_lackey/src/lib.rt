//! A log of valgrind's tool lackey, made into a trace, each access included; and a call of strace's with its reply.
//!
//! - `heard`: what a line of lackey says; `tracing`: what it becomes; `traced`: the whole.
//! - `replies` (`reply_said`): what a call of a log of strace adds to the calls with their replies.
//!
//! It exists for `traced::trace_log`, clause `ends`: the trace is just that of what was taken, and each line is
//! counted once.
#![tactic(auto)]

pub mod heard;
pub mod replies;
pub mod traced;
pub mod tracing;
