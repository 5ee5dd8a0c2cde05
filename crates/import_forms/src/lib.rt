//! A line of a log of strace, in each form that its options give it.
//!
//! - `stamps`, `tokens`: what stands before a call, and its pieces; `speech`: of which thread a line is; `making`:
//!   who made a thread.
//! - `said` (`read_call`): what a call asks for; `calls`: what lackey's lines have in common with it; `replies`: what
//!   it was answered; `looks`: what a log looks like of which nothing was kept.
//!
//! It exists for `said::read_call`: a kept line has its numbers. It knows one line at a time, and nothing of the
//! trace that is made.
#![tactic(auto)]

pub mod calls;
pub mod looks;
mod making;
pub mod replies;
pub mod said;
pub mod speech;
pub mod stamps;
pub mod tokens;
