//! Tests of one space that threads share, and of scripts in it.
//!
//! - `row_tests`: scripts and what they come to; `meeting_tests`: a call held at each point of its way while another
//!   core makes its own.
//! - `starved_tests`: memory refused, and given back piece by piece; `thread_tests`: random requests;
//!   `telling_tests`: what is told.
//! - `tree_tests`, `race_tests`: the shared tree by one thread and by several; `ticket_tests`: tickets of many threads.
#![tactic(auto)]

#[cfg(test)]
mod meeting_tests;
#[cfg(test)]
mod race_tests;
#[cfg(test)]
mod row_tests;
#[cfg(test)]
mod starved_tests;
#[cfg(test)]
mod telling_tests;
#[cfg(test)]
mod thread_tests;
#[cfg(test)]
mod ticket_tests;
#[cfg(test)]
mod tree_tests;
