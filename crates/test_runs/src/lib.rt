//! Tests of shared machines: cores that call by turns, and on threads.
//!
//! - `turn_tests`, `thread_tests` (`together`, `logged`, `asks`).
#![tactic(auto)]

pub mod asks;
pub mod logged;
#[cfg(test)]
mod thread_tests;
pub mod together;
#[cfg(test)]
mod turn_tests;
