//! What tests share: random numbers, full heaps, and what first lines ask for.
//!
//! - `random`: numbers that look random; `heaps`: heaps that are full; `setups`: what first lines ask for;
//!   `words`: the numbers of a row.
#![tactic(auto)]

pub mod heaps;
pub mod random;
pub mod setups;
pub mod words;
