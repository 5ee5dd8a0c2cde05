//! A search for an order of overlapping calls; nothing that it says is believed.
//!
//! It goes through begins and ends, and keeps all maps that the calls so far can have led to (G. Lowe, Testing for
//! linearizability, 2017).
//!
//! - `search` (`find_order`, `find_whole`, `find_choice`, `find_lagging`, `find_by_kernel`): its face.
//! - `configs`: a map and which calls took effect; `arena`, `runs`, `pages`: the maps, kept small; `seen`: which were
//!   there already.
//! - `under`, `leading`, `trail`, `olds`: calls under way, what they lead to, in which order, and what they replaced.
//!
//! It has no theorem but its safety, and that it ends.
#![tactic(auto)]

mod arena;
mod configs;
mod leading;
mod olds;
mod pages;
mod runs;
mod search;
mod seen;
mod trail;
mod under;

pub use leading::LIMIT;
pub use search::{
    Found, Front, Kernel, Lag, Wholes, find_by_kernel, find_choice, find_lagging, find_order,
    find_whole,
};
