//! Who moves a machine may watch its steps, and who doesn't watch pays nothing.
//!
//! - `watch`: the ways in which a machine is moved, with one who may watch each step (`Watch`); `unwatched`: nobody
//!   does.
//! - `look`: what is looked at before and after a step (`Sight`, `Stand`); `summary`, `summing`: the numbers of a
//!   run.
//!
//! A replay, pictures and states are watchers. A watcher sees each step that was made.
#![tactic(auto)]

pub mod look;
pub mod summary;
pub mod summing;
pub mod unwatched;
pub mod watch;

pub use look::{Sight, Stand};
pub use summary::{Replies, Summary};
pub use unwatched::Unwatched;
pub use watch::Watch;
