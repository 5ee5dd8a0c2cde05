//! What a call of a log becomes in a trace, counted and kept small, and the text of that trace.
//!
//! - `names`, `shared`: files by their names, and shared memory, as they are kept; `moving`: pages that are moved or go.
//! - `taking` (`take`): what a call becomes; `losses`, `counts`: how many lines became what.
//! - `writing` (`write_taken`): the trace; `meter`: who is told how far the work has come.
//!
//! It exists for `writing::write_taken`: the text is just that of what was taken. It doesn't know where a call stood,
//! nor whose it was.
#![tactic(auto)]

pub mod counts;
pub mod losses;
pub mod meter;
mod moving;
pub mod names;
pub mod shared;
pub mod taking;
pub mod writing;
