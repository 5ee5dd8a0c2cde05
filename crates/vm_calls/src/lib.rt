//! What a request is to do: its check, its decision over held pages, and what an access finds.
//!
//! - `arguments` (`check`): a request is refused at once, or becomes a plan.
//! - `decision` (`decide`): a plan is refused, or changes a range; `fault` (`settle`): what an access finds at its
//!   page.
//!
//! It exists for `laws::decisions_are_plain` and `laws::accesses_are_plain`: each answers as the plain page map does,
//! from the held pages alone. The machine, threads and the audit share it. No call takes memory, and none knows who
//! holds the pages.
#![tactic(auto)]

pub mod arguments;
pub mod decision;
pub mod fault;
pub mod laws;

pub use arguments::check;
pub use decision::{Decision, decide, decide_page, decide_surveyed};
pub use fault::{Settled, settle};
