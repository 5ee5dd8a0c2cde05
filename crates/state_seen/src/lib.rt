//! Who watches a run, and knows its TLBs, inboxes, tables and pages at each moment.
//!
//! - `mirror`, `watching`, `reading`: one who watches each step; `held`, `tlb_lists`, `tables`: what it knows of each
//!   core.
//! - `deed`, `edit`: what a step does to TLBs, inboxes and tables; `used`, `list`: pages that were used.
//!
//! That a mirror knows the state is the law `state_text::laws::mirrors_know_states`. It writes no text.
#![tactic(auto)]

pub mod deed;
pub mod edit;
pub mod held;
pub mod list;
pub mod mirror;
mod reading;
mod tables;
pub mod tlb_lists;
pub mod used;
mod watching;

pub use deed::HardwareStep;
pub use edit::TableStep;
pub use held::CoreHeld;
pub use list::{OfPage, PageList};
pub use mirror::Mirror;
pub use used::Used;
