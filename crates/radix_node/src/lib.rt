//! One node of the radix tree: 512 slots, each with what its pages have, or with a node below.
//!
//! - `node`: the node (`Node`), expanded or folded; `state`: what a slot says of its pages (`SlotState`); `place`:
//!   where in a node a page is.
//! - `lock`, `edit`, `edit_one`, `own_run`: changes of slots, each in one walk; `walk`, `survey`: what is found on a
//!   range.
//!
//! It exists for `node::Node::fold`, which answers true just where slots can be one. Only `radix_range` builds a tree
//! of it; a node knows no other node but those below.
#![tactic(auto)]

pub mod edit;
pub mod edit_one;
pub mod lock;
pub mod node;
pub mod own_run;
pub mod place;
pub mod state;
pub mod survey;
pub mod walk;

pub use edit::Edit;
pub use lock::Lock;
pub use node::{FoundSlot, Node, Slot};
pub use own_run::{Handover, OwnedRun};
pub use state::{BackKind, SlotState};
pub use walk::FreeRun;
