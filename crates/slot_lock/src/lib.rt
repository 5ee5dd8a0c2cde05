//! What a slot map does, slots in a list, and how a call takes its pages from left to right.
//!
//! - `slot_map`: the trait `SlotMap` that a list and a tree of slots meet; `slot_list`, `slot`: the list.
//! - `plan`: what a request is to do once its arguments pass (`Plan`, `Change`); `footprint`: the pages that it
//!   locks.
//! - `acquire`: locks a footprint slot by slot; `survey`, `walk`, `framed`, `lent`: what slots of a range have.
//! - `map_list`: the list of mappings as a user sees them.
//!
//! It exists for `acquire::Acquire::next`, the whole footprint is held once it is done, and
//! `laws::division_adds_an_edge`. It knows of no cores' tables and of no log.
#![tactic(auto)]

pub mod acquire;
pub mod footprint;
pub mod framed;
pub mod laws;
pub mod lent;
pub mod map_list;
pub mod plan;
pub mod slot;
pub mod slot_list;
pub mod slot_map;
pub mod survey;
pub mod walk;

pub use acquire::Acquire;
pub use footprint::Footprint;
pub use framed::{Framed, FramedPages};
pub use map_list::{MapLine, all_lines, next_line};
pub use plan::{Change, Goal, Place, Plan, Target, Touch};
pub use slot_list::SlotList;
pub use slot_map::{Fit, FreePage, Got, SlotMap, SlotRead, SlotRun};
pub use survey::Survey;
