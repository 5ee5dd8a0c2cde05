//! The radix tree as a slot map: four levels of nodes of 512 slots.
//!
//! - `radix_map`: `RadixMap`, which meets `slot_lock::SlotMap` as the list does; `slot`, `walk`, `change`: one slot,
//!   a range, and its changes.
//! - `full` keeps a stretch of mapped pages, and `tight` where no room begins: by these a free run is found soon.
//!
//! The machine is generic in its slot map. So nothing above but setups and the certificate names this tree.
#![tactic(auto)]

pub mod change;
pub mod full;
pub mod radix_map;
pub mod slot;
pub mod tight;
pub mod walk;

pub use radix_map::RadixMap;
