//! A few calls of a history that have no order, and so show that all have none.
//!
//! - `finding` (`find_core`): tries cores; `gathering`: which calls a core has; `trying`: whether it has an order.
//! - `effects`, `building`, `parts`, `byteless`: which calls surely took effect, and what they leave; `kept`: a call
//!   of a core.
//!
//! It exists for `finding::find_core`: what is found has no order, and so has the whole history none. A core of this
//! crate isn't a processor's.
#![tactic(auto)]

mod building;
mod byteless;
mod effects;
mod finding;
mod gathering;
mod kept;
mod parts;
mod trying;

pub use byteless::without_bytes;
pub use finding::{Core, find_core, find_core_but};
pub use kept::Kept;
