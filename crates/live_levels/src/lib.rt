//! Levels of the tree that threads share: each slot under a lock, with its history.
//!
//! - `slot`: what lies under a lock; `act`, `ask`: a change, and what a core finds that asks; `place`: the one way to
//!   a slot.
//! - `level`, `leaves`, `inner`, `parts`: 512 places side by side, divided once; `joint`, `fold`, `close`: what only
//!   an owner may do.
//!
//! It exists for `slot::SlotState::content`: a slot's content is the replay of its changes, and for
//! `parts::carry_on`. It knows of no tickets' word and of no calls.
#![tactic(auto)]

pub mod act;
pub mod ask;
pub mod close;
pub mod fold;
pub mod inner;
pub mod joint;
pub mod leaves;
pub mod level;
pub mod parts;
pub mod place;
pub mod slot;
