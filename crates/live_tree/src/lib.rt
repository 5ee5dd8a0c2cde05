//! The shared tree of slots, and the slots that a call holds.
//!
//! - `tree` (`SharedTree`): four levels, from its making to its end, with the word of tickets; `histories`, `room`:
//!   what it hands out and finds.
//! - `held` (`Held`): how a call takes slots, cuts them, and changes them; `decide_held`: what is decided over them;
//!   `letting`: lets them go, from left to right.
//!
//! It exists for `held::Held::lock_next`, held slots lie side by side, and `held::Held::commit`: it changes those of
//! its range and no other. It knows nothing of frames' bytes or of cores' tables.
//!
//! The tree knows no tickets: whoever notes a step draws one, while its locks are held.
#![tactic(auto)]

pub mod decide_held;
pub mod held;
pub mod histories;
pub mod letting;
pub mod room;
pub mod tree;
