//! Overlapping calls: whether a given order keeps time and gives their replies on the plain map.
//!
//! The property is linearizability (Herlihy and Wing, 1990).
//!
//! - `history`: calls with their times, and the items of an order; `timing`: whether an order keeps time; `leading`:
//!   what items lead to.
//!
//! It exists for `following::follow`: an order is taken just where it has each call once, keeps time, and gives each
//! reply. All that is believed of the judges above rests on it. It searches nothing.
#![tactic(auto)]

mod choosing;
pub mod following;
pub mod history;
mod leading;
mod pages;
mod splitting;
mod timing;

pub use choosing::{chosen, lost};
pub use following::follow;
pub use history::{Item, Timed};
pub use leading::lead_all;
pub use pages::{Stretch, stretch_of};
pub use splitting::{MOST, Part, split};
pub use timing::{each_once, keeps_time};
