//! Each step of a thread's access, over the pieces of a space that are lent to it.
//!
//! A step takes the locks, tests, draws its ticket, notes and writes. No space is known here, only its pieces
//! (`pieces`).
//!
//! - `touching`: a byte, by a core's translations; `settling`: what an access finds; `installing`, `telling`: entries
//!   and takes.
//! - `frame`, `frames_held`, `filling`, `beginning`, `copy`: how a page gets its frame and its bytes; `answering`:
//!   the reply is noted.
//!
//! It exists for `touching::try_touch`, which notes just its step, and for `filling::fill`, `copy::copy_page` and
//! `installing::install`: each changes a held slot once, or notes nothing. `live_space` calls them.
#![tactic(auto)]

pub mod answering;
pub mod beginning;
pub mod copy;
pub mod filling;
pub mod frame;
pub mod frames_held;
pub mod free_frames;
pub mod installing;
pub mod pieces;
pub mod settling;
pub mod telling;
pub mod touching;
