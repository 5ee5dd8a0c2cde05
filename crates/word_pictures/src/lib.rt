//! The words that show a trace: picture, state, page, and more of run and maps.
//!
//! - `picturing`, `lining`: `picture`; `stating`, `reading`: `state`; `stepping`: `page`; `changing`: `run --state`.
//! - `listing`, `lists`: mappings with their files' names; `traced`: a trace that notes tell.
//!
//! It exists for `stepping::draw_page` and `picturing::picture`, clause `ends`. `command_line` calls it.
#![tactic(auto)]

mod between;
mod changing;
mod histories;
mod knowing;
mod lining;
mod listing;
pub mod lists;
pub mod picturing;
pub mod reading;
mod saying;
mod seeking;
mod stating;
mod stepping;
pub mod traced;
