//! A text of calls with their replies, read whole and judged by a plain page map.
//!
//! - `reading`, `item`, `replies`, `copy_line`, `declaring`, `input`: what lines say, and why a text can't be judged;
//!   `grammar`: that they say one thing.
//! - `hearing`, `judging`, `auditing`: up to the first wrong reply; `reviewing`, `auditing_all`: all of them, by
//!   `going_on`.
//! - `allowing`: which replies may be there; `telling`, `around`: the lines of a verdict.
//!
//! It exists for `auditing_all::audit_all`, clause `ends`, and for `judge_text`, which `overlapping` calls. Its lines
//! are those of `radixvm run --echo`.
#![tactic(auto)]

pub mod allowing;
pub mod around;
pub mod auditing;
pub mod auditing_all;
mod copy_line;
pub mod declaring;
mod going_on;
pub mod grammar;
pub mod hearing;
pub mod input;
pub mod item;
pub mod judging;
pub mod reading;
pub mod replies;
mod reviewing;
pub mod telling;

pub use allowing::Terms;
pub use auditing::{Judged, judge_text};
pub use auditing_all::audit_all;
pub use input::AuditFault;
pub use item::AuditItem;
pub use judging::Verdict;
