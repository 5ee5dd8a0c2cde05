//! The judgement of overlapping calls, by an order that is found or given, and checked.
//!
//! - `judging` (`judge_text`): a history; `telling`: the text of a ruling; `found`, `given`, `order_text`: where an
//!   order comes from.
//! - `auditing` (`audit_text`), `replies`: a text of replies, in the order of its lines or in another; `story`: a
//!   history as a text.
//!
//! It exists for `judging::judge_text`, clause `ok`, and `auditing::audit_text`, clause `ends`: `legal` and `no
//! order` go out only where they hold.
#![tactic(auto)]

pub mod auditing;
mod found;
mod given;
pub mod judging;
mod order_text;
pub mod replies;
mod story;
pub mod telling;

pub use auditing::audit_text;
pub use judging::{By, Ruled, Ruling, Shown, Told, bare, explain_whole};
pub use replies::Judgement;
