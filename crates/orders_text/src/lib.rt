//! Histories of overlapping calls as text, read to the history or to the first fault.
//!
//! - `lines`: what a line says, a call with its begin and end; `clock`: stamps, or the numbers of an audited text's
//!   lines.
//! - `reading` (`read_history`): the whole; `waiting`: calls that wait when a text ends; `apart`: calls of one core
//!   don't overlap; `faults`.
//!
//! It exists for `reading::read_history`. It judges nothing: `overlapping` and those over it do.
#![tactic(auto)]

mod apart;
pub mod clock;
pub mod faults;
pub mod lines;
pub mod reading;
pub mod waiting;

pub use clock::Clock;
pub use faults::HistoryFault;
pub use reading::{History, read_history};
pub use waiting::completed;
