//! The lines of a log of strace: read, kept small, and joined from halves.
//!
//! - `reading` (`read_lines`), `log_lines`: lines as they are read; `lines`, `line`, `rares`, `quotes`: what is kept of
//!   them.
//! - `joining` (`told_at`): the text of a call that stands in two lines, where it acts; `returning` (`put_returned`):
//!   where it returns.
//! - `threads`: whose lines they are that name no thread; `told`, `made`: which threads were made, and by whom.
//! - `torn`: calls whose halves don't belong together.
//! - `listed`: what a line of /proc/PID/maps says.
//!
//! It exists for `joining::told_at`: what is kept of a log tells each call, where it acts. It doesn't know what becomes
//! of them.
#![tactic(auto)]

pub mod joining;
pub mod line;
pub mod lines;
pub mod listed;
pub mod log_lines;
pub mod made;
pub mod quotes;
pub mod rares;
pub mod reading;
pub mod returning;
pub mod threads;
pub mod told;
pub mod torn;
