//! The replay of a trace and its echo: lines that move a machine, and the text that they give.
//!
//! - `replay` (`replay`, `replay_watched`, `replay_summing`): lines acted on one by one; `replayer`: a replay between
//!   two lines.
//! - `event_lines`, `finished_text`: a line asks the machine, and what its outcome is written as; `shown`: what is
//!   written beside; `standing`: a replay whose machine is kept.
//! - `echo` (`replay_echoing`), `asking`, `log_lines`, `numbered`: each line beside what it gives, and below it what
//!   it adds to the log.
//!
//! It exists for `replay::replay`, clause `ends`: the text is that of a run, and up to the first disturbing line it
//! is the plain page map's. `laws::traces_are_runs` says it of lines. Above are the words of the program and all
//! watchers; it knows none of them.
#![tactic(auto)]

pub mod asking;
pub mod echo;
pub mod event_lines;
pub mod finished_text;
pub mod laws;
pub mod log_lines;
pub mod numbered;
pub mod replay;
pub mod replayer;
pub mod shown;
pub mod standing;

pub use log_lines::LogLines;
pub use numbered::text_at;
