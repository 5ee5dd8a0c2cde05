//! The words of the command line, and what they ask for.
//!
//! - `commands` (`grammar`): which words there are, and what may stand behind each; `asking` (`parse`): what was
//!   asked.
//!
//! That words are parsed right isn't proved. `command_line` does what they ask.
#![tactic(auto)]

pub mod asking;
pub mod commands;

pub use asking::{Command, Usage, Work, parse};
pub use commands::grammar;
