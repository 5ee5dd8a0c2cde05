//! The word import: logs of strace or of lackey, one file or several.
//!
//! - `importing`: the import; `progress`: how far it came.
//! - `replying` (`import_replies`): the calls with their replies; `replied`: of each line.
//! - `gathering`: several files as one log, and files that are written; `joined` (`join_logs`), `times`: the logs of
//!   several threads, as `strace -ff` writes them, in the order of their times.
//!
//! Clauses `ends` say what goes out and with which status. `command_line` calls it.
#![tactic(auto)]

pub mod gathering;
pub mod importing;
pub mod joined;
mod progress;
pub mod replied;
pub mod replying;
pub mod times;
