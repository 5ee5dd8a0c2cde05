//! A log of strace, made into a trace: whose its lines are, and what was mapped before.
//!
//! - `owned`, `processes`, `programs`: whose a line is, and which processes and programs there are; `refusing`: which
//!   logs are refused.
//! - `import` (`take_lines`), `log` (`import_log`): one process; `each`: every process.
//! - `mapped` (`import_mapped`): behind a list of mappings, as /proc/PID/maps has it; `entries`: how many of its lines
//!   became what; `starting`: the trace's first lines.
//!
//! It exists for `log::import_log`, clause `ends`: the trace is just that of what was taken, and each line is counted
//! once. It doesn't know what the requests come to.
#![tactic(auto)]

pub mod each;
pub mod entries;
pub mod import;
pub mod log;
pub mod mapped;
pub mod owned;
pub mod processes;
pub mod programs;
mod refusing;
pub mod starting;
