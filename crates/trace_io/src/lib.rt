//! Readers and writers that tell their bytes and failures, and lines of bounded length.
//!
//! - `source` (`Source`): what is read from; `sink` (`Sink`): what is written to; `fault`: the faults that both have.
//! - `lines` (`LineReader`): lines of at most 256 bytes.
//!
//! It exists for `lines::LineReader::next_line`: no byte is lost. It knows nothing of what a line says.
#![tactic(auto)]

pub mod fault;
pub mod lines;
pub mod sink;
pub mod source;

pub use fault::IoFault;
