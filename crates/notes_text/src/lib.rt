//! Notes and their verdicts as text: what their lines say, and what certifying them writes.
//!
//! - `note_line`, `noted_line`, `outcome_words`, `kept_notes`: a line of notes, and what notes are kept in;
//!   `ordering`, `merging`, `writing`: notes of seats in order of tickets.
//! - `certifying`, `verdict`: a text's notes are judged, and a line tells it; `grammar`: that written texts are read
//!   as they were meant.
//!
//! It exists for `certifying::certify_text`: `certified N` goes out only where the text's notes are a run. It knows
//! of no threads.
#![tactic(auto)]

pub mod certifying;
pub mod grammar;
pub mod kept_notes;
mod merging;
pub mod note_line;
pub mod noted_line;
mod ordering;
pub mod outcome_words;
pub mod verdict;
pub mod writing;

pub use certifying::certify_text;
pub use note_line::read_note;
pub use outcome_words::read_outcome;
pub use writing::write_notes;
