//! The grammar of a trace's lines, and how replies, logs and mappings are written.
//!
//! - `line` (`Line`, `read_line`) reads any line; `access_line`, `call_line` and `step_line` are short ways for the
//!   commonest.
//! - `core_line`, `file_line`, `space_line`, `action`, `request`: the kinds of lines; `words`, `number`, `value`,
//!   `sign`: their parts.
//! - `printing`, `lists`: what is written, in buffers of fixed size; `pieces`: parts of which longer texts are made.
//!
//! It exists for `grammar::grammar`: what is read of a line is in the grammar, and all of it is read. It knows of no
//! machine.
#![tactic(auto)]

pub mod access_line;
pub mod action;
pub mod call_line;
pub mod core_line;
pub mod file_line;
pub mod grammar;
pub mod line;
pub mod lists;
pub mod number;
pub mod pieces;
pub mod printing;
pub mod request;
pub mod sign;
pub mod space_line;
pub mod step_line;
pub mod value;
pub mod words;

pub use access_line::{AskedAccess, read_access};
pub use action::Action;
pub use call_line::read_call;
pub use line::{
    Line, first_word_is_file, first_word_is_vm, is_printable, is_printable_line, read_line,
    read_words,
};
pub use lists::{push_rights, push_start, write_answer, write_detach, write_map_line};
pub use printing::{
    LineText, ShortText, address_text, number_text, push_address, push_count, push_letter,
    push_number, push_reply, push_word,
};
pub use step_line::{AskedStep, read_step};
