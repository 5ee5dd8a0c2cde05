//! Seats: what a core's thread draws tickets with, and the steps that it noted under them.
//!
//! - `tickets`: the word from which threads draw, each number once; `typed`: how many notes its types allow.
//! - `seat` (`Seat`), `noted`, `note_list`, `packed`: a seat, its notes, and their list in little memory.
//!
//! It exists for `gathering::gather`, clause `whole`: all seats together have noted each ticket from 0 on once. It
//! knows of no space: what a note says is the caller's.
//!
//! Notes may come in any order: only tickets count. 2^32 seats, or notes of one, are want of memory.
#![tactic(auto)]

mod gathering;
pub mod note_list;
mod noted;
pub mod packed;
mod seat;
mod tickets;
mod typed;

pub use gathering::gather;
pub use note_list::{NoteList, Notes};
pub use noted::Noted;
pub use seat::Seat;
pub use tickets::{
    Count, Draw, Drawn, JoinUp, Joined, Once, SplitOff, Ticketer, Tickets, ticketers,
};
