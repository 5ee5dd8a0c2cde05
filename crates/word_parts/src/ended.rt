//! How a word of the program ends.

use orders_text::HistoryFault;
use trace_words::fault::TraceFault;

/// What is wrong with a text, where more can be told of it.
#[derive(Clone, Copy)]
pub enum Trouble {
    /// Nothing, or nothing more is known.
    Nothing,
    /// It isn't taken, for this fault of a line or of what it declares.
    Fault(TraceFault),
    /// The reply of the line with this number is none that a plain page map gives.
    Illegal(u64),
    /// The same, but another order of calls that overlapped, or another map, may explain the replies.
    Undecided(u64),
    /// It is that of no history, for this fault.
    History(HistoryFault),
    /// It is that of no litmus test, or nothing is told of that.
    Litmus,
    /// A history's calls have no order. None was found that gets to the end of the call of this line.
    NoOrder(u64),
    /// No order of a history's calls was found that gets to the end of the call of this line.
    Unordered(u64),
}

/// How a word ended: with this status of the program, and, where more can be told of it, for this.
#[derive(Clone, Copy)]
pub struct Ended {
    /// The program's status.
    pub status: u8,
    /// What more can be told of.
    pub trouble: Trouble,
}
