//! Ledgers: what a machine keeps of its requests and of its log.
//!
//! - `ledger`: the trait `Ledger`, and a file for each answer to it: nothing is kept, the log alone, or requests and
//!   the log.
//! - `ledger::packing`: an entry in sixteen bytes, where its numbers go into them; `ledger::packed_entries`,
//!   `ledger::entries`: lists of them.
//!
//! A clause sees requests and log of each ledger alike, kept or not. It knows of no machine: it is only told what to
//! keep.
//!
//! All ledgers have one contract, so outcomes don't depend on what is kept. The log alone has entries of 16 bytes, or
//! in full in a list beside. A kept log reserves memory for all calls, so the longer limit of calls goes with none.
#![tactic(auto)]

pub mod ledger;

pub use ledger::forgotten::KeepsNone;
pub use ledger::kept::KeepsAll;
pub use ledger::logged::KeepsLog;
pub use ledger::logged_entries::LoggedEntries;
pub use ledger::{Ledger, Opening};
