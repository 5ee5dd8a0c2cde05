//! What becomes of the requests of the calls begun, and of the entries of the log: the trait, a file
//! for each ledger, and the entries of those that keep them. Nothing here knows of the machine.
ghost use Rattle.std.specs.Prelude.{◌≡◌, ◌+◌, ◌<◌, ◌≤◌, ◌++◌, ◌∷◌, [], ℕ, List, length, Bool};
ghost use Rattle.std.specs.Prelude.{false, true, IfOk, IfNone, IfSome, OnOk, OnErr};
ghost use Rattle.vm_base.specs.declared.log.Entry.{Entry as EntryOf};
ghost use Rattle.vm_base.specs.declared.requests.Request.{Request as RequestOf};
ghost use Rattle.machine_log.specs.Packing.{listed};
ghost use Rattle.machine_model.specs.Setups.{most_calls};
ghost use Rattle.machine_model.specs.declared.setup.CallLimit.TheVariants.{Long, Usual};

pub mod entries;
pub mod forgotten;
pub mod kept;
pub mod logged;
pub mod logged_entries;
pub mod packed_entries;
pub mod packing;

use crate::ledger::logged_entries::LoggedEntries;
use std::alloc::AllocError;
use vm_base::{Entry, Request};

/// The requests of the calls begun, and a log of at most `limit` entries. For all of both there is
/// room. Only an entry beyond them may take memory.
pub trait Ledger {
    // The requests so far.
    ghost requests: { Self → List RequestOf };
    // How many there may be at the most.
    ghost calls: { Self → ℕ };
    // The entries so far.
    ghost entries: { Self → List EntryOf };
    // How many there may be at the most.
    ghost limit: { Self → ℕ };
    // For how many there is memory.
    ghost fits: { Self → ℕ };
    // Whether the entries can be read again.
    ghost keeps: { Bool };

    /// How many calls began.
    fn begun(&self) -> u64
        ensures { result ≡ length (requests self.now) };

    /// A call begins: one request more, for which there is room. It answers how many they are now.
    fn begin(&mut self, request: Request) -> u64
        requires { length (requests self.old) < calls self.old }
        ensures count { result ≡ length (requests self.new) }
        ensures requests { requests self.new ≡ requests self.old ++ request ∷ [] }
        ensures calls { calls self.new ≡ calls self.old }
        ensures items { entries self.new ≡ entries self.old }
        ensures limit { limit self.new ≡ limit self.old };

    /// One entry more, for which there is room.
    fn push(&mut self, entry: Entry)
        requires { length (entries self.old) < limit self.old }
        ensures items { entries self.new ≡ entries self.old ++ entry ∷ [] }
        ensures limit { limit self.new ≡ limit self.old }
        ensures requests { requests self.new ≡ requests self.old }
        ensures calls { calls self.new ≡ calls self.old };

    /// One entry more, for which memory may be taken: the room that was left stays. A refusal
    /// changes nothing, and comes only where the entries are kept.
    fn push_beyond(&mut self, entry: Entry) -> Result<(), AllocError>
        ensures items { OnOk result (entries self.new ≡ entries self.old ++ entry ∷ []) }
        ensures limit { OnOk result (limit self.new ≡ limit self.old + 1) }
        ensures same_items { OnErr result (entries self.new ≡ entries self.old) }
        ensures same_limit { OnErr result (limit self.new ≡ limit self.old) }
        ensures err_only { OnErr result (keeps ≡ true) }
        ensures requests { requests self.new ≡ requests self.old }
        ensures calls { calls self.new ≡ calls self.old };

    /// There is memory for an entry beyond the room. Nothing else changes. A refusal comes only where the
    /// entries are kept.
    fn make_room(&mut self) -> Result<(), AllocError>
        ensures room { OnOk result (limit self.new < fits self.new) }
        ensures err_only { OnErr result (keeps ≡ true) }
        ensures items { entries self.new ≡ entries self.old }
        ensures limit { limit self.new ≡ limit self.old }
        ensures requests { requests self.new ≡ requests self.old }
        ensures calls { calls self.new ≡ calls self.old };

    /// One entry more beyond the room, for which there is memory: the room that was left stays.
    fn push_made(&mut self, entry: Entry)
        requires { limit self.old < fits self.old }
        ensures items { entries self.new ≡ entries self.old ++ entry ∷ [] }
        ensures limit { limit self.new ≡ limit self.old + 1 }
        ensures requests { requests self.new ≡ requests self.old }
        ensures calls { calls self.new ≡ calls self.old };

    /// The entries so far, in order, where they are kept.
    fn kept(&self) -> Option<LoggedEntries<'_>>
        ensures some { IfSome result (λ log. listed log ≡ entries self.now) }
        ensures none { IfNone result (keeps ≡ false) };
}

/// A ledger that can be made.
pub trait Opening<A>: Ledger {
    /// An empty one, with room for this many requests and as many entries: up to 2^40, or 1,048,576
    /// where entries are kept.
    fn open(alloc: A, limit: u64) -> Result<Self, AllocError>
    where
        Self: Sized,
        requires few { limit ≤ most_calls Long }
        requires kept { Self.keeps ≡ true → limit ≤ most_calls Usual }
        ensures requests { IfOk result (λ ledger. Self.requests ledger ≡ []) }
        ensures calls { IfOk result (λ ledger. Self.calls ledger ≡ limit) }
        ensures items { IfOk result (λ ledger. Self.entries ledger ≡ []) }
        ensures limit { IfOk result (λ ledger. Self.limit ledger ≡ limit) };
}
