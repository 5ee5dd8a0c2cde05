//! A ledger that keeps the entries alone: only clauses know the requests.
ghost use Rattle.std.specs.Prelude.{◌≡◌, true, length, min, vec_capacity};
ghost use Rattle.machine_log.specs.Packing.{unpacked};

use crate::ledger::logged_entries::LoggedEntries;
use crate::ledger::packed_entries::PackedEntries;
use crate::ledger::{Ledger, Opening};
use ghost_list::GhostList;
use std::alloc::{AllocError, Allocator};
use vm_base::{Entry, Request};

/// A ledger that keeps the entries, and no request. Memory for all entries is taken when it is made.
#[derive(Drop)]
pub struct KeepsLog<A: Allocator> {
    requests: GhostList<Request>,
    /// How many requests there are.
    begun: u64,
    /// How many there may be at the most.
    calls: u64,
    /// The entries so far, and the room for them.
    pub entries: PackedEntries<A>,
    ghost counted: { begun ≡ length requests.items },
}

impl<A: Allocator> Ledger for KeepsLog<A> {
    ghost requests = { λ log. log.requests.items };

    ghost calls = { λ log. log.calls };

    ghost entries = { λ log. unpacked log.entries.in_full.items log.entries.packed.items };

    ghost limit = { λ log. log.entries.limit };

    ghost fits = { λ log. min (vec_capacity log.entries.packed) (vec_capacity log.entries.in_full) };

    ghost keeps = { true };

    fn begun(&self) -> u64 {
        self.begun
    }

    fn begin(&mut self, request: Request) -> u64 {
        self.requests = self.requests.and(&request);
        self.begun += 1;
        self.begun
    }

    fn push(&mut self, entry: Entry) {
        self.entries.push(entry);
    }

    fn push_beyond(&mut self, entry: Entry) -> Result<(), AllocError> {
        self.entries.push_beyond(entry)
    }

    fn make_room(&mut self) -> Result<(), AllocError> {
        self.entries.make_room()
    }

    fn push_made(&mut self, entry: Entry) {
        self.entries.push_made(entry);
    }

    fn kept(&self) -> Option<LoggedEntries<'_>> {
        Some(LoggedEntries::of_packed(
            self.entries.packed.as_slice(),
            self.entries.in_full.as_slice(),
        ))
    }
}

impl<A: Allocator + Clone> Opening<A> for KeepsLog<A> {
    fn open(alloc: A, limit: u64) -> Result<Self, AllocError> {
        let entries = PackedEntries::with_room(alloc.clone()?, alloc, limit)?;
        Ok(KeepsLog {
            requests: GhostList::new(),
            begun: 0,
            calls: limit,
            entries,
        })
    }
}
