//! A ledger that keeps requests and entries, for all of which memory is taken when it is made.
ghost use Rattle.std.specs.Prelude.{◌≡◌, ◌≤◌, true, vec_capacity};

use crate::ledger::entries::KeptEntries;
use crate::ledger::logged_entries::LoggedEntries;
use crate::ledger::{Ledger, Opening};
use std::alloc::{AllocError, Allocator};
use vm_base::{Entry, Request};

/// A ledger that keeps requests and entries.
#[derive(Drop)]
pub struct KeepsAll<A: Allocator> {
    /// The requests of the calls begun.
    pub requests: Vec<Request, A>,
    /// How many there may be at the most.
    pub calls: u64,
    /// The entries so far, and the room for them.
    pub entries: KeptEntries<A>,
    ghost room_to_begin: { calls ≤ vec_capacity requests },
}

impl<A: Allocator> Ledger for KeepsAll<A> {
    ghost requests = { λ log. log.requests.items };

    ghost calls = { λ log. log.calls };

    ghost entries = { λ log. log.entries.items.items };

    ghost limit = { λ log. log.entries.limit };

    ghost fits = { λ log. vec_capacity log.entries.items };

    ghost keeps = { true };

    fn begun(&self) -> u64 {
        self.requests.len() as u64
    }

    fn begin(&mut self, request: Request) -> u64 {
        self.requests.push_reserved(request);
        self.requests.len() as u64
    }

    fn push(&mut self, entry: Entry) {
        self.entries.push(entry);
    }

    fn push_beyond(&mut self, entry: Entry) -> Result<(), AllocError> {
        self.entries.push_beyond(entry)
    }

    fn make_room(&mut self) -> Result<(), AllocError> {
        self.entries.make_room()
    }

    fn push_made(&mut self, entry: Entry) {
        self.entries.push_made(entry);
    }

    fn kept(&self) -> Option<LoggedEntries<'_>> {
        Some(LoggedEntries::of(self.entries.items.as_slice()))
    }
}

impl<A: Allocator + Clone> Opening<A> for KeepsAll<A> {
    fn open(alloc: A, limit: u64) -> Result<Self, AllocError> {
        let requests = Vec::with_capacity(alloc.clone()?, limit as usize)?;
        let entries = KeptEntries::with_room(alloc, limit)?;
        Ok(KeepsAll {
            requests,
            calls: limit,
            entries,
        })
    }
}
