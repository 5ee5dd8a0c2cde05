//! A ledger that keeps nothing: only clauses know the requests and entries.
ghost use Rattle.std.specs.Prelude.{◌≡◌, ◌+◌, false, length};

use crate::ledger::logged_entries::LoggedEntries;
use crate::ledger::{Ledger, Opening};
use ghost_list::GhostList;
use std::alloc::AllocError;
use vm_base::{Entry, Request};

/// A ledger that keeps nothing. It takes no memory.
#[derive(Drop)]
pub struct KeepsNone {
    requests: GhostList<Request>,
    /// How many requests there are.
    begun: u64,
    entries: GhostList<Entry>,
    /// Those for which there was no room at first.
    beyond: GhostList<Entry>,
    /// For how many of each there was room at first.
    limit: u64,
    ghost counted: { begun ≡ length requests.items },
}

impl Ledger for KeepsNone {
    ghost requests = { λ log. log.requests.items };

    ghost calls = { λ log. log.limit };

    ghost entries = { λ log. log.entries.items };

    ghost limit = { λ log. log.limit + length log.beyond.items };

    ghost fits = { λ log. log.limit + length log.beyond.items + 1 };

    ghost keeps = { false };

    fn begun(&self) -> u64 {
        self.begun
    }

    fn begin(&mut self, request: Request) -> u64 {
        self.requests = self.requests.and(&request);
        self.begun += 1;
        self.begun
    }

    fn push(&mut self, entry: Entry) {
        self.entries = self.entries.and(&entry);
    }

    fn push_beyond(&mut self, entry: Entry) -> Result<(), AllocError> {
        self.entries = self.entries.and(&entry);
        self.beyond = self.beyond.and(&entry);
        Ok(())
    }

    fn make_room(&mut self) -> Result<(), AllocError> {
        Ok(())
    }

    fn push_made(&mut self, entry: Entry) {
        self.entries = self.entries.and(&entry);
        self.beyond = self.beyond.and(&entry);
    }

    fn kept(&self) -> Option<LoggedEntries<'_>> {
        None
    }
}

impl<A: Drop> Opening<A> for KeepsNone {
    fn open(_alloc: A, limit: u64) -> Result<Self, AllocError> {
        Ok(KeepsNone {
            requests: GhostList::new(),
            begun: 0,
            entries: GhostList::new(),
            beyond: GhostList::new(),
            limit,
        })
    }
}
