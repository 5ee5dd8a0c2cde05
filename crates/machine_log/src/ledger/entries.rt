//! The entries of a ledger that keeps them, for which memory is taken before the first.
ghost use Rattle.std.specs.Prelude.{◌≡◌, ◌+◌, ◌<◌, ◌≤◌, ◌++◌, ◌∷◌, [], IfOk, OnErr, OnOk, vec_len, vec_capacity};

use std::alloc::{AllocError, Allocator};
use vm_base::Entry;

/// Entries, with room for this many.
#[derive(Drop)]
pub struct KeptEntries<A: Allocator> {
    /// The entries so far.
    pub items: Vec<Entry, A>,
    /// How many there may be at the most.
    pub limit: u64,
    ghost room: { limit ≤ vec_capacity items },
    ghost within: { vec_len items ≤ limit },
}

impl<A: Allocator> KeptEntries<A> {
    /// None, with room for this many.
    pub fn with_room(alloc: A, limit: u64) -> Result<KeptEntries<A>, AllocError>
        ensures items { IfOk result (λ entries. entries.items.items ≡ []) }
        ensures limit { IfOk result (λ entries. entries.limit ≡ limit) }
    {
        let items = Vec::with_capacity(alloc, limit as usize)?;
        Ok(KeptEntries { items, limit })
    }

    /// One more, for which there is room.
    pub fn push(&mut self, entry: Entry)
        requires { vec_len self.old.items < self.old.limit }
        ensures items { self.new.items.items ≡ self.old.items.items ++ entry ∷ [] }
        ensures limit { self.new.limit ≡ self.old.limit }
    {
        self.items.push_reserved(entry);
    }

    /// One more, for which memory may be taken: the room that was left stays. A refusal changes
    /// nothing.
    pub fn push_beyond(&mut self, entry: Entry) -> Result<(), AllocError>
        ensures items { OnOk result (self.new.items.items ≡ self.old.items.items ++ entry ∷ []) }
        ensures limit { OnOk result (self.new.limit ≡ self.old.limit + 1) }
        ensures same_items { OnErr result (self.new.items.items ≡ self.old.items.items) }
        ensures same_limit { OnErr result (self.new.limit ≡ self.old.limit) }
    {
        let Some(limit) = self.limit.checked_add(1) else {
            return Err(AllocError);
        };
        self.items.try_reserve(limit as usize - self.items.len())?;
        self.limit = limit;
        self.items.push_reserved(entry);
        Ok(())
    }

    /// There is memory for one more than the room. A refusal changes nothing.
    pub fn make_room(&mut self) -> Result<(), AllocError>
        ensures room { OnOk result (self.new.limit < vec_capacity self.new.items) }
        ensures items { self.new.items.items ≡ self.old.items.items }
        ensures limit { self.new.limit ≡ self.old.limit }
    {
        let Some(limit) = self.limit.checked_add(1) else {
            return Err(AllocError);
        };
        self.items.try_reserve(limit as usize - self.items.len())
    }

    /// One more, for which there is memory: the room that was left stays.
    pub fn push_made(&mut self, entry: Entry)
        requires { self.old.limit < vec_capacity self.old.items }
        ensures items { self.new.items.items ≡ self.old.items.items ++ entry ∷ [] }
        ensures limit { self.new.limit ≡ self.old.limit + 1 }
    {
        if self.limit < self.items.capacity() as u64 {
            self.limit += 1;
            self.items.push_reserved(entry);
        }
    }
}
