//! The packed entries of a ledger that keeps them, for which memory is taken before the first.
ghost use Rattle.std.specs.Prelude.{◌≡◌, ◌+◌, ◌<◌, ◌≤◌, ◌++◌, ◌∷◌, [], IfOk, OnErr, OnOk, length, min, vec_len, vec_capacity};
ghost use Rattle.machine_log.specs.Packing.{AreWithin, unpacked};

use crate::ledger::packing::{PackedEntry, pack, placed};
use std::alloc::{AllocError, Allocator};
use vm_base::Entry;

/// Entries, each in sixteen bytes, and those that don't go into them in full beside, with room for this
/// many of either.
#[derive(Drop)]
pub struct PackedEntries<A: Allocator> {
    /// The entries so far.
    pub packed: Vec<PackedEntry, A>,
    /// Those of them that stand in full.
    pub in_full: Vec<Entry, A>,
    /// How many there may be at the most.
    pub limit: u64,
    ghost room: { limit ≤ vec_capacity packed },
    ghost full_room: { limit ≤ vec_capacity in_full },
    ghost within: { vec_len packed ≤ limit },
    ghost fewer: { vec_len in_full ≤ vec_len packed },
    ghost placed: { AreWithin (length in_full.items) packed.items },
}

impl<A: Allocator> PackedEntries<A> {
    /// None, with room for this many. Of the two allocators one is for entries that stand in full: of
    /// their memory nothing is written where there is none.
    pub fn with_room(alloc: A, for_full: A, limit: u64) -> Result<PackedEntries<A>, AllocError>
        ensures items { IfOk result (λ entries. unpacked entries.in_full.items entries.packed.items ≡ []) }
        ensures limit { IfOk result (λ entries. entries.limit ≡ limit) }
    {
        let packed = Vec::with_capacity(alloc, limit as usize)?;
        let in_full = Vec::with_capacity(for_full, limit as usize)?;
        Ok(PackedEntries {
            packed,
            in_full,
            limit,
        })
    }

    /// One more, for which there is room.
    #[inline(always)]
    pub fn push(&mut self, entry: Entry)
        requires { vec_len self.old.packed < self.old.limit }
        ensures items { unpacked self.new.in_full.items self.new.packed.items
            ≡ unpacked self.old.in_full.items self.old.packed.items ++ entry ∷ [] }
        ensures limit { self.new.limit ≡ self.old.limit }
    {
        match pack(&entry) {
            Some(packed) => {
                self.packed.push_reserved(packed);
            }
            None => self.push_in_full(entry),
        }
    }

    // The same of an entry that stands in full.
    #[inline(never)]
    fn push_in_full(&mut self, entry: Entry)
        requires { vec_len self.old.packed < self.old.limit }
        ensures items { unpacked self.new.in_full.items self.new.packed.items
            ≡ unpacked self.old.in_full.items self.old.packed.items ++ entry ∷ [] }
        ensures limit { self.new.limit ≡ self.old.limit }
    {
        self.packed.push_reserved(placed(self.in_full.len() as u64));
        self.in_full.push_reserved(entry);
    }

    /// There is memory for one more than the room. A refusal changes nothing.
    pub fn make_room(&mut self) -> Result<(), AllocError>
        ensures room { OnOk result
            (self.new.limit < min (vec_capacity self.new.packed) (vec_capacity self.new.in_full)) }
        ensures packed { self.new.packed.items ≡ self.old.packed.items }
        ensures in_full { self.new.in_full.items ≡ self.old.in_full.items }
        ensures limit { self.new.limit ≡ self.old.limit }
    {
        let Some(limit) = self.limit.checked_add(1) else {
            return Err(AllocError);
        };
        self.packed.try_reserve(limit as usize - self.packed.len())?;
        self.in_full
            .try_reserve(limit as usize - self.in_full.len())
    }

    /// One more, for which there is memory: the room that was left stays.
    #[inline(always)]
    pub fn push_made(&mut self, entry: Entry)
        requires { self.old.limit < min (vec_capacity self.old.packed) (vec_capacity self.old.in_full) }
        ensures items { unpacked self.new.in_full.items self.new.packed.items
            ≡ unpacked self.old.in_full.items self.old.packed.items ++ entry ∷ [] }
        ensures limit { self.new.limit ≡ self.old.limit + 1 }
    {
        if self.limit < self.packed.capacity() as u64 {
            self.limit += 1;
            self.push(entry);
        }
    }

    /// One more, for which memory may be taken: the room that was left stays. A refusal changes
    /// nothing.
    pub fn push_beyond(&mut self, entry: Entry) -> Result<(), AllocError>
        ensures items { OnOk result (unpacked self.new.in_full.items self.new.packed.items
            ≡ unpacked self.old.in_full.items self.old.packed.items ++ entry ∷ []) }
        ensures limit { OnOk result (self.new.limit ≡ self.old.limit + 1) }
        ensures same_items { OnErr result (unpacked self.new.in_full.items self.new.packed.items
            ≡ unpacked self.old.in_full.items self.old.packed.items) }
        ensures same_limit { OnErr result (self.new.limit ≡ self.old.limit) }
    {
        self.make_room()?;
        self.push_made(entry);
        Ok(())
    }
}
