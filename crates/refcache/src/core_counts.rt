//! What one core has: its delta entries and its review queue.

ghost use Rattle.std.specs.Prelude.{◌≡◌, ℕ, ◌≤◌, None, IfSome, IfNone, unwrap_or, pos, ◌+ℤ◌, ◌≤ℤ◌};
ghost use Rattle.std.specs.Prelude.{neg_ℤ, MatchBool};
ghost use Rattle.vm_base.specs.Cores.{members};
ghost use Rattle.refcache.specs.Places.{entries, in_use};
ghost use Rattle.refcache.specs.Pieces.{ArePlaces, IsLeast, lesser_object};
ghost use Rattle.refcache.specs.Steps.{IsInTheWay, IsDelta};

use crate::object_count::ObjectCount;
use crate::place_set::PlaceSet;
use crate::places::{
    Delta, PLACES, count_entry, delta_of, drop_entry, entry_of, has_entry, in_the_way, no_entries,
};
use crate::reports::{Queued, Review};
use crate::way_ahead::WayAhead;
use std::alloc::{AllocError, Allocator};
use std::collections::VecDeque;
use std::marker::Model;

/// The least object that has an entry, where these are the places in use.
fn least(places: &[Option<Delta>], used: PlaceSet) -> Option<u32>
    requires places { ArePlaces places.now }
    requires used { members used ≡ in_use places.now }
    ensures some { IfSome result (λ o. IsLeast (entries places.now) o) }
    ensures none { IfNone result ((o : ℕ) → entries places.now o ≡ None) }
{
    let mut least = None;
    let mut rest = used;
    'all: for _turn in 0..PLACES {
        let Some(place) = rest.first() else {
            return least;
        };
        least = lesser(least, places[place]);
        rest = rest.without(place);
    }
    least
}

/// The lesser object of the two.
fn lesser(least: Option<u32>, entry: Option<Delta>) -> Option<u32>
    ensures { result ≡ lesser_object least entry }
{
    let Some(entry) = entry else { return least };
    let Some(object) = least else {
        return Some(entry.object)
    };
    if entry.object < object {
        Some(entry.object)
    } else {
        Some(object)
    }
}

/// A core's delta entries, the places that have them, and its review queue.
#[derive(Drop)]
pub struct CoreCounts<A: Allocator> {
    places: [Option<Delta>; PLACES],
    used: PlaceSet,
    queue: VecDeque<Queued, A>,
}

impl<A: Allocator> Model for CoreCounts<A> {
    ghost use Rattle.std.specs.Prelude.{◌≡◌, length, ◌≤◌};
    ghost use Rattle.vm_base.specs.Cores.{members};
    ghost use Rattle.refcache.specs.Places.{in_use};
    ghost use Rattle.refcache.specs.Pieces.{Core, ArePlaces};
    ghost use Rattle.std.specs.VecDeque.{deque_capacity};

    ghost Value = { Core };

    ghost view = { λ c. record {
      places = c.places;
      queue = c.queue.items;
      room = deque_capacity c.queue;
    } };

    ghost invariant = { λ c. ArePlaces c.places × (members c.used ≡ in_use c.places)
        × (length c.queue.items ≤ deque_capacity c.queue) };
}

impl<A: Allocator> CoreCounts<A> {
    ghost use Rattle.std.specs.Prelude.{◌≡◌, ◌≢◌, true, ◌+◌, ◌<◌, ◌≤◌, ◌==◌, nat_lt, List, [], ◌∷◌, ◌++◌, ℕ};
    ghost use Rattle.std.specs.Prelude.{length, IfSome, IfNone, IfOk, None, Some, unwrap_or, pos, ◌+ℤ◌};
    ghost use Rattle.std.specs.Prelude.{◌≤ℤ◌, neg_ℤ};
    ghost use Rattle.vm_base.specs.Functions.{put};
    ghost use Rattle.refcache.specs.Places.{entries};
    ghost use Rattle.refcache.specs.Pieces.{IsLeast, EvictsInto, Decides, IsFront, IsFrontDue};
    ghost use Rattle.refcache.specs.Pieces.{ReviewsPiece, IsCount, IsNewCore};
    ghost use Rattle.refcache.specs.Steps.{IsQuiet, IsInTheWay};
    ghost use Rattle.refcache.specs.declared.reports.Queued.{Queued};

    /// A core without entries, whose queue has room for `objects` objects and one more. The error
    /// is a refusal of memory; no other call takes any.
    pub fn new(alloc: A, objects: u32) -> Result<Self, AllocError>
        ensures { IfOk result (IsNewCore (objects + 1)) }
    {
        let queue = VecDeque::with_capacity(alloc, objects as usize + 1)?;
        Ok(CoreCounts {
            places: no_entries(),
            used: PlaceSet::empty(),
            queue,
        })
    }

    /// The least object that has an entry.
    pub fn least(&self) -> Option<u32>
        ensures some { IfSome result (λ o. IsLeast (entries self.now.places) o) }
        ensures none { IfNone result ((o : ℕ) → entries self.now.places o ≡ None) }
    {
        least(&self.places, self.used)
    }

    /// The object whose entry must be evicted before the delta of `object` may change by `by`, 1 or
    /// -1: another object that stands in its place, or itself, where its delta would go past
    /// `DELTA_LIMIT`.
    pub fn in_the_way(&self, object: u32, by: i64) -> Option<u32>
        requires one { (neg_ℤ (pos 1) ≤ℤ by) × (by ≤ℤ pos 1) }
        ensures some { IfSome result (λ p. IsInTheWay (entries self.now.places) object by p) }
        ensures none { IfNone result ((p : ℕ) → IsInTheWay (entries self.now.places) object by p → ⊥) }
    {
        in_the_way(&self.places, object, by)
    }

    /// The core's entries, to count objects ahead.
    pub fn way_ahead(&self) -> WayAhead
        ensures { result ≡ self.now.places }
    {
        WayAhead::new(self.places)
    }

    /// Tells whether the queue has room for one more object.
    pub fn has_room(&self) -> bool
        ensures { result ≡ nat_lt (length self.now.queue) self.now.room }
    {
        self.queue.len() < self.queue.capacity()
    }

    /// Tells whether the entry of an object, which has this count, may be evicted: whether there is
    /// one, the queue has room for one more object, and the count takes any delta.
    pub fn can_evict(&self, count: &ObjectCount, object: u32) -> bool
        ensures entry { result ≡ true → entries self.now.places object ≢ None }
        ensures room { result ≡ true → length self.now.queue < self.now.room }
        ensures count { result ≡ true → IsCount count.now.global }
        ensures only { entries self.now.places object ≢ None → length self.now.queue < self.now.room
            → IsCount count.now.global → result ≡ true }
    {
        has_entry(&self.places, object) && self.has_room() && count.takes_any_delta()
    }

    /// The delta of an object, if the core has an entry of it.
    pub fn delta(&self, object: u32) -> Option<i64>
        ensures { result ≡ entries self.now.places object }
    {
        entry_of(&self.places, object)
    }

    /// The queue from its front on, as two slices, one behind the other.
    pub fn queue(&self) -> (&[Queued], &[Queued])
        ensures { result.0.now ++ result.1.now ≡ self.now.queue }
    {
        self.queue.as_slices()
    }

    /// Evicts the entry of an object: its delta goes into the object's count, and the object is
    /// queued in this epoch where its count is then 0 and it was in no queue.
    pub fn evict(&mut self, count: &mut ObjectCount, object: u32, epoch: u64)
        requires entry { entries self.old.places object ≢ None }
        requires room { length self.old.queue < self.old.room }
        requires count { IsCount count.old.global }
        ensures entries { entries self.new.places ≡ put (entries self.old.places) object None }
        ensures count { EvictsInto self.old count.old object epoch count.new self.new.queue }
        ensures room { self.new.room ≡ self.old.room }
    {
        let delta = delta_of(&self.places, object);
        drop_entry(&mut self.places, object);
        self.used = self.used.without(object as usize % PLACES);
        if count.add(delta) {
            self.queue.push_back_reserved(Queued { object, epoch });
        }
    }

    /// Adds 1 or -1 to the delta of an object, from 0 where it has no entry.
    pub fn add(&mut self, object: u32, by: i64)
        requires one { (neg_ℤ (pos 1) ≤ℤ by) × (by ≤ℤ pos 1) }
        requires room { (p : ℕ) → IsInTheWay (entries self.old.places) object by p → ⊥ }
        ensures entries { entries self.new.places ≡ put (entries self.old.places) object
            (Some (unwrap_or (entries self.old.places object) (pos 0) +ℤ by)) }
        ensures queue { self.new.queue ≡ self.old.queue }
        ensures room { self.new.room ≡ self.old.room }
    {
        count_entry(&mut self.places, object, by);
        self.used = self.used.with(object as usize % PLACES);
    }

    /// The front of the queue, where it was queued two epochs ago or more.
    pub fn due(&self, epoch: u64) -> Option<u32>
        ensures some { IfSome result (λ o. IsFrontDue epoch self.now.queue o) }
        ensures none { IfNone result (IsQuiet epoch self.now.queue) }
    {
        let front = self.queue.front()?;
        if epoch < 2 || epoch - 2 < front.epoch {
            return None;
        }
        Some(front.object)
    }

    /// The front of the queue, whenever it was queued.
    pub fn front(&self) -> Option<Queued>
        ensures some { IfSome result (IsFront self.now.queue) }
        ensures none { IfNone result (self.now.queue ≡ []) }
    {
        self.queue.front().copied()
    }

    /// One look at the front of the queue, an object with this count. `Idle` where there is none,
    /// or where it was queued less than two epochs ago; then nothing changes. Else the object
    /// leaves the queue: `Dropped` where the count isn't 0, `Freed` where it is and the object has
    /// no dirty mark. With the mark it loses it and is queued anew at the end: `Requeued`.
    #[tactic(auto, using(crate::proofs::Due::due_reviewed))]
    pub fn review(&mut self, count: &mut ObjectCount, epoch: u64) -> Review
        ensures reviewed { ReviewsPiece self.old.queue epoch count.old result count.new self.new.queue }
        ensures places { self.new.places ≡ self.old.places }
        ensures room { self.new.room ≡ self.old.room }
    {
        let Some(_object) = self.due(epoch) else {
            return Review::Idle;
        };
        let decided = self.decide(count, epoch);
        decided
    }

    /// Decides of the front of the queue, an object with this count, as `review` does of one that
    /// is due.
    fn decide(&mut self, count: &mut ObjectCount, epoch: u64) -> Review
        requires { 0 < length self.old.queue }
        ensures decides { (x : Queued) (rest : List Queued) → self.old.queue ≡ x ∷ rest
            → Decides x rest epoch count.old result count.new self.new.queue }
        ensures places { self.new.places ≡ self.old.places }
        ensures room { self.new.room ≡ self.old.room }
    {
        let Some(front) = self.queue.pop_front() else {
            return Review::Idle;
        };
        if count.global != 0 {
            count.is_queued = false;
            return Review::Dropped(front.object);
        }
        if !count.is_dirty {
            count.is_queued = false;
            return Review::Freed(front.object);
        }
        count.is_dirty = false;
        count.is_queued = true;
        self.queue.push_back_reserved(Queued {
            object: front.object,
            epoch,
        });
        Review::Requeued(front.object)
    }
}
