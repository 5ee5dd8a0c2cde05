//! The places of a core for its delta entries: an object may stand in one of them alone.

ghost use Rattle.std.specs.Prelude.{◌≡◌, ℕ, None, Some, IfSome, IfNone, MatchBool, is_some, length};
ghost use Rattle.std.specs.Prelude.{replicate, unwrap_or, pos, ◌+ℤ◌, ◌≤ℤ◌, neg_ℤ, ◌%◌, true, false};
ghost use Rattle.vm_base.specs.Functions.{put};
ghost use Rattle.refcache.specs.Places.{entries, in_use, IsFreeFor};
ghost use Rattle.refcache.specs.Pieces.{ArePlaces};
ghost use Rattle.refcache.specs.Steps.{IsDelta, IsInTheWay};

/// How many places a core has. Object `o` may stand in place `o % PLACES`.
pub const PLACES: usize = 64;

/// A core's delta of an object.
#[derive(Clone, Copy)]
pub struct Delta {
    pub object: u32,
    pub delta: i64,
}

/// Places without an entry.
pub(crate) fn no_entries() -> [Option<Delta>; PLACES]
    ensures { result ≡ replicate 64 None }
{
    [None; PLACES]
}

/// The delta of an object, 0 where it has no entry.
pub(crate) fn delta_of(places: &[Option<Delta>], object: u32) -> i64
    requires { length places.now ≡ 64 }
    ensures { result ≡ unwrap_or (entries places.now object) (pos 0) }
{
    let place = places[object as usize % PLACES];
    match place {
        Some(entry) if entry.object == object => entry.delta,
        _ => 0,
    }
}

/// The delta of an object, if it has an entry.
pub(crate) fn entry_of(places: &[Option<Delta>], object: u32) -> Option<i64>
    requires { length places.now ≡ 64 }
    ensures { result ≡ entries places.now object }
{
    let place = places[object as usize % PLACES];
    match place {
        Some(entry) if entry.object == object => Some(entry.delta),
        _ => None,
    }
}

/// Tells whether an object has an entry.
pub(crate) fn has_entry(places: &[Option<Delta>], object: u32) -> bool
    requires { length places.now ≡ 64 }
    ensures { result ≡ is_some (entries places.now object) }
{
    let place = places[object as usize % PLACES];
    match place {
        Some(entry) => entry.object == object,
        None => false,
    }
}

/// Gives an object this delta.
#[tactic(auto, using(crate::proofs::Way::places_set, crate::proofs::Way::in_use_set))]
fn put_entry(places: &mut [Option<Delta>], object: u32, delta: i64)
    requires places { ArePlaces places.old }
    requires free { IsFreeFor places.old object }
    requires small { IsDelta delta }
    ensures places { ArePlaces places.new }
    ensures entries { entries places.new ≡ put (entries places.old) object (Some delta) }
    ensures used { in_use places.new ≡ put (in_use places.old) (object % 64) true }
{
    places[object as usize % PLACES] = Some(Delta { object, delta });
}

/// Drops the entry of an object.
#[tactic(auto, using(crate::proofs::Way::places_dropped, crate::proofs::Way::in_use_set))]
pub(crate) fn drop_entry(places: &mut [Option<Delta>], object: u32)
    requires places { ArePlaces places.old }
    requires free { IsFreeFor places.old object }
    ensures places { ArePlaces places.new }
    ensures entries { entries places.new ≡ put (entries places.old) object None }
    ensures used { in_use places.new ≡ put (in_use places.old) (object % 64) false }
{
    places[object as usize % PLACES] = None;
}

/// How far a delta may go from 0.
pub(crate) const DELTA_LIMIT: i64 = 1 << 40;

/// Tells whether a delta is small enough.
fn is_delta(delta: i64) -> bool
    ensures { MatchBool result (IsDelta delta) (IsDelta delta → ⊥) }
{
    -DELTA_LIMIT <= delta && delta <= DELTA_LIMIT
}

/// The object whose entry must go before the delta of `object` changes by `by`.
pub(crate) fn in_the_way(places: &[Option<Delta>], object: u32, by: i64) -> Option<u32>
    requires places { ArePlaces places.now }
    requires one { (neg_ℤ (pos 1) ≤ℤ by) × (by ≤ℤ pos 1) }
    ensures some { IfSome result (λ p. IsInTheWay (entries places.now) object by p) }
    ensures none { IfNone result ((p : ℕ) → IsInTheWay (entries places.now) object by p
        → ⊥) }
{
    let entry = places[object as usize % PLACES]?;
    if entry.object != object {
        return Some(entry.object);
    }
    if is_delta(entry.delta + by) {
        None
    } else {
        Some(object)
    }
}

/// An object's delta with one more or less.
fn counted_on(places: &[Option<Delta>], object: u32, by: i64) -> i64
    requires places { ArePlaces places.now }
    requires one { (neg_ℤ (pos 1) ≤ℤ by) × (by ≤ℤ pos 1) }
    requires small { IsDelta (unwrap_or (entries places.now object) (pos 0)) }
    ensures { result ≡ unwrap_or (entries places.now object) (pos 0) +ℤ by }
{
    delta_of(places, object) + by
}

/// Adds 1 or -1 to the delta of an object, from 0 where it has no entry.
#[tactic(auto, using(crate::proofs::Way::free_way, crate::proofs::Way::small_delta, crate::proofs::Way::next_small))]
pub(crate) fn count_entry(places: &mut [Option<Delta>], object: u32, by: i64)
    requires places { ArePlaces places.old }
    requires one { (neg_ℤ (pos 1) ≤ℤ by) × (by ≤ℤ pos 1) }
    requires free { (p : ℕ) → IsInTheWay (entries places.old) object by p → ⊥ }
    ensures places { ArePlaces places.new }
    ensures entries { entries places.new ≡ put (entries places.old) object
        (Some (unwrap_or (entries places.old object) (pos 0) +ℤ by)) }
    ensures used { in_use places.new ≡ put (in_use places.old) (object % 64) true }
{
    let delta = counted_on(places, object, by);
    put_entry(places, object, delta);
}
