//! Which entries must go while a core counts several objects, told before any of them is counted.

ghost use Rattle.std.specs.Prelude.{◌≡◌, ℕ, None, IfSome, IfNone, pos, ◌≤ℤ◌, neg_ℤ};
ghost use Rattle.refcache.specs.Places.{entries};
ghost use Rattle.refcache.specs.Pieces.{ArePlaces, without};
ghost use Rattle.refcache.specs.Steps.{IsInTheWay};

use crate::places::{Delta, PLACES, count_entry, drop_entry, in_the_way};
use std::marker::Model;

/// Drops the entry that is in the way before the delta of `object` changes by `by`, and tells whose
/// it was.
#[tactic(auto, using(crate::proofs::Way::own_place))]
fn clear_way(places: &mut [Option<Delta>], object: u32, by: i64) -> Option<u32>
    requires places { ArePlaces places.old }
    requires one { (neg_ℤ (pos 1) ≤ℤ by) × (by ≤ℤ pos 1) }
    ensures some { IfSome result (λ p. IsInTheWay (entries places.old) object by p) }
    ensures none { IfNone result ((p : ℕ) → IsInTheWay (entries places.old) object by p → ⊥) }
    ensures left { entries places.new ≡ without result (entries places.old) }
    ensures free { (p : ℕ) → IsInTheWay (entries places.new) object by p → ⊥ }
    ensures places { ArePlaces places.new }
{
    let other = in_the_way(places, object, by)?;
    drop_entry(places, other);
    Some(other)
}

/// A copy of a core's entries, in which objects are counted ahead of the core. It takes no memory.
/// A clause sees it as the places of the entries.
#[derive(Drop)]
pub struct WayAhead {
    places: [Option<Delta>; PLACES],
}

impl Model for WayAhead {
    ghost use Rattle.std.specs.Prelude.{List, Option};
    ghost use Rattle.refcache.specs.declared.places.Delta.{Delta};
    ghost use Rattle.refcache.specs.Pieces.{ArePlaces};

    ghost Value = { List (Option Delta) };

    ghost view = { λ w. w.places };

    ghost invariant = { λ w. ArePlaces w.places };
}

impl WayAhead {
    ghost use Rattle.std.specs.Prelude.{◌≡◌, ℕ, IfSome, IfNone, Some, unwrap_or, pos, ◌+ℤ◌, ◌≤ℤ◌};
    ghost use Rattle.std.specs.Prelude.{neg_ℤ};
    ghost use Rattle.vm_base.specs.Functions.{put};
    ghost use Rattle.refcache.specs.Places.{entries};
    ghost use Rattle.refcache.specs.Pieces.{ArePlaces, without};
    ghost use Rattle.refcache.specs.Steps.{IsInTheWay};

    /// A copy of these places.
    pub(crate) fn new(places: [Option<Delta>; PLACES]) -> Self
        requires { ArePlaces places }
        ensures { result ≡ places }
    {
        WayAhead { places }
    }

    /// The object whose entry the core must evict before its delta of `object` may change by `by`,
    /// 1 or -1, once it has evicted what was told before and counted all objects asked for before.
    /// The entry leaves the copy, and the object is counted there.
    pub fn count(&mut self, object: u32, by: i64) -> Option<u32>
        requires one { (neg_ℤ (pos 1) ≤ℤ by) × (by ≤ℤ pos 1) }
        ensures some { IfSome result (λ p. IsInTheWay (entries self.old) object by p) }
        ensures none { IfNone result ((p : ℕ) → IsInTheWay (entries self.old) object by p → ⊥) }
        ensures counted { let left = without result (entries self.old) in
            entries self.new ≡ put left object (Some (unwrap_or (left object) (pos 0) +ℤ by)) }
    {
        let other = clear_way(&mut self.places, object, by);
        count_entry(&mut self.places, object, by);
        other
    }
}
