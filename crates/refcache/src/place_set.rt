//! Which places of a core have an entry, as bits.

ghost use Rattle.std.specs.Prelude.{◌≡◌, ℕ, ◌<◌, IfNone, IfSome, true, false};
ghost use Rattle.vm_base.specs.Functions.{put};
ghost use Rattle.vm_base.specs.Cores.{members};

use std::marker::Model;

/// A set of a core's 64 places, which is passed by value. A clause sees it as a number whose bit
/// `i` is 1 where place `i` is a member.
#[derive(Clone, Copy)]
pub(crate) struct PlaceSet {
    bits: u64,
}

impl Model for PlaceSet {
    ghost Value = { ℕ };

    ghost view = { λ s. s.bits };

    ghost inverse = { λ n. record { bits = n } };
}

impl PlaceSet {
    /// The set without a place.
    pub(crate) fn empty() -> Self
        ensures { result ≡ 0 }
    {
        PlaceSet { bits: 0 }
    }

    /// The set and the place, which may be a member already.
    pub(crate) fn with(self, place: usize) -> PlaceSet
        requires { place < 64 }
        ensures { members result ≡ put (members self) place true }
    {
        PlaceSet {
            bits: self.bits | (1 << place),
        }
    }

    /// The set without the place, which need not be a member.
    pub(crate) fn without(self, place: usize) -> PlaceSet
        requires { place < 64 }
        ensures { members result ≡ put (members self) place false }
    {
        PlaceSet {
            bits: self.bits & !(1 << place),
        }
    }

    /// The least member, if there is one. `set.without(first)` goes on to the next.
    pub(crate) fn first(self) -> Option<usize>
        ensures none { IfNone result (self ≡ 0) }
        ensures inside { IfSome result (λ i. i < 64) }
        ensures member { IfSome result (λ i. members self i ≡ true) }
        ensures least { IfSome result (λ i. (k : ℕ) → k < i → members self k ≡ false) }
    {
        if self.bits == 0 {
            return None;
        }
        Some(self.bits.trailing_zeros() as usize)
    }
}
