//! Cores and sets of cores.
ghost use Rattle.std.specs.Prelude.{◌≡◌, ℕ, ◌<◌, ◌↔◌, IsTrue, IfNone, IfSome, true, false};
ghost use Rattle.vm_base.specs.Functions.{put};
ghost use Rattle.vm_base.specs.Cores.{members, either, with_member};

use std::marker::Model;

/// A core (a logical processor in the Intel SDM's words), numbered 0 to 63. A clause sees it as its
/// number.
#[derive(Clone, Copy, Debug, PartialEq, Eq)]
pub struct CoreId {
    index: u8,
}

impl Model for CoreId {
    ghost Value = { ℕ };

    ghost view = { λ c. c.index };

    ghost invariant = { λ c. c.index < 64 };

    ghost inverse = { λ n. record { index = n } };
}

impl CoreId {
    /// The core of this number. The caller has seen that it is below 64.
    pub fn new(index: u8) -> Self
        requires { index < 64 }
        ensures { result ≡ index }
    {
        CoreId { index }
    }

    /// The core's number, 0 to 63.
    pub fn index(self) -> u8
        ensures value { result ≡ self }
        ensures in_range { self < 64 }
    {
        self.index
    }
}

/// A set of cores: those that may have a translation of a page, or those that are still waited for.
/// It takes no memory, and is passed by value. A clause sees it as a number whose bit `c` is 1
/// where core `c` is a member.
#[derive(Clone, Copy, Debug, PartialEq, Eq)]
pub struct CoreSet {
    bits: u64,
}

impl Model for CoreSet {
    ghost Value = { ℕ };

    ghost view = { λ s. s.bits };

    ghost inverse = { λ n. record { bits = n } };
}

impl CoreSet {
    /// The set without a core.
    pub fn empty() -> Self
        ensures { result ≡ 0 }
    {
        CoreSet { bits: 0 }
    }

    /// Tells whether no core is in the set.
    pub fn is_empty(self) -> bool
        ensures { IsTrue result ↔ (self ≡ 0) }
    {
        self.bits == 0
    }

    /// Tells whether the core is in the set.
    pub fn contains(self, core: CoreId) -> bool
        ensures { result ≡ members self core }
    {
        (self.bits >> core.index()) & 1 == 1
    }

    /// The set and the core, which may be a member already.
    pub fn with(self, core: CoreId) -> CoreSet
        ensures members { members result ≡ put (members self) core true }
        ensures value { result ≡ with_member self core }
    {
        CoreSet {
            bits: self.bits | (1 << core.index()),
        }
    }

    /// The set without the core, which need not be a member.
    pub fn without(self, core: CoreId) -> CoreSet
        ensures { members result ≡ put (members self) core false }
    {
        CoreSet {
            bits: self.bits & !(1 << core.index()),
        }
    }

    /// The cores of either set.
    pub fn union(self, other: CoreSet) -> CoreSet
        ensures { members result ≡ either (members self) (members other) }
    {
        CoreSet {
            bits: self.bits | other.bits,
        }
    }

    /// The member with the least number, if there is one. `set.without(first)` goes on to the next.
    pub fn first(self) -> Option<CoreId>
        ensures none { IfNone result (self ≡ 0) }
        ensures member { IfSome result (λ core. members self core ≡ true) }
        ensures least { IfSome result (λ core. (k : ℕ) → k < core → members self k ≡ false) }
    {
        if self.is_empty() {
            return None;
        }
        Some(CoreId::new(self.bits.trailing_zeros() as u8))
    }
}
