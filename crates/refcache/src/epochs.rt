//! Epochs: one ends when every core has flushed in it.

ghost use Rattle.std.specs.Prelude.{◌≡◌, ℕ, ◌<◌, ◌≤◌, ◌+◌, ◌^◌, true, false, MatchBool};
ghost use Rattle.vm_base.specs.Cores.{members};
ghost use Rattle.vm_base.specs.Functions.{put};
ghost use Rattle.refcache.specs.Epochs.{Marks, AllMarked};

use crate::reports::Flush;
use std::marker::Model;
use vm_base::{CoreId, CoreSet};

/// Tells whether each of the first `cores` cores is in the set.
fn has_all(flushed: CoreSet, cores: u8) -> bool
    requires { cores ≤ 64 }
    ensures { MatchBool result (AllMarked cores (members flushed))
        (AllMarked cores (members flushed) → ⊥) }
{
    'cores: for core in 0..cores {
        if !flushed.contains(CoreId::new(core)) {
            return false;
        }
    }
    true
}

/// The present epoch, and the cores that have flushed in it.
#[derive(Drop)]
pub struct Epochs {
    cores: u8,
    number: u64,
    flushed: CoreSet,
}

impl Model for Epochs {
    ghost use Rattle.std.specs.Prelude.{◌≤◌};
    ghost use Rattle.refcache.specs.Epochs.{Epoch};

    ghost Value = { Epoch };

    ghost view = { λ e. record { cores = e.cores; number = e.number; flushed = e.flushed } };

    ghost invariant = { λ e. e.cores ≤ 64 };
}

impl Epochs {
    /// Epoch 0 of this many cores, 1 to 64, in which none has flushed.
    pub fn new(cores: u8) -> Self
        requires { cores ≤ 64 }
        ensures { result ≡ record { cores = cores; number = 0; flushed = 0 } }
    {
        Epochs {
            cores,
            number: 0,
            flushed: CoreSet::empty(),
        }
    }

    /// The present epoch. The first is 0.
    pub fn number(&self) -> u64
        ensures { result ≡ self.now.number }
    {
        self.number
    }

    /// The cores that have flushed in this epoch.
    pub fn flushed(&self) -> CoreSet
        ensures { result ≡ self.now.flushed }
    {
        self.flushed
    }

    /// Marks a core without delta entries as flushed in this epoch: `Flushed`, or `EpochEnded`
    /// where it was the last one to be marked, so that the next epoch has begun, without marks.
    /// `Idle` where the core is marked, or where the last epoch, 2^64 - 1, would end; then nothing
    /// changes. The answer is never `Evicted`.
    #[tactic(auto, using(crate::proofs::Way::no_members))]
    pub fn mark(&mut self, core: CoreId) -> Flush
        ensures marks { Marks self.old.cores self.old.number
            (members self.old.flushed) core result self.new.number (members self.new.flushed) }
        ensures cores { self.new.cores ≡ self.old.cores }
    {
        if self.flushed.contains(core) {
            return Flush::Idle;
        }
        let flushed = self.flushed.with(core);
        if !has_all(flushed, self.cores) {
            self.flushed = flushed;
            return Flush::Flushed;
        }
        if self.number == u64::MAX {
            return Flush::Idle;
        }
        self.flushed = CoreSet::empty();
        self.number += 1;
        Flush::EpochEnded
    }
}
