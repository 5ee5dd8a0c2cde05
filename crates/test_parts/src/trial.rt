//! `refcache`, beside its true counts, so that rows may call it with any numbers.

ghost use Rattle.std.specs.Prelude.{◌≡◌, length, IfOk};
ghost use Rattle.std.specs.List.{All};

use refcache::{Flush, Refcache, Review};
use std::alloc::{AllocError, Allocator};
use std::marker::Model;
use vm_base::CoreId;

/// So many zeros.
fn zeros<A: Allocator>(alloc: A, objects: usize) -> Result<Vec<u64, A>, AllocError>
    ensures count { IfOk result (λ v. length v.items ≡ objects) }
    ensures zero { IfOk result (λ v. All (λ k. k ≡ 0) v.items) }
{
    let mut counts = Vec::with_capacity(alloc, objects)?;
    'objects: for _object in 0..objects {
        counts.push(0)?;
    }
    Ok(counts)
}

/// A Refcache, its number of cores, the true count of each object, and whether no step but
/// beginnings has been made.
#[derive(Drop)]
pub struct Trial<A: Allocator> {
    counts: Refcache<A>,
    cores: u8,
    trues: Vec<u64, A>,
    fresh: bool,
}

impl<A: Allocator> Model for Trial<A> {
    ghost use Rattle.refcache.specs.Parts.{Parts};
    ghost use Rattle.test_parts.specs.Tried.{IsTrial};

    ghost Value = { Parts };

    ghost view = { λ t. t.counts };

    ghost invariant = { λ t. IsTrial t.counts t.cores t.trues.items t.fresh };
}

impl<A: Allocator> Trial<A> {
    ghost use Rattle.std.specs.Prelude.{◌≡◌, ◌≤◌, ◌^◌};

    /// A new Refcache: every true count is 0.
    #[tactic(auto, using(crate::proofs::Tried::trial_open))]
    pub fn new(alloc: A, cores: u8, objects: u32) -> Result<Self, AllocError>
    where
        A: Clone,
        requires cores { (1 ≤ cores) × (cores ≤ 64) }
        requires objects { objects ≤ 2 ^ 16 }
    {
        let trues = zeros(alloc.clone()?, objects as usize)?;
        let counts = Refcache::new(alloc, cores, objects)?;
        Ok(Trial {
            counts,
            cores,
            trues,
            fresh: true,
        })
    }

    /// The true count of an object.
    pub fn true_count(&self, object: u32) -> Option<u64> {
        self.trues.get(object as usize).copied()
    }

    pub fn epoch(&self) -> u64 {
        self.counts.epoch()
    }

    #[tactic(auto, using(crate::proofs::Tried::trial_used))]
    pub fn global(&self, object: u32) -> Option<i64> {
        if object as usize >= self.trues.len() {
            return None;
        }
        Some(self.counts.global(object))
    }

    /// Begins an object's count, where no step but beginnings has been made; tells whether it did.
    #[tactic(auto, using(crate::proofs::Tried::trial_begun))]
    pub fn begin(&mut self, object: u32, count: u64) -> bool {
        let index = object as usize;
        if !self.fresh || index >= self.trues.len() || count == 0 || count > 1 << 40 {
            return false;
        }
        if self.trues[index] != 0 {
            return false;
        }
        self.counts.begin(object, count);
        self.trues[index] = count;
        true
    }

    /// Counts up, where that may be done; tells whether it did.
    #[tactic(auto, using(crate::proofs::Tried::trial_up, crate::proofs::Tried::trial_used, crate::proofs::Tried::trial_few))]
    pub fn inc(&mut self, core: u8, object: u32) -> bool {
        let index = object as usize;
        if core >= self.cores || index >= self.trues.len() {
            return false;
        }
        let count = self.trues[index];
        if count == 0 || count >= 1 << 40 {
            return false;
        }
        self.counts.inc(CoreId::new(core), object);
        self.trues[index] = count + 1;
        self.fresh = false;
        true
    }

    /// Counts down, where that may be done; tells whether it did.
    #[tactic(auto, using(crate::proofs::Tried::trial_down, crate::proofs::Tried::trial_used))]
    pub fn dec(&mut self, core: u8, object: u32) -> bool {
        let index = object as usize;
        if core >= self.cores || index >= self.trues.len() {
            return false;
        }
        let count = self.trues[index];
        if count == 0 {
            return false;
        }
        self.counts.dec(CoreId::new(core), object);
        self.trues[index] = count - 1;
        self.fresh = false;
        true
    }

    /// One flush; none by a core that isn't there.
    #[tactic(auto, using(crate::proofs::Tried::trial_flushed))]
    pub fn flush(&mut self, core: u8) -> Option<Flush> {
        if core >= self.cores {
            return None;
        }
        let report = self.counts.flush(CoreId::new(core));
        self.fresh = false;
        Some(report)
    }

    /// One review; none by a core that isn't there.
    #[tactic(auto, using(crate::proofs::Tried::trial_reviewed))]
    pub fn review(&mut self, core: u8) -> Option<Review> {
        if core >= self.cores {
            return None;
        }
        let report = self.counts.review(CoreId::new(core));
        self.fresh = false;
        Some(report)
    }
}
