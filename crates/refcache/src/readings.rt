//! What there is to read of a Refcache: its sizes, the entries and queues of cores, and the true counts of objects.

ghost use Rattle.std.specs.Prelude.{◌≡◌, unwrap_or, pos};

use crate::reports::Queued;
use crate::whole::Refcache;
use std::alloc::Allocator;
use vm_base::{CoreId, CoreSet};

/// The core's delta of the object, 0 where it has no entry.
fn delta_or_0(delta: Option<i64>) -> i64
    ensures { result ≡ unwrap_or delta (pos 0) }
{
    match delta {
        Some(delta) => delta,
        None => 0,
    }
}

impl<A: Allocator> Refcache<A> {
    ghost use Rattle.std.specs.Prelude.{◌≡◌, ◌<◌, ◌≤◌, ◌++◌, ◌^◌, pos, neg_ℤ, ◌≤ℤ◌};
    ghost use Rattle.refcache.specs.Counts.{delta_of, true_count};
    ghost use Rattle.refcache.specs.Sums.{sum_below};
    ghost use Rattle.refcache.specs.Parts.{counts_of};
    ghost use Rattle.refcache.specs.Pieces.{IsCount};
    ghost use Rattle.refcache.specs.Steps.{IsDelta};
    ghost use Rattle.vm_base.specs.Cores.{members};

    /// How many cores there are.
    pub fn cores(&self) -> usize
        ensures is { result ≡ (counts_of self.now).cores }
        ensures few { result ≤ 64 }
    {
        self.table.cores.len()
    }

    /// The core's delta of the object, if it has an entry of it.
    pub fn delta(&self, core: CoreId, object: u32) -> Option<i64>
        requires { core < (counts_of self.now).cores }
        ensures { result ≡ (counts_of self.now).delta core object }
    {
        self.table.cores[core.index() as usize].delta(object)
    }

    /// The core's review queue from its front on, as two slices, one behind the other.
    pub fn queue(&self, core: CoreId) -> (&[Queued], &[Queued])
        requires { core < (counts_of self.now).cores }
        ensures { result.0.now ++ result.1.now ≡ (counts_of self.now).queue core }
    {
        self.table.cores[core.index() as usize].queue()
    }

    /// The cores that have flushed in the present epoch.
    pub fn flushed(&self) -> CoreSet
        ensures { members result ≡ (counts_of self.now).flushed }
    {
        self.table.epochs.flushed()
    }

    /// Whether its global count left zero and came back to it since it was queued.
    pub fn is_dirty(&self, object: u32) -> bool
        requires { object < (counts_of self.now).objects }
        ensures { result ≡ (counts_of self.now).dirty object }
    {
        self.table.objects[object as usize].is_dirty()
    }

    // The core's delta of the object, 0 where it has no entry.
    fn delta_of(&self, core: CoreId, object: u32) -> i64
        requires { core < (counts_of self.now).cores }
        ensures is { result ≡ delta_of (counts_of self.now) core object }
        ensures little { IsDelta result }
    {
        let _ = &self.table;
        let delta = self.delta(core, object);
        delta_or_0(delta)
    }

    // What the deltas of all cores add up to.
    fn deltas(&self, object: u32) -> i64
        ensures is { result ≡ sum_below (counts_of self.now).cores (λ c. delta_of (counts_of self.now) c object) }
        ensures little { (neg_ℤ (pos (2 ^ 46)) ≤ℤ result) × (result ≤ℤ pos (2 ^ 46)) }
    {
        let mut deltas = 0;
        'cores: for core in 0..self.cores() as u8 {
            let delta = self.delta_of(CoreId::new(core), object);
            deltas += delta;
        }
        deltas
    }

    // The global count of the object.
    fn global_count(&self, object: u32) -> i64
        requires { object < (counts_of self.now).objects }
        ensures is { result ≡ (counts_of self.now).global object }
        ensures little { IsCount result }
    {
        let _ = &self.table;
        self.global(object)
    }

    /// The true count of the object: its global count, and the deltas of all cores.
    pub fn true_count(&self, object: u32) -> i64
        requires { object < (counts_of self.now).objects }
        ensures { result ≡ true_count (counts_of self.now) object }
    {
        self.global_count(object) + self.deltas(object)
    }
}
