//! The counts of all objects and cores, as calls that rest on what holds of every run.

ghost use Rattle.std.specs.Prelude.{◌≡◌, ◌<◌, ◌≤◌, ◌+◌, ◌^◌, length, pos, slice_set, IfOk};
ghost use Rattle.std.specs.List.{All};
ghost use Rattle.refcache.specs.Parts.{object_at};
ghost use Rattle.refcache.specs.Pieces.{IsNewCount, IsNewCore};

use crate::core_counts::CoreCounts;
use crate::epochs::Epochs;
use crate::object_count::ObjectCount;
use crate::reports::{Flush, Review};
use std::alloc::{AllocError, Allocator};
use std::marker::Model;
use vm_base::CoreId;

/// Reference counts of objects, of which each core keeps its own part.
#[derive(Drop)]
pub(crate) struct CountTable<A: Allocator> {
    pub(crate) objects: Vec<ObjectCount, A>,
    pub(crate) cores: Vec<CoreCounts<A>, A>,
    pub(crate) epochs: Epochs,
}

impl<A: Allocator> Model for CountTable<A> {
    ghost use Rattle.refcache.specs.Parts.{Parts};

    ghost Value = { Parts };

    ghost view = { λ r. record {
      objects = r.objects.items;
      cores = r.cores.items;
      epochs = r.epochs;
    } };
}

impl<A: Allocator> CountTable<A> {
    ghost use Rattle.std.specs.Prelude.{◌≡◌, ◌≢◌, ℕ, ◌<◌, ◌≤◌, ◌^◌, ◌+◌, IfOk, length, None, List, ◌∷◌};
    ghost use Rattle.std.specs.Prelude.{pos, neg_ℤ, ◌≤ℤ◌};
    ghost use Rattle.refcache.specs.Counts.{Counts, no_counts, added, evicted};
    ghost use Rattle.refcache.specs.Steps.{Begin, Takes, Flushes, Reviews, MakesRoom, IsClear};
    ghost use Rattle.refcache.specs.Steps.{IsInTheWay, IsUnused};
    ghost use Rattle.refcache.specs.declared.reports.Queued.{Queued};
    ghost use Rattle.refcache.specs.Places.{entries};
    ghost use Rattle.refcache.specs.Parts.{Parts, counts_of, core_at, rooms, CanEvict};

    /// All counts 0, in epoch 0; each core's queue has room for every object and one more.
    pub(crate) fn new(alloc: A, cores: u8, objects: u32) -> Result<Self, AllocError>
    where
        A: Clone,
        requires cores { cores ≤ 64 }
        requires objects { objects ≤ 2 ^ 16 }
        ensures opening { IfOk result (λ t. counts_of t ≡ no_counts cores objects) }
        ensures room { IfOk result (λ t. (c : ℕ) → c < cores → rooms t c ≡ objects + 1) }
        ensures epochs { IfOk result (λ t. t.epochs.cores ≡ cores) }
    {
        let cells = zero_counts(alloc.clone()?, objects as usize)?;
        let parts = empty_cores(alloc, cores, objects)?;
        Ok(CountTable {
            objects: cells,
            cores: parts,
            epochs: Epochs::new(cores),
        })
    }

    /// The present epoch.
    pub(crate) fn epoch(&self) -> u64
        ensures { result ≡ (counts_of self.now).epoch }
    {
        self.epochs.number()
    }

    /// The global count of an object.
    pub(crate) fn global(&self, object: u32) -> i64
        requires { object < length self.now.objects }
        ensures { result ≡ (counts_of self.now).global object }
    {
        self.objects[object as usize].global()
    }

    /// A core evicts its entry of an object.
    fn evict(&mut self, core: usize, object: u32)
        requires { CanEvict self.old core object }
        ensures counts { counts_of self.new ≡ evicted core object (counts_of self.old) }
        ensures room { rooms self.new ≡ rooms self.old }
        ensures epochs { self.new.epochs.cores ≡ self.old.epochs.cores }
    {
        let epoch = self.epochs.number();
        let part = &mut self.cores[core];
        part.evict(&mut self.objects[object as usize], object, epoch);
    }

    /// A core without entries flushes.
    fn mark(&mut self, core: CoreId) -> Flush
        requires marks { self.old.epochs.cores ≡ length self.old.cores }
        requires clear { IsClear (counts_of self.old) core }
        ensures flushes { Flushes (counts_of self.old) core result (counts_of self.new) }
        ensures room { rooms self.new ≡ rooms self.old }
        ensures epochs { self.new.epochs.cores ≡ self.old.epochs.cores }
    {
        self.epochs.mark(core)
    }

    /// Evicts the core's least entry, or marks the core where it has none.
    pub(crate) fn flush(&mut self, core: CoreId) -> Flush
        requires core { core < length self.old.cores }
        requires marks { self.old.epochs.cores ≡ length self.old.cores }
        requires ready { (o : ℕ) → entries (core_at self.old.cores core).places o ≢ None
            → CanEvict self.old core o }
        ensures flushes { Flushes (counts_of self.old) core result (counts_of self.new) }
        ensures room { rooms self.new ≡ rooms self.old }
        ensures epochs { self.new.epochs.cores ≡ self.old.epochs.cores }
    {
        let index = core.index() as usize;
        let Some(object) = self.cores[index].least() else {
            return self.mark(core);
        };
        self.evict(index, object);
        Flush::Evicted(object)
    }

    /// Looks at the front of a core's queue.
    pub(crate) fn review(&mut self, core: usize) -> Review
        requires core { core < length self.old.cores }
        requires object { (x : Queued) (rest : List Queued)
            → (core_at self.old.cores core).queue ≡ x ∷ rest → x.object < length self.old.objects }
        ensures reviews { Reviews (counts_of self.old) core result (counts_of self.new) }
        ensures room { rooms self.new ≡ rooms self.old }
        ensures epochs { self.new.epochs.cores ≡ self.old.epochs.cores }
    {
        let epoch = self.epochs.number();
        let part = &mut self.cores[core];
        let Some(front) = part.front() else {
            return Review::Idle;
        };
        part.review(&mut self.objects[front.object as usize], epoch)
    }

    /// Adds to a core's delta of an object, where nothing is in the way.
    fn add(&mut self, core: usize, object: u32, by: i64)
        requires core { core < length self.old.cores }
        requires one { (neg_ℤ (pos 1) ≤ℤ by) × (by ≤ℤ pos 1) }
        requires room { (p : ℕ)
            → IsInTheWay (entries (core_at self.old.cores core).places) object by p → ⊥ }
        ensures counts { counts_of self.new ≡ added core object by (counts_of self.old) }
        ensures room { rooms self.new ≡ rooms self.old }
        ensures epochs { self.new.epochs.cores ≡ self.old.epochs.cores }
    {
        self.cores[core].add(object, by);
    }

    /// Evicts what is in the way of an object's delta.
    fn make_room(&mut self, core: usize, object: u32, by: i64)
        requires core { core < length self.old.cores }
        requires one { (neg_ℤ (pos 1) ≤ℤ by) × (by ≤ℤ pos 1) }
        requires ready { (o : ℕ) → entries (core_at self.old.cores core).places o ≢ None
            → CanEvict self.old core o }
        ensures makes { MakesRoom (counts_of self.old) core object by (counts_of self.new) }
        ensures free { (p : ℕ)
            → IsInTheWay (entries (core_at self.new.cores core).places) object by p → ⊥ }
        ensures room { rooms self.new ≡ rooms self.old }
        ensures epochs { self.new.epochs.cores ≡ self.old.epochs.cores }
    {
        if let Some(other) = self.cores[core].in_the_way(object, by) {
            self.evict(core, other);
        }
    }

    /// A core counts an object up or down.
    pub(crate) fn count(&mut self, core: usize, object: u32, by: i64)
        requires core { core < length self.old.cores }
        requires one { (neg_ℤ (pos 1) ≤ℤ by) × (by ≤ℤ pos 1) }
        requires ready { (o : ℕ) → entries (core_at self.old.cores core).places o ≢ None
            → CanEvict self.old core o }
        ensures counts { (m : Counts) × MakesRoom (counts_of self.old) core object by m
            × (counts_of self.new ≡ added core object by m) }
        ensures room { rooms self.new ≡ rooms self.old }
        ensures epochs { self.new.epochs.cores ≡ self.old.epochs.cores }
    {
        self.make_room(core, object, by);
        self.add(core, object, by);
    }

    /// An unused object gets this count.
    #[tactic(auto, using(crate::proofs::PartsOf::whole_begun))]
    pub(crate) fn begin(&mut self, object: u32, count: u64)
        requires object { object < length self.old.objects }
        requires unused { IsUnused (counts_of self.old) object }
        requires count { (1 ≤ count) × (count ≤ 2 ^ 40) }
        ensures counts { Takes (counts_of self.old) (Begin object count) (counts_of self.new) }
        ensures room { rooms self.new ≡ rooms self.old }
        ensures epochs { self.new.epochs.cores ≡ self.old.epochs.cores }
    {
        begin(&mut self.objects, object as usize, count);
    }
}

/// An object gets this count.
fn begin<A: Allocator>(objects: &mut Vec<ObjectCount, A>, object: usize, count: u64)
    requires object { object < length objects.old.items }
    requires count { count ≤ 2 ^ 40 }
    ensures { objects.new.items ≡ slice_set objects.old.items object
        (record (object_at objects.old.items object) { global = pos count }) }
{
    objects[object].begin(count);
}

/// This many counts of 0.
fn zero_counts<A: Allocator>(alloc: A, objects: usize) -> Result<Vec<ObjectCount, A>, AllocError>
    ensures count { IfOk result (λ v. length v.items ≡ objects) }
    ensures zero { IfOk result (λ v. All IsNewCount v.items) }
{
    let mut counts = Vec::with_capacity(alloc, objects)?;
    'objects: for _object in 0..objects {
        counts.push(ObjectCount::new())?;
    }
    Ok(counts)
}

/// This many cores without entries, whose queues have room for this many objects and one more.
fn empty_cores<A: Allocator + Clone>(
    alloc: A,
    cores: u8,
    objects: u32,
) -> Result<Vec<CoreCounts<A>, A>, AllocError>
    ensures count { IfOk result (λ v. length v.items ≡ cores) }
    ensures cores { IfOk result (λ v. All (IsNewCore (objects + 1)) v.items) }
{
    let mut parts = Vec::with_capacity(alloc.clone()?, usize::from(cores))?;
    'cores: for _core in 0..cores {
        let core = match empty_core(&alloc, objects) {
            Ok(core) => core,
            Err(e) => return Err(e),
        };
        parts.push(core)?;
    }
    Ok(parts)
}

/// A core without entries, whose queue has room for this many objects and one more.
fn empty_core<A: Allocator + Clone>(alloc: &A, objects: u32) -> Result<CoreCounts<A>, AllocError>
    ensures { IfOk result (IsNewCore (objects + 1)) }
{
    let own = alloc.clone()?;
    CoreCounts::new(own, objects)
}
