//! One who watches a machine's steps, and knows at each moment what its cores do and hold.
ghost use Rattle.std.specs.Prelude.{◌≡◌, ℕ, IfOk, None, length};
ghost use Rattle.state_seen.specs.Edits.{table_at};
ghost use Rattle.state_seen.specs.Held.{held, nothing_held};
ghost use Rattle.state_seen.specs.Shown.{IsNothing, Seen};

use crate::held::CoreHeld;
use crate::{PageList, Used};
use machine_model::Phase;
use mmu::entry::Translation;
use std::alloc::{AllocError, Allocator};
use std::marker::Model;

/// The most cores.
pub const CORES: usize = 64;

/// What the cores of a machine do and hold. A clause sees it as `Seen`.
#[derive(Drop)]
pub struct Mirror<A: Allocator> {
    /// Whether all was taken in so far: there was room for each message, and for each entry of tables.
    pub(crate) whole: bool,
    /// The epoch.
    pub(crate) epoch: u64,
    /// Where the calls of the cores stand.
    pub(crate) phases: [Phase; CORES],
    /// What the cores hold.
    pub(crate) cores: Vec<CoreHeld, A>,
    /// The cores' tables.
    pub(crate) tables: Vec<PageList<Translation, A>, A>,
    /// The pages that have a frame, or on which a core is recorded.
    pub(crate) pages: PageList<Used, A>,
}

impl<A: Allocator> Model for Mirror<A> {
    ghost Value = { Seen };

    ghost view = { λ m. record {
      whole = m.whole;
      epoch = m.epoch;
      phases = m.phases;
      cores = m.cores.items;
      tables = m.tables.items;
      pages = m.pages;
    } };

    ghost invariant = { λ m. (length m.cores.items ≡ 64) × (length m.tables.items ≡ 64) };
}

// This many cores that hold nothing.
#[tactic(auto, using(crate::proofs::Lines::held_pushed))]
fn empty_cores<A: Allocator>(alloc: A) -> Result<Vec<CoreHeld, A>, AllocError>
    ensures full { IfOk result (λ cores. length cores.items ≡ 64) }
    ensures empty { IfOk result (λ cores. (c : ℕ) → held cores.items c ≡ nothing_held) }
{
    let mut cores = Vec::with_capacity(alloc, CORES)?;
    'cores: for _core in 0..64u8 {
        cores.push_reserved(CoreHeld::new());
    }
    Ok(cores)
}

// This many tables without entries.
#[tactic(auto, using(crate::proofs::Lines::table_pushed))]
fn empty_tables<A: Allocator + Clone>(
    alloc: A,
) -> Result<Vec<PageList<Translation, A>, A>, AllocError>
    ensures full { IfOk result (λ tables. length tables.items ≡ 64) }
    ensures empty { IfOk result (λ tables. (c p : ℕ) → table_at tables.items c p ≡ None) }
{
    let own = alloc.clone()?;
    let mut tables = Vec::with_capacity(own, CORES)?;
    'cores: for _core in 0..64u8 {
        let own = alloc.clone()?;
        tables.push_reserved(PageList::new(own));
    }
    Ok(tables)
}

impl<A: Allocator + Clone> Mirror<A> {
    ghost use Rattle.std.specs.Prelude.{IfOk};
    ghost use Rattle.state_seen.specs.Shown.{IsNothing};

    /// One who hasn't seen a step yet. An error is a refusal of memory.
    pub fn new(alloc: A) -> Result<Mirror<A>, AllocError>
        ensures { IfOk result IsNothing }
    {
        let own = alloc.clone()?;
        let cores = empty_cores(own)?;
        let own = alloc.clone()?;
        let tables = empty_tables(own)?;
        Ok(Mirror {
            whole: true,
            epoch: 0,
            phases: [Phase::Free; CORES],
            cores,
            tables,
            pages: PageList::new(alloc),
        })
    }
}

impl<A: Allocator> Mirror<A> {
    ghost use Rattle.std.specs.Prelude.{◌≡◌, ◌<◌, length, slice_index_or};

    /// Whether all was taken in.
    pub fn is_whole(&self) -> bool
        ensures { result ≡ self.now.whole }
    {
        self.whole
    }

    /// The epoch.
    pub fn epoch(&self) -> u64
        ensures { result ≡ self.now.epoch }
    {
        self.epoch
    }

    /// Where the calls of the cores stand.
    pub fn phases(&self) -> &[Phase]
        ensures value { result.now ≡ self.now.phases }
        ensures full { length result.now ≡ 64 }
    {
        &self.phases
    }

    /// What the cores hold.
    pub fn cores(&self) -> &[CoreHeld]
        ensures value { result.now ≡ self.now.cores }
        ensures full { length result.now ≡ 64 }
    {
        self.cores.as_slice()
    }

    /// The cores' tables.
    pub fn tables(&self) -> &[PageList<Translation, A>]
        ensures value { result.now ≡ self.now.tables }
        ensures full { length result.now ≡ 64 }
    {
        self.tables.as_slice()
    }

    /// The pages that have a frame, or on which a core is recorded.
    pub fn pages(&self) -> &PageList<Used, A>
        ensures { result.now ≡ self.now.pages }
    {
        &self.pages
    }
}
