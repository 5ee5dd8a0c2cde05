//! Page tables of one level and those below: a finite map from the pages that they cover to
//! translations.
ghost use Rattle.std.specs.Prelude.{◌≡◌, ◌≢◌, ℕ, ◌+◌, ◌^◌, length, ◌*◌, ◌/◌, ◌%◌, ◌<◌, ◌≤◌, Option};
ghost use Rattle.std.specs.Prelude.{◌==◌, Bool, true, false};
ghost use Rattle.std.specs.Prelude.{None, Some, IfOk, OnOk, OnErr, vec_len, slice_index};
ghost use Rattle.std.specs.Prelude.{slice_index_or, option_and_then};
ghost use Rattle.vm_base.specs.Functions.{over, has};
ghost use Rattle.mmu.specs.Entry.{decode};
ghost use Rattle.mmu.specs.Tables.{in_table, with_last_table};
ghost use Rattle.mmu.specs.declared.entry.Translation.{Translation};
ghost use Rattle.std.proofs.Common.{lit<, arith, refl};

use crate::entry::{Translation, decode};
use std::alloc::Allocator;
use vm_base::{NoMemory, PageRange};

/// Entries of a table.
pub const ENTRIES: u64 = 512;

/// A table and all below it. The pages that it covers have numbers from 0 on.
pub trait Level<A: Allocator>: Drop {
    ghost pages: { ℕ };

    ghost entry_at: { Self → ℕ → Option Translation };

    /// Whether the page's table of the last level is there.
    ghost has_table: { Self → ℕ → Bool };

    /// The entry of a page, in a table that covers `width` pages.
    fn entry(&self, width: u64, page: u64) -> Option<Translation>
        requires width { width ≡ pages }
        requires page { page < pages }
        ensures { result ≡ entry_at self.now page };

    /// Drops the entries of the pages of the range. Only tables that are there are looked at.
    fn clear(&mut self, width: u64, range: PageRange)
        requires width { width ≡ pages }
        requires covered { range.end ≤ pages }
        ensures entries { (q : ℕ) → q < pages
            → entry_at self.new q ≡ over (entry_at self.old) (has range) None q }
        ensures tables { (q : ℕ) → has_table self.new q ≡ has_table self.old q };

    /// A table without entries, and without tables below it.
    fn make(alloc: A) -> Result<Self, NoMemory>
    where
        Self: Sized,
        ensures entries { IfOk result (λ t. (page : ℕ) → entry_at t page ≡ None) }
        ensures tables { IfOk result (λ t. (page : ℕ) → has_table t page ≡ (pages == 512)) };

    /// Sets the entry of a page. Memory is refused only where the page's table of the last level is
    /// missing, so that none of the 512 pages that share it has an entry; then nothing changes.
    fn install(
        &mut self,
        alloc: &A,
        width: u64,
        page: u64,
        translation: Translation,
    ) -> Result<(), NoMemory>
        requires width { width ≡ pages }
        requires page { page < pages }
        ensures there { OnOk result (entry_at self.new page ≡ Some translation) }
        ensures err { OnErr result (entry_at self.new page ≡ entry_at self.old page) }
        ensures err_last { OnErr result ((q : ℕ) → q < pages → q / 512 ≡ page / 512
            → entry_at self.old q ≡ None) }
        ensures others { (q : ℕ) → q < pages → q ≢ page → entry_at self.new q ≡ entry_at self.old q }
        ensures tables { OnOk result ((q : ℕ)
            → has_table self.new q ≡ with_last_table page (has_table self.old) q) }
        ensures err_tables { OnErr result ((q : ℕ) → has_table self.new q ≡ has_table self.old q) }
        ensures err_only { OnErr result (has_table self.old page ≡ false) };

    ghost some_page: { 0 < pages };

    // the pages are those of whole tables of the last level
    ghost whole: { pages ≡ 512 * (pages / 512) };
}

/// A table of the last level: 512 entries of 64 bits, 0 where a page has none.
#[derive(Drop)]
pub struct Leaf<A: Allocator> {
    entries: Box<[u64; 512], A>,
}

impl<A: Allocator + Clone> Level<A> for Leaf<A> {
    ghost pages = { 512 };

    ghost entry_at = { λ t page. decode (slice_index t.entries.value page) };

    ghost has_table = { λ t page. true };

    ghost some_page = { lit< tt };

    ghost whole = { refl };

    fn entry(&self, _width: u64, page: u64) -> Option<Translation> {
        decode(self.entries[page as usize])
    }

    fn clear(&mut self, _width: u64, range: PageRange) {
        erase(self.entries.as_mut(), range);
    }

    fn make(alloc: A) -> Result<Self, NoMemory> {
        match Box::new(alloc, [0; 512]) {
            Ok(entries) => Ok(Leaf { entries }),
            Err(_) => Err(NoMemory),
        }
    }

    fn install(
        &mut self,
        _alloc: &A,
        _width: u64,
        page: u64,
        translation: Translation,
    ) -> Result<(), NoMemory> {
        self.entries[page as usize] = translation.word();
        Ok(())
    }
}

/// Makes the words of the range 0.
fn erase(words: &mut [u64; 512], range: PageRange)
    requires { range.end ≤ 512 }
    ensures { (q : ℕ) → slice_index words.new q ≡ over (λ p. slice_index words.old p) (has range) 0 q }
{
    'pages: for page in range.first..range.end {
        words[page as usize] = 0;
    }
}

/// A table of a higher level: places for at most 512 tables below, up to the last that was needed.
/// A place beyond is one without a table.
#[derive(Drop)]
pub struct Inner<C: Drop, A: Allocator> {
    tables: Vec<Option<C>, A>,
}

impl<C: Level<A>, A: Allocator + Clone> Level<A> for Inner<C, A> {
    ghost pages = { 512 * C.pages };

    ghost entry_at = { λ t page. option_and_then (λ b. C.entry_at b (page % C.pages))
        (slice_index_or t.tables.items (page / C.pages) None) };

    ghost has_table = { λ t page. in_table (λ b. C.has_table b (page % C.pages))
        (slice_index_or t.tables.items (page / C.pages) None) };

    ghost some_page = { Prim.omega (arith, C.some_page) };

    ghost whole = { Prim.omega arith };

    fn entry(&self, width: u64, page: u64) -> Option<Translation> {
        let below = width / ENTRIES;
        let i = (page / below) as usize;
        if i >= self.tables.len() {
            return None;
        }
        match &self.tables[i] {
            None => None,
            Some(table) => table.entry(below, page % below),
        }
    }

    fn clear(&mut self, width: u64, range: PageRange) {
        clear_tables(&mut self.tables, width / ENTRIES, range);
    }

    fn make(alloc: A) -> Result<Self, NoMemory> {
        Ok(Inner {
            tables: Vec::new(alloc),
        })
    }

    fn install(
        &mut self,
        alloc: &A,
        width: u64,
        page: u64,
        translation: Translation,
    ) -> Result<(), NoMemory> {
        let below = width / ENTRIES;
        self.reach((page / below) as usize)?;
        self.install_at(alloc, below, page, translation)
    }
}

impl<C: Level<A>, A: Allocator + Clone> Inner<C, A> {
    /// Makes the place and all before it, without tables, where they aren't there yet. Memory is refused
    /// only then, and no place is added.
    fn reach(&mut self, place: usize) -> Result<(), NoMemory>
        requires { place < 512 }
        ensures ok { OnOk result (place < vec_len self.new.tables) }
        ensures err { OnErr result (vec_len self.old.tables ≤ place) }
        ensures entries { (q : ℕ) → ⟦<Self as Level<A>>⟧.entry_at self.new q
            ≡ ⟦<Self as Level<A>>⟧.entry_at self.old q }
        ensures tables { (q : ℕ) → ⟦<Self as Level<A>>⟧.has_table self.new q
            ≡ ⟦<Self as Level<A>>⟧.has_table self.old q }
    {
        if place < self.tables.len() {
            return Ok(());
        }
        let missing = place + 1 - self.tables.len();
        if self.tables.reserve(missing).is_err() {
            return Err(NoMemory);
        }
        'places: for _ in 0..missing {
            self.tables.push_reserved(None);
        }
        Ok(())
    }

    /// Sets the entry of a page whose place is there, among tables that cover `below` pages each.
    fn install_at(
        &mut self,
        alloc: &A,
        below: u64,
        page: u64,
        translation: Translation,
    ) -> Result<(), NoMemory>
        requires below { below ≡ C.pages }
        requires within { page / below < vec_len self.old.tables }
        ensures there { OnOk result (⟦<Self as Level<A>>⟧.entry_at self.new page ≡ Some translation) }
        ensures err { OnErr result (⟦<Self as Level<A>>⟧.entry_at self.new page
            ≡ ⟦<Self as Level<A>>⟧.entry_at self.old page) }
        ensures err_last { OnErr result ((q : ℕ) → q / 512 ≡ page / 512
            → ⟦<Self as Level<A>>⟧.entry_at self.old q ≡ None) }
        ensures others { (q : ℕ) → q ≢ page
            → ⟦<Self as Level<A>>⟧.entry_at self.new q ≡ ⟦<Self as Level<A>>⟧.entry_at self.old q }
        ensures tables { OnOk result ((q : ℕ) → ⟦<Self as Level<A>>⟧.has_table self.new q
            ≡ with_last_table page (⟦<Self as Level<A>>⟧.has_table self.old) q) }
        ensures err_tables { OnErr result ((q : ℕ) → ⟦<Self as Level<A>>⟧.has_table self.new q
            ≡ ⟦<Self as Level<A>>⟧.has_table self.old q) }
        ensures err_only { OnErr result (⟦<Self as Level<A>>⟧.has_table self.old page ≡ false) }
    {
        let i = (page / below) as usize;
        match &mut self.tables[i] {
            Some(table) => table.install(alloc, below, page % below, translation),
            None => {
                let table = made::<C, A>(alloc, below, page % below, translation)?;
                self.tables[i] = Some(table);
                Ok(())
            }
        }
    }
}

/// A table with one entry.
fn made<C: Level<A>, A: Allocator + Clone>(
    alloc: &A,
    width: u64,
    page: u64,
    translation: Translation,
) -> Result<C, NoMemory>
    requires width { width ≡ C.pages }
    requires page { page < C.pages }
    ensures there { IfOk result (λ t. C.entry_at t page ≡ Some translation) }
    ensures others { IfOk result (λ t. (q : ℕ) → q < C.pages → q ≢ page → C.entry_at t q ≡ None) }
    ensures tables { IfOk result (λ t. (q : ℕ)
        → C.has_table t q ≡ with_last_table page (λ _. C.pages == 512) q) }
{
    let Ok(for_table) = alloc.clone() else {
        return Err(NoMemory);
    };
    let mut table = C::make(for_table)?;
    table.install(alloc, width, page, translation)?;
    Ok(table)
}

/// Drops the entries of the pages of the range, from tables that cover `below` pages each.
fn clear_tables<C: Level<A>, A: Allocator>(
    tables: &mut Vec<Option<C>, A>,
    below: u64,
    range: PageRange,
)
    requires below { below ≡ C.pages }
    ensures entries { (q : ℕ)
        → option_and_then (λ t. C.entry_at t (q % C.pages))
        (slice_index_or tables.new.items (q / C.pages) None)
        ≡ over (λ p. option_and_then (λ t. C.entry_at t (p % C.pages))
        (slice_index_or tables.old.items (p / C.pages) None)) (has range) None q }
    ensures tables { (q : ℕ)
        → in_table (λ t. C.has_table t (q % C.pages)) (slice_index_or tables.new.items (q / C.pages) None)
        ≡ in_table (λ t. C.has_table t (q % C.pages)) (slice_index_or tables.old.items (q / C.pages) None) }
{
    let needed = range.end.div_ceil(below);
    let end = needed.min(tables.len() as u64);
    'tables: for i in range.first / below..end {
        clear_table(
            &mut tables[i as usize],
            below,
            part(range, i * below, below),
        );
    }
}

/// Drops the entries of the pages of the range, where the table is there.
fn clear_table<C: Level<A>, A: Allocator>(table: &mut Option<C>, width: u64, range: PageRange)
    requires width { width ≡ C.pages }
    requires covered { range.end ≤ C.pages }
    ensures entries { (r : ℕ) → r < C.pages
        → option_and_then (λ t. C.entry_at t r) table.new
        ≡ over (λ q. option_and_then (λ t. C.entry_at t q) table.old) (has range) None r }
    ensures tables { (r : ℕ) → in_table (λ t. C.has_table t r) table.new
        ≡ in_table (λ t. C.has_table t r) table.old }
{
    if let Some(table) = table {
        table.clear(width, range);
    }
}

/// The part of the range that lies in the `count` pages from `first` on, with numbers from there on.
fn part(range: PageRange, first: u64, count: u64) -> PageRange
    ensures covered { result.end ≤ count }
    ensures pages { (r : ℕ) → r < count → has result r ≡ has range (first + r) }
{
    PageRange {
        first: range.first.saturating_sub(first),
        end: range.end.saturating_sub(first).min(count),
    }
}
