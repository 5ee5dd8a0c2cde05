//! What some pages have, as a list that is in order of pages.
ghost use Rattle.std.specs.Prelude.{◌≡◌, ◌≤◌, ◌<◌, ℕ, None, Some, length, not, true};
ghost use Rattle.vm_base.specs.Functions.{has, over, put};
ghost use Rattle.state_seen.specs.Lists.{IsAbove, at_page, is_there, page_in};

use std::alloc::Allocator;
use std::marker::Model;
use vm_base::PageRange;

/// What a page has.
#[derive(Clone, Copy)]
pub struct OfPage<V: Copy> {
    /// The page.
    pub page: u64,
    /// What it has.
    pub value: V,
}

/// What some pages have, the lowest page first.
#[derive(Drop)]
pub struct PageList<V: Copy, A: Allocator> {
    entries: Vec<OfPage<V>, A>,
}

impl<V: Copy, A: Allocator> Model for PageList<V, A> {
    ghost use Rattle.std.specs.Prelude.{List};
    ghost use Rattle.state_seen.specs.declared.list.OfPage.{OfPage as EntryOf};
    ghost use Rattle.state_seen.specs.Lists.{IsAbove};

    ghost Value = { List (EntryOf V) };

    ghost view = { λ t. t.entries.items };

    ghost invariant = { λ t. IsAbove 0 t.entries.items };
}

// The place of the first entry that is of this page, or of a higher one.
fn place_of<V: Copy>(entries: &[OfPage<V>], page: u64) -> usize
    requires { IsAbove 0 entries.now }
    ensures within { result ≤ length entries.now }
    ensures below { (k : ℕ) → k < result → page_in entries.now k < page }
    ensures above { (k : ℕ) → result ≤ k → k < length entries.now → page ≤ page_in entries.now k }
{
    let mut low = 0;
    let mut high = entries.len();
    'halves: while low < high {
        let middle = low + (high - low) / 2;
        if entries[middle].page < page {
            low = middle + 1;
        } else {
            high = middle;
        }
    }
    low
}

// Tells whether the entry at the place is of the page.
fn is_there<V: Copy>(entries: &[OfPage<V>], place: usize, page: u64) -> bool
    ensures { result ≡ is_there entries.now place page }
{
    place < entries.len() && entries[place].page == page
}

// Tells whether the entry's page is none of the range's.
fn is_outside<V: Copy>(entry: &OfPage<V>, range: PageRange) -> bool
    ensures { result ≡ not (has range entry.now.page) }
{
    !range.contains(entry.page)
}

// The pages of the range have no entry any more.
fn drop_range<V: Copy, A: Allocator>(entries: &mut Vec<OfPage<V>, A>, range: PageRange)
    requires { IsAbove 0 entries.old.items }
    ensures order { IsAbove 0 entries.new.items }
    ensures at { (q : ℕ) → at_page entries.new.items q ≡ over (at_page entries.old.items) (has range) None q }
{
    entries.retain(|entry| is_outside(entry, range));
}

// The page has no entry any more.
fn drop_page<V: Copy, A: Allocator>(entries: &mut Vec<OfPage<V>, A>, page: u64)
    requires { IsAbove 0 entries.old.items }
    ensures order { IsAbove 0 entries.new.items }
    ensures at { (q : ℕ) → at_page entries.new.items q ≡ put (at_page entries.old.items) page None q }
{
    let place = place_of(entries.as_slice(), page);
    if is_there(entries.as_slice(), place, page) {
        entries.remove(place);
    }
}

// Takes in an entry of a page that has none; false where there was no room.
fn add<V: Copy, A: Allocator>(entries: &mut Vec<OfPage<V>, A>, page: u64, value: V) -> bool
    requires order { IsAbove 0 entries.old.items }
    requires new { at_page entries.old.items page ≡ None }
    ensures order { IsAbove 0 entries.new.items }
    ensures at { result ≡ true → (q : ℕ) → at_page entries.new.items q ≡ put (at_page entries.old.items) page (Some value) q }
{
    let place = place_of(entries.as_slice(), page);
    entries.insert(place, OfPage { page, value }).is_ok()
}

// The page has this, or nothing; false where there was no room for it.
fn set_page<V: Copy, A: Allocator>(
    entries: &mut Vec<OfPage<V>, A>,
    page: u64,
    value: Option<V>,
) -> bool
    requires { IsAbove 0 entries.old.items }
    ensures order { IsAbove 0 entries.new.items }
    ensures at { result ≡ true → (q : ℕ) → at_page entries.new.items q ≡ put (at_page entries.old.items) page value q }
{
    drop_page(entries, page);
    match value {
        None => true,
        Some(value) => add(entries, page, value),
    }
}

impl<V: Copy, A: Allocator> PageList<V, A> {
    ghost use Rattle.std.specs.Prelude.{◌≡◌, ℕ, [], None, true};
    ghost use Rattle.vm_base.specs.Functions.{has, over, put};
    ghost use Rattle.state_seen.specs.Lists.{IsAbove, at_page};

    /// No page has anything.
    pub fn new(alloc: A) -> PageList<V, A>
        ensures { result ≡ [] }
    {
        PageList {
            entries: Vec::new(alloc),
        }
    }

    /// What pages have, the lowest page first.
    pub fn entries(&self) -> &[OfPage<V>]
        ensures value { result.now ≡ self.now }
        ensures order { IsAbove 0 self.now }
    {
        self.entries.as_slice()
    }

    /// No page of the range has anything any more.
    pub fn clear(&mut self, range: PageRange)
        ensures { (q : ℕ) → at_page self.new q ≡ over (at_page self.old) (has range) None q }
    {
        drop_range(&mut self.entries, range);
    }

    /// The page has this, or nothing; false where there was no room for it.
    pub fn set(&mut self, page: u64, value: Option<V>) -> bool
        ensures { result ≡ true → (q : ℕ) → at_page self.new q ≡ put (at_page self.old) page value q }
    {
        set_page(&mut self.entries, page, value)
    }
}
