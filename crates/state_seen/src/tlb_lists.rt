//! A TLB as a list, the oldest filled first.
ghost use Rattle.std.specs.Prelude.{◌≡◌, ◌==◌, not, position};
ghost use Rattle.vm_base.specs.Functions.{has};
ghost use Rattle.mmu.specs.Entry.{permits};
ghost use Rattle.mmu.specs.Tlb.{is_at, tlb_at, tlb_filled, tlb_without};

use arrayvec::ArrayVec;
use mmu::entry::Translation;
use mmu::tlb::TlbEntry;
use vm_base::{Access, PageRange};

/// How many translations a TLB holds at most.
pub const PLACES: usize = 64;

/// Tells whether the translation permits the access.
pub(crate) fn permits(translation: Translation, access: Access) -> bool
    ensures { result ≡ permits translation access }
{
    match access {
        Access::Load => true,
        Access::Store => translation.write,
        Access::Fetch => translation.exec,
    }
}

// The place of the page's translation.
fn place_of(tlb: &[TlbEntry], page: u64) -> Option<usize>
    ensures { result ≡ position (λ e. e.page == page) tlb.now }
{
    tlb.iter().position(|entry| entry.page == page)
}

/// The translation of the page.
pub(crate) fn find(tlb: &[TlbEntry], page: u64) -> Option<Translation>
    ensures { result ≡ tlb_at tlb.now page }
{
    match place_of(tlb, page) {
        None => None,
        Some(place) => Some(tlb[place].translation),
    }
}

/// Takes a translation in. Where there is no room, the oldest filled goes.
pub(crate) fn fill(tlb: &mut ArrayVec<TlbEntry, PLACES>, page: u64, translation: Translation)
    ensures { tlb.new.items ≡ tlb_filled page translation tlb.old.items }
{
    if tlb.is_full() {
        tlb.remove(0);
    }
    tlb.push(TlbEntry { page, translation });
}

// Tells whether the entry's page is none of the range's.
fn is_outside(entry: &TlbEntry, range: PageRange) -> bool
    ensures { result ≡ not (has range entry.now.page) }
{
    !range.contains(entry.page)
}

// Tells whether the entry is another page's.
fn is_other(entry: &TlbEntry, page: u64) -> bool
    ensures { result ≡ not (is_at page entry.now.page) }
{
    entry.page != page
}

/// Drops the translations of the pages of the range.
pub(crate) fn invalidate(tlb: &mut ArrayVec<TlbEntry, PLACES>, range: PageRange)
    ensures { tlb.new.items ≡ tlb_without (has range) tlb.old.items }
{
    tlb.retain(|entry| is_outside(entry, range));
}

/// Drops the translation of the page.
pub(crate) fn drop_page(tlb: &mut ArrayVec<TlbEntry, PLACES>, page: u64)
    ensures { tlb.new.items ≡ tlb_without (is_at page) tlb.old.items }
{
    tlb.retain(|entry| is_other(entry, page));
}
