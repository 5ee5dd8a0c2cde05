//! The face of the crate: what one core translates addresses by, tables of its own (`level`) and a TLB
//! (`tlb`).
ghost use Rattle.std.specs.Prelude.{◌≡◌, ◌&&◌, ℕ, [], None, Some, Bool, true, false, is_some, not, length, ◌≤◌};
ghost use Rattle.std.specs.Prelude.{IfOk, OnOk, OnErr, List, Option, if◌then◌else◌};
ghost use Rattle.vm_base.specs.Functions.{put, over, has};
ghost use Rattle.vm_base.specs.Pages.{is_page as is_valid, are_pages};
ghost use Rattle.mmu.specs.declared.entry.Translation.{Translation};
ghost use Rattle.mmu.specs.declared.tlb.TlbEntry.{TlbEntry};
ghost use Rattle.mmu.specs.Entry.{has_right, translation_of};
ghost use Rattle.mmu.specs.Tlb.{tlb_at, tlb_without, are_distinct, is_at};
ghost use Rattle.mmu.specs.Fills.{entries_of};
ghost use Rattle.mmu.specs.Tables.{IsEmptyBeside, on_pages, translated, tlb_after, tlb_walked};
ghost use Rattle.mmu.specs.Tables.{with_last_table, word_of};

use crate::entry::Translation;
use crate::level::{Inner, Leaf, Level};
use crate::tlb::Tlb;
use crate::translated::Translated;
use std::alloc::Allocator;
use vm_base::{Access, NoMemory, PageRange, Prot};

/// Page numbers that four levels of 512 entries tell apart.
const PAGES: u64 = 512 * 512 * 512 * 512;

/// The tables of the four levels, from the root.
type Root<A> = Inner<Inner<Inner<Leaf<A>, A>, A>, A>;

/// One core's tables and TLB.
pub trait Hardware: Drop {
    /// The tables: the translation of each page that has an entry.
    ghost table: { Self → ℕ → Option Translation };

    /// Whether the page's table of the last level is there, which 512 pages share.
    ghost has_table: { Self → ℕ → Bool };

    /// The TLB, the oldest filled first.
    ghost tlb: { Self → List TlbEntry };

    /// Translates an access to a page. A translation in the TLB decides alone; without one the
    /// tables decide. A fill enters the TLB, where the oldest filled may have to go; a fault drops
    /// the page's translation from it (Intel SDM volume 3A, caching translation information). The
    /// tables stay.
    fn translate(&mut self, page: u64, access: Access) -> Translated
        requires { is_valid page ≡ true }
        ensures value { result ≡ translated (tlb_at (tlb self.old) page) (table self.old page) access }
        ensures table { table self.new ≡ table self.old }
        ensures tables { has_table self.new ≡ has_table self.old }
        ensures tlb { tlb self.new ≡ tlb_after result page (table self.old page) (tlb self.old) };

    /// Sets the table entry of a page whose protection gives some right. Memory may be wanting only
    /// where the page's table of the last level is missing: then none of the 512 pages that share it
    /// has an entry, and nothing changes. The TLB stays in both cases.
    fn install(&mut self, page: u64, frame: u32, prot: Prot) -> Result<(), NoMemory>
        requires page { is_valid page ≡ true }
        requires some_right { has_right prot ≡ true }
        ensures ok { OnOk result
            (table self.new ≡ put (table self.old) page (Some (translation_of frame prot))) }
        ensures err { OnErr result (table self.new ≡ table self.old) }
        ensures err_last { OnErr result (IsEmptyBeside (table self.old) page) }
        ensures tables { OnOk result (has_table self.new ≡ with_last_table page (has_table self.old)) }
        ensures err_tables { OnErr result (has_table self.new ≡ has_table self.old) }
        ensures err_only { OnErr result (has_table self.old page ≡ false) }
        ensures tlb { tlb self.new ≡ tlb self.old };

    /// Fills the TLB from the tables without an access, where the tables have the page and the TLB
    /// hasn't; tells whether it did. The tables stay.
    fn walk(&mut self, page: u64) -> bool
        requires { is_valid page ≡ true }
        ensures value { result
            ≡ not (is_some (tlb_at (tlb self.old) page)) && is_some (table self.old page) }
        ensures table { table self.new ≡ table self.old }
        ensures tables { has_table self.new ≡ has_table self.old }
        ensures tlb { tlb self.new
            ≡ tlb_walked (tlb_at (tlb self.old) page) (table self.old page) page (tlb self.old) };

    /// Drops the page's translation from the TLB; tells whether it had one. The tables stay.
    fn evict(&mut self, page: u64) -> bool
        ensures value { result ≡ is_some (tlb_at (tlb self.old) page) }
        ensures table { table self.new ≡ table self.old }
        ensures tables { has_table self.new ≡ has_table self.old }
        ensures tlb { tlb self.new
            ≡ (if result then tlb_without (is_at page) (tlb self.old) else tlb self.old) };

    /// Drops the table entries of the pages of the range, in the time of the tables that are there.
    /// The TLB stays.
    fn clear_tables(&mut self, range: PageRange)
        requires { are_pages range ≡ true }
        ensures table { table self.new ≡ over (table self.old) (has range) None }
        ensures tables { has_table self.new ≡ has_table self.old }
        ensures tlb { tlb self.new ≡ tlb self.old };

    /// Drops the translations of the pages of the range from the TLB (Intel SDM volume 3A,
    /// invalidation of TLBs). The tables stay.
    fn invalidate(&mut self, range: PageRange)
        ensures table { table self.new ≡ table self.old }
        ensures tables { has_table self.new ≡ has_table self.old }
        ensures tlb { tlb self.new ≡ tlb_without (has range) (tlb self.old) };

    /// The 64 bits of the page's last-level entry, if it is present.
    fn entry(&self, page: u64) -> Option<u64>
        requires { is_valid page ≡ true }
        ensures { result ≡ word_of (table self.now page) };

    ghost few: { (c : Self) → length (tlb c) ≤ 64 };

    ghost distinct: { (c : Self) → are_distinct (tlb c) ≡ true };
}

/// A core's tables and TLB.
#[derive(Drop)]
pub struct Cpu<A: Allocator + Clone> {
    root: Root<A>,
    tlb: Tlb,
    alloc: A,
}

impl<A: Allocator + Clone> Cpu<A> {
    /// A core whose tables and TLB are empty, and take no memory until an entry is set. Where the
    /// allocator can't be cloned there is no core.
    pub fn new(alloc: A) -> Result<Self, NoMemory>
        ensures table { IfOk result (λ c. (p : ℕ) → ⟦<Self as Hardware>⟧.table c p ≡ None) }
        ensures tables { IfOk result (λ c. (p : ℕ) → ⟦<Self as Hardware>⟧.has_table c p ≡ false) }
        ensures tlb { IfOk result (λ c. ⟦<Self as Hardware>⟧.tlb c ≡ []) }
    {
        let Ok(of_root) = alloc.clone() else {
            return Err(NoMemory);
        };
        match Root::make(of_root) {
            Err(_) => Err(NoMemory),
            Ok(root) => Ok(Cpu {
                root,
                tlb: Tlb::new(),
                alloc,
            }),
        }
    }

    /// Translates an access to a page that the TLB doesn't have. It stands apart so that a hit keeps
    /// few registers.
    #[inline(never)]
    fn translate_anew(&mut self, page: u64, access: Access) -> Translated
        requires page { is_valid page ≡ true }
        requires absent { tlb_at (⟦<Self as Hardware>⟧.tlb self.old) page ≡ None }
        ensures value { result ≡ translated None (⟦<Self as Hardware>⟧.table self.old page) access }
        ensures table { ⟦<Self as Hardware>⟧.table self.new ≡ ⟦<Self as Hardware>⟧.table self.old }
        ensures tables { ⟦<Self as Hardware>⟧.has_table self.new
            ≡ ⟦<Self as Hardware>⟧.has_table self.old }
        ensures tlb { ⟦<Self as Hardware>⟧.tlb self.new
            ≡ tlb_after result page (⟦<Self as Hardware>⟧.table self.old page)
            (⟦<Self as Hardware>⟧.tlb self.old) }
    {
        if let Some(entry) = self.root.entry(PAGES, page) {
            if entry.permits(access) {
                self.tlb.fill(page, entry);
                return Translated::Fill(entry.frame);
            }
        }
        Translated::Fault
    }
}

impl<A: Allocator + Clone> Hardware for Cpu<A> {
    ghost table = { λ c. on_pages (⟦<Root<A> as Level<A>>⟧.entry_at c.root) };

    ghost has_table = { λ c. ⟦<Root<A> as Level<A>>⟧.has_table c.root };

    ghost tlb = { λ c. entries_of c.tlb.places c.tlb.fills.items };

    ghost few = { λ c. c.tlb.few };

    ghost distinct = { λ c. c.tlb.distinct };

    #[inline(never)]
    fn translate(&mut self, page: u64, access: Access) -> Translated {
        if let Some(cached) = self.tlb.find(page) {
            if cached.permits(access) {
                return Translated::Hit(cached.frame);
            }
        } else {
            return self.translate_anew(page, access);
        }
        self.tlb.drop_page(page);
        Translated::Fault
    }

    fn install(&mut self, page: u64, frame: u32, prot: Prot) -> Result<(), NoMemory> {
        let translation = Translation::new(frame, prot);
        self.root.install(&self.alloc, PAGES, page, translation)
    }

    fn walk(&mut self, page: u64) -> bool {
        if self.tlb.find(page) != None {
            return false;
        }
        let Some(entry) = self.root.entry(PAGES, page) else {
            return false;
        };
        self.tlb.fill(page, entry);
        true
    }

    fn evict(&mut self, page: u64) -> bool {
        match self.tlb.find(page) {
            None => false,
            Some(_) => {
                self.tlb.drop_page(page);
                true
            }
        }
    }

    fn clear_tables(&mut self, range: PageRange) {
        self.root.clear(PAGES, range);
    }

    fn invalidate(&mut self, range: PageRange) {
        self.tlb.invalidate(range);
    }

    fn entry(&self, page: u64) -> Option<u64> {
        match self.root.entry(PAGES, page) {
            None => None,
            Some(entry) => Some(entry.word()),
        }
    }
}
