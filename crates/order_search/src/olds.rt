//! What calls have replaced, for accesses that go as before them: pages far from all others stand for it until the call has ended.

use crate::arena::{Arena, Spot, access_due, cells_in, runs_in};
use crate::pages::{is_copied, own_key, place_of};
use crate::runs::{Run, meta_at, none_mapped};
use crate::under::Under;
use frames::Objects;
use slot_lock::{Change, Touch};
use std::alloc::Allocator;
use vm_base::page::PAGE_SIZE;
use vm_base::{Access, Back, Meta, NoMemory, PageRange, Prot, Reply, SegvCode};

/// How far the pages that stand for those that a call has replaced are behind these: so many pages for each bit below that of the call, and for
/// its own.
const OLDS: u64 = 0x10_0000_0000;

/// What calls of more pages have replaced isn't kept.
const MANY: u64 = 512;

/// What a page is mapped to that stands for one that wasn't mapped: no file has this number.
const UNMAPPED: Meta = Meta {
    back: Back::Shared {
        file: 0xffff_ffff,
        page: 0,
    },
    prot: Prot {
        read: false,
        write: false,
        exec: false,
    },
};

// The page that stands for what a call has replaced on another.
fn old_page(call: &Under, page: u64) -> u64 {
    let mut far = OLDS;
    for bit in 0..64u32 {
        if call.bit == 1u64.wrapping_shl(bit) {
            return page.wrapping_add(far);
        }
        far = far.wrapping_add(OLDS);
    }
    page.wrapping_add(far)
}

impl<A: Allocator + Clone + Drop> Arena<A> {
    /// The map after a call has changed pages. Where accesses may go as before it, what was there is kept.
    pub fn replace(
        &mut self,
        spot: &Spot,
        change: Change,
        under: &Under,
    ) -> Result<Spot, NoMemory> {
        let mut new = self.change(spot, change)?;
        let range = change.range();
        if self.keeps_old && under.keeps_old() && range.end.saturating_sub(range.first) <= MANY {
            for page in range.first..range.end {
                new = self.keep_old(spot, &new, page, old_page(under, page))?;
            }
        }
        Ok(new)
    }

    // The new map, in which a page stands for what another was in the old one.
    fn keep_old(
        &mut self,
        before: &Spot,
        new: &Spot,
        page: u64,
        old: u64,
    ) -> Result<Spot, NoMemory> {
        let runs = runs_in(self.runs.as_slice(), before.runs);
        let meta = meta_at(runs, page).unwrap_or(UNMAPPED);
        let range = PageRange {
            first: old,
            end: old.saturating_add(1),
        };
        let mut kept = self.change(new, Change::Put { range, meta })?;
        if meta.back != Back::Anon {
            return Ok(kept);
        }
        let (first, end) = (own_key(page, 0), own_key(page.saturating_add(1), 0));
        self.new_cells.clear();
        self.new_cells
            .extend_from_slice(cells_in(self.cells.as_slice(), kept.cells))?;
        let mut is_new = false;
        for cell in cells_in(self.cells.as_slice(), before.cells) {
            if first <= cell.key && cell.key < end {
                let mut moved = *cell;
                moved.key = own_key(old, cell.key.wrapping_sub(first) % PAGE_SIZE);
                let at = place_of(self.new_cells.as_slice(), moved.key);
                if at <= self.new_cells.len() {
                    self.new_cells.insert(at, moved)?;
                    is_new = true;
                }
            }
        }
        if is_new {
            self.keep_cells(&mut kept)?;
        }
        Ok(kept)
    }

    /// The map in which no page stands for what a call has replaced any more.
    pub fn drop_olds(&mut self, spot: &Spot, call: &Under) -> Result<Spot, NoMemory> {
        let range = PageRange {
            first: old_page(call, call.pages.first),
            end: old_page(call, call.pages.end),
        };
        if !call.keeps_old() || none_mapped(runs_in(self.runs.as_slice(), spot.runs), range) {
            return Ok(*spot);
        }
        self.change(spot, Change::Clear { range })
    }

    /// Tells whether an access has its reply with what a call has replaced. A private page of a file isn't looked at.
    pub fn holds_late(
        &self,
        objects: &Objects<A>,
        spot: &Spot,
        access: &Under,
        behind: &Under,
    ) -> bool {
        let Some(touch) = access.touch() else {
            return false;
        };
        if !behind.keeps_old() || !behind.pages.contains(touch.page) {
            return false;
        }
        let old = old_page(behind, touch.page);
        let runs = runs_in(self.runs.as_slice(), spot.runs);
        let cells = cells_in(self.cells.as_slice(), spot.cells);
        if behind.by_kernel {
            return self.kernel_holds(objects, spot, access, behind, touch);
        }
        match meta_at(runs, old) {
            None => false,
            Some(meta) if meta == UNMAPPED => access.reply == Reply::Segv(SegvCode::MapErr),
            Some(meta) => {
                let touch = Touch { page: old, ..touch };
                !matches!(meta.back, Back::Private { .. })
                    && access_due(objects, runs, cells, touch) == access.reply
            }
        }
    }

    // The same by the kernels' rule. Behind `mprotect` the page has its frame of now, and its old rights; a refusal is of one that wasn't seen new.
    fn kernel_holds(
        &self,
        objects: &Objects<A>,
        spot: &Spot,
        access: &Under,
        behind: &Under,
        touch: Touch,
    ) -> bool {
        let runs = runs_in(self.runs.as_slice(), spot.runs);
        let cells = cells_in(self.cells.as_slice(), spot.cells);
        let Some(meta) = meta_at(runs, old_page(behind, touch.page)) else {
            return false;
        };
        if meta == UNMAPPED {
            return false;
        }
        let at = if behind.protects() {
            touch.page
        } else {
            old_page(behind, touch.page)
        };
        let run = Run {
            first: at,
            end: at.saturating_add(1),
            meta,
        };
        let is_uncopied = matches!(meta.back, Back::Private { .. }) && !is_copied(cells, at);
        if is_uncopied && (access.changes || !behind.protects()) {
            return false;
        }
        let is_fetch = matches!(touch.access, Access::Fetch);
        let may = match access.reply {
            Reply::Byte(_) | Reply::Done => true,
            Reply::Segv(SegvCode::AccErr) => is_fetch || behind.protects(),
            _ => behind.protects(),
        };
        let touch = Touch { page: at, ..touch };
        may && access_due(objects, &[run], cells, touch) == access.reply
    }

    /// The map in which nothing stands any more for what other calls have replaced that have a page of this one.
    pub fn drop_met(
        &mut self,
        spot: &Spot,
        calls: &[Under],
        under: &Under,
    ) -> Result<Spot, NoMemory> {
        let mut new = *spot;
        for other in calls {
            let meets = other.pages.first < under.pages.end && under.pages.first < other.pages.end;
            if other.bit != under.bit && meets {
                new = self.drop_olds(&new, other)?;
            }
        }
        Ok(new)
    }

    /// The map after such an access: a store that is done changes what was replaced.
    pub fn apply_late(
        &mut self,
        objects: &Objects<A>,
        spot: &Spot,
        access: &Under,
        behind: &Under,
    ) -> Result<Option<Spot>, NoMemory> {
        if !self.holds_late(objects, spot, access, behind) {
            return Ok(None);
        }
        match access.touch() {
            Some(touch) if access.changes => {
                let page = if behind.by_kernel && behind.protects() {
                    touch.page
                } else {
                    old_page(behind, touch.page)
                };
                self.store(objects, spot, Touch { page, ..touch })
            }
            _ => Ok(Some(*spot)),
        }
    }
}
