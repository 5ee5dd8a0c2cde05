//! The maps of all configurations, each as two parts of long lists: its runs, and its bytes. A map is never changed; a new one is appended.

use crate::configs::Config;
use crate::pages::{
    Cell, add_copy, drop_pages, file_key, first_byte, is_copied, own_key, put_byte, shown_byte,
};
use crate::runs::{Run, all_mapped, change_runs, first_hole, least_room, meta_at, none_mapped};
use crate::under::Under;
use frames::Objects;
use slot_lock::{Change, Place, Plan, Touch};
use std::alloc::Allocator;
use vm_base::page::{PAGE_LIMIT, PAGE_SIZE, is_page_start};
use vm_base::{
    Access, Back, Errno, Meta, NoMemory, PageRange, Prot, Reply, SegvCode, allows, page_of,
};

/// How long the lists are at least before what nobody needs is left out.
const FEW: usize = 100_000;

/// How long they may be.
const MOST: usize = 20_000_000;

/// Odd numbers far apart, by which the parts of a run are multiplied: sums of the products are the same only by chance.
const FIRST: u64 = 0xc2b2_ae3d_27d4_eb4f;

const END: u64 = 0x1656_67b1_9e37_79f9;

const META: u64 = 0x85eb_ca77_c2b2_ae63;

const BACK: u64 = 0x27d4_eb2f_1656_67c5;

/// A part of a list.
#[derive(Clone, Copy, PartialEq, Eq)]
pub(crate) struct Span {
    pub first: usize,
    pub end: usize,
}

/// Where a map is, and numbers that two maps share only by chance.
#[derive(Clone, Copy)]
pub(crate) struct Spot {
    pub runs: Span,
    pub cells: Span,
    pub runs_print: u64,
    pub cells_print: u64,
}

impl Spot {
    /// Where the empty map is.
    pub fn empty() -> Spot {
        let nowhere = Span { first: 0, end: 0 };
        Spot {
            runs: nowhere,
            cells: nowhere,
            runs_print: 1,
            cells_print: 2,
        }
    }
}

/// All maps.
#[derive(Drop)]
pub(crate) struct Arena<A: Allocator> {
    pub runs: Vec<Run, A>,
    pub cells: Vec<Cell, A>,
    new_runs: Vec<Run, A>,
    pub new_cells: Vec<Cell, A>,
    /// Whether it is kept what calls replace now.
    pub keeps_old: bool,
    most: usize,
}

/// A part of a list of runs.
pub(crate) fn runs_in(runs: &[Run], span: Span) -> &[Run] {
    if span.first <= span.end && span.end <= runs.len() {
        return &runs[span.first..span.end];
    }
    &runs[0..0]
}

/// A part of a list of cells.
pub(crate) fn cells_in(cells: &[Cell], span: Span) -> &[Cell] {
    if span.first <= span.end && span.end <= cells.len() {
        return &cells[span.first..span.end];
    }
    &cells[0..0]
}

// Appends a part, and tells where it is.
fn append<T: Copy, A: Allocator>(list: &mut Vec<T, A>, part: &[T]) -> Result<Span, NoMemory> {
    let first = list.len();
    list.extend_from_slice(part)?;
    let end = list.len();
    Ok(Span { first, end })
}

// A number many times.
fn scaled(number: u64, by: u64) -> u64 {
    number.wrapping_mul(by)
}

/// A number and another, mixed.
pub(crate) fn mixed(print: u64, number: u64) -> u64 {
    let mut mixed = (print ^ number).wrapping_mul(0x9e37_79b9_7f4a_7c15);
    mixed ^= mixed >> 29;
    mixed = mixed.wrapping_mul(0xbf58_476d_1ce4_e5b9);
    mixed ^ (mixed >> 32)
}

// A number for a mapping.
fn meta_number(meta: &Meta) -> u64 {
    let prot = u64::from(meta.prot.read)
        + 2 * u64::from(meta.prot.write)
        + 4 * u64::from(meta.prot.exec);
    let (kind, page) = match meta.back {
        Back::Anon => (0, 0),
        Back::Shared { file, page } => (1 + 2 * u64::from(file), page),
        Back::Private { file, page } => (2 + 2 * u64::from(file), page),
    };
    scaled(prot + 8 * kind, META).wrapping_add(scaled(page, BACK))
}

// A number for runs: a sum, so that the processor can mix several at a time.
fn runs_print(runs: &[Run]) -> u64 {
    let mut print = 1u64;
    for run in runs {
        let place = scaled(run.first, FIRST).wrapping_add(scaled(run.end, END));
        print = print.wrapping_add(mixed(0, place.wrapping_add(meta_number(&run.meta))));
    }
    print
}

// A number for cells.
fn cells_print(cells: &[Cell]) -> u64 {
    let mut print = 2u64;
    for cell in cells {
        let place = scaled(cell.key, FIRST);
        print = print.wrapping_add(mixed(0, place.wrapping_add(scaled(u64::from(cell.byte), END))));
    }
    print
}

/// What an access is answered where this is mapped.
pub(crate) fn access_due<A: Allocator>(
    objects: &Objects<A>,
    runs: &[Run],
    cells: &[Cell],
    touch: Touch,
) -> Reply {
    let Some(meta) = meta_at(runs, touch.page) else {
        return Reply::Segv(SegvCode::MapErr);
    };
    if !allows(meta.prot, touch.access) {
        return Reply::Segv(SegvCode::AccErr);
    }
    match (
        shown_byte(objects, cells, meta.back, touch.page, touch.offset),
        touch.access,
    ) {
        (None, _) => Reply::Bus,
        (Some(_), Access::Store) => Reply::Done,
        (Some(byte), _) => Reply::Byte(byte),
    }
}

// Tells whether a run is of a shared file that isn't open for writing.
fn is_read_only<A: Allocator>(objects: &Objects<A>, back: Back) -> bool {
    match back {
        Back::Shared { file, .. } => match objects.mode(u64::from(file)) {
            Some(mode) => !mode.can_write(),
            None => false,
        },
        _ => false,
    }
}

// Why a change is refused, if it is.
fn refusal<A: Allocator>(objects: &Objects<A>, runs: &[Run], change: Change) -> Option<Errno> {
    let Change::Protect { range, prot } = change else {
        return None;
    };
    if !all_mapped(runs, range) {
        return Some(Errno::ENOMEM);
    }
    if !prot.write {
        return None;
    }
    for run in runs {
        if run.first < range.end && range.first < run.end && is_read_only(objects, run.meta.back) {
            return Some(Errno::EACCES);
        }
    }
    None
}

// The first page of a range that may not be protected so, where this is the first that isn't mapped, and its error.
fn first_stop<A: Allocator>(
    objects: &Objects<A>,
    runs: &[Run],
    range: PageRange,
    prot: Prot,
    hole: u64,
) -> (u64, Errno) {
    if prot.write {
        for run in runs {
            let first = run.first.max(range.first);
            if first < run.end && first < hole && is_read_only(objects, run.meta.back) {
                return (first, Errno::EACCES);
            }
        }
    }
    (hole, Errno::ENOMEM)
}

// Tells whether a mapping may be at this page, or nowhere.
fn is_allowed(runs: &[Run], any_place: bool, place: &Place, found: Option<u64>) -> bool {
    if any_place {
        let all = PageRange {
            first: 1,
            end: PAGE_LIMIT,
        };
        return match found {
            Some(first) => {
                let end = first.saturating_add(place.count);
                first >= 1 && end <= PAGE_LIMIT && none_mapped(runs, PageRange { first, end })
            }
            None => least_room(runs, all, place.count).is_none(),
        };
    }
    if let Some(hint) = place.hint {
        if none_mapped(runs, hint) {
            return found == Some(hint.first);
        }
    }
    found == least_room(runs, place.window, place.count)
}

// The change that a mapping is that was put at this address, if it may be there.
fn placed(runs: &[Run], any_place: bool, place: &Place, addr: u64) -> Option<Change> {
    if !is_page_start(addr) {
        return None;
    }
    let first = page_of(addr);
    if !is_allowed(runs, any_place, place, Some(first)) {
        return None;
    }
    let range = PageRange {
        first,
        end: first.saturating_add(place.count),
    };
    Some(Change::Put {
        range,
        meta: place.meta,
    })
}

// Tells whether a reply is that of a change.
fn is_reply_to(change: Change, reply: Reply) -> bool {
    match change {
        Change::Put { range, .. } => reply == Reply::Mapped(range.first.wrapping_mul(PAGE_SIZE)),
        Change::Clear { .. } | Change::Protect { .. } => reply == Reply::Done,
    }
}

impl<A: Allocator + Clone + Drop> Arena<A> {
    /// No map is there but the empty one.
    pub fn new(alloc: &A) -> Result<Arena<A>, NoMemory> {
        Ok(Arena {
            runs: Vec::new(alloc.clone()?),
            cells: Vec::new(alloc.clone()?),
            new_runs: Vec::new(alloc.clone()?),
            new_cells: Vec::new(alloc.clone()?),
            keeps_old: false,
            most: FEW,
        })
    }

    /// How long the lists are.
    pub fn ends(&self) -> (usize, usize) {
        (self.runs.len(), self.cells.len())
    }

    /// Lets go what was appended since they were so long.
    pub fn cut(&mut self, ends: (usize, usize)) {
        self.runs.truncate(ends.0);
        self.cells.truncate(ends.1);
    }

    /// Tells whether they are longer than they may be.
    pub fn is_full(&self) -> bool {
        self.runs.len() > MOST || self.cells.len() > MOST
    }

    /// Tells whether what nobody needs should be left out.
    pub fn is_long(&self) -> bool {
        self.runs.len() > self.most || self.cells.len() > self.most
    }

    /// Tells whether a change, but of a mapping that is placed, has its reply in a map.
    pub fn is_allowed(&self, objects: &Objects<A>, spot: &Spot, under: &Under) -> bool {
        let runs = runs_in(self.runs.as_slice(), spot.runs);
        match under.plan {
            Ok(Plan::Change(change)) => {
                is_reply_to(change, under.reply) && refusal(objects, runs, change).is_none()
            }
            _ => false,
        }
    }

    /// Tells whether a call, which changes nothing, has its reply in a map.
    pub fn holds(&self, objects: &Objects<A>, any_place: bool, spot: &Spot, under: &Under) -> bool {
        let runs = runs_in(self.runs.as_slice(), spot.runs);
        let cells = cells_in(self.cells.as_slice(), spot.cells);
        match (under.reply, under.plan) {
            (Reply::NoMemory, _) => true,
            (Reply::NoFrame, Ok(Plan::Touch(touch))) => matches!(
                access_due(objects, runs, cells, touch),
                Reply::Byte(_) | Reply::Done
            ),
            (reply, Err(due)) => reply == due,
            (reply, Ok(Plan::Touch(touch))) => access_due(objects, runs, cells, touch) == reply,
            (Reply::Refused(errno), Ok(Plan::Change(change))) => {
                refusal(objects, runs, change) == Some(errno)
            }
            (Reply::Refused(Errno::ENOMEM), Ok(Plan::Place(place))) => {
                is_allowed(runs, any_place, &place, None)
            }
            _ => false,
        }
    }

    // Appends the new runs.
    fn keep_runs(&mut self, spot: &mut Spot) -> Result<(), NoMemory> {
        spot.runs = append(&mut self.runs, self.new_runs.as_slice())?;
        spot.runs_print = runs_print(self.new_runs.as_slice());
        Ok(())
    }

    /// Appends the new cells.
    pub fn keep_cells(&mut self, spot: &mut Spot) -> Result<(), NoMemory> {
        spot.cells = append(&mut self.cells, self.new_cells.as_slice())?;
        spot.cells_print = cells_print(self.new_cells.as_slice());
        Ok(())
    }

    /// The map after a change.
    pub fn change(&mut self, spot: &Spot, change: Change) -> Result<Spot, NoMemory> {
        let mut new = *spot;
        change_runs(
            &mut self.new_runs,
            runs_in(self.runs.as_slice(), spot.runs),
            change,
        )?;
        self.keep_runs(&mut new)?;
        match change {
            Change::Protect { .. } => {}
            Change::Put { range, .. } | Change::Clear { range } => {
                let cells = cells_in(self.cells.as_slice(), spot.cells);
                drop_pages(&mut self.new_cells, cells, range)?;
                if self.new_cells.len() != cells.len() {
                    self.keep_cells(&mut new)?;
                }
            }
        }
        Ok(new)
    }

    // Takes the bytes of a map as the new ones, to be changed, with a copy of the page's own, if one is due.
    fn take_cells(&mut self, spot: &Spot, back: Back, page: u64) -> Result<(), NoMemory> {
        let cells = cells_in(self.cells.as_slice(), spot.cells);
        self.new_cells.clear();
        self.new_cells.extend_from_slice(cells)?;
        match back {
            Back::Private { file, page: at } if !is_copied(cells, page) => {
                add_copy(&mut self.new_cells, cells, file, at, page)
            }
            _ => Ok(()),
        }
    }

    /// The map after a store that is done.
    pub fn store(
        &mut self,
        objects: &Objects<A>,
        spot: &Spot,
        touch: Touch,
    ) -> Result<Option<Spot>, NoMemory> {
        let runs = runs_in(self.runs.as_slice(), spot.runs);
        let Some(meta) = meta_at(runs, touch.page) else {
            return Ok(None);
        };
        self.take_cells(spot, meta.back, touch.page)?;
        let (key, first) = match meta.back {
            Back::Anon => (own_key(touch.page, touch.offset), Some(0)),
            Back::Shared { file, page } => (
                file_key(file, page, touch.offset),
                first_byte(objects, file, page, touch.offset),
            ),
            Back::Private { file, page } => (
                own_key(touch.page, touch.offset),
                first_byte(objects, file, page, touch.offset),
            ),
        };
        put_byte(&mut self.new_cells, key, touch.byte, first.unwrap_or(0))?;
        let mut new = *spot;
        self.keep_cells(&mut new)?;
        Ok(Some(new))
    }

    /// The map after a call that changes something, if it has its reply in this one.
    pub fn apply(
        &mut self,
        objects: &Objects<A>,
        any_place: bool,
        spot: &Spot,
        under: &Under,
    ) -> Result<Option<Spot>, NoMemory> {
        let runs = runs_in(self.runs.as_slice(), spot.runs);
        match under.plan {
            Err(_) => Ok(None),
            Ok(Plan::Touch(touch)) => {
                let cells = cells_in(self.cells.as_slice(), spot.cells);
                if under.reply != Reply::Done
                    || access_due(objects, runs, cells, touch) != Reply::Done
                {
                    return Ok(None);
                }
                self.store(objects, spot, touch)
            }
            Ok(Plan::Change(change)) => {
                if !is_reply_to(change, under.reply) || refusal(objects, runs, change).is_some() {
                    return Ok(None);
                }
                Ok(Some(self.replace(spot, change, under)?))
            }
            Ok(Plan::Place(place)) => {
                let Reply::Mapped(addr) = under.reply else {
                    return Ok(None);
                };
                let Some(change) = placed(runs, any_place, &place, addr) else {
                    return Ok(None);
                };
                Ok(Some(self.replace(spot, change, under)?))
            }
        }
    }

    /// The map after the pages of a range were protected in front of the first that isn't mapped, and how many these are, if some are and
    /// there is one.
    pub fn protect_front(
        &mut self,
        spot: &Spot,
        range: PageRange,
        prot: Prot,
    ) -> Result<Option<(Spot, u32)>, NoMemory> {
        let runs = runs_in(self.runs.as_slice(), spot.runs);
        let hole = first_hole(runs, range);
        if hole <= range.first || hole >= range.end {
            return Ok(None);
        }
        let front = PageRange {
            first: range.first,
            end: hole,
        };
        let count = (hole.wrapping_sub(range.first) & 0xffff_ffff) as u32;
        let new = self.change(spot, Change::Protect { range: front, prot })?;
        Ok(Some((new, count)))
    }

    /// The map after the pages of a range were protected in front of the first that may not be, and how many these are, where the error is
    /// that page's.
    pub fn protect_to(
        &mut self,
        objects: &Objects<A>,
        spot: &Spot,
        range: PageRange,
        prot: Prot,
        error: Errno,
    ) -> Result<Option<(Spot, u64)>, NoMemory> {
        let runs = runs_in(self.runs.as_slice(), spot.runs);
        let hole = first_hole(runs, range).min(range.end);
        let (stop, due) = first_stop(objects, runs, range, prot, hole);
        if stop >= range.end || stop < range.first || due != error {
            return Ok(None);
        }
        let front = PageRange {
            first: range.first,
            end: stop,
        };
        let count = stop.saturating_sub(range.first);
        if count == 0 {
            return Ok(Some((*spot, 0)));
        }
        let new = self.change(spot, Change::Protect { range: front, prot })?;
        Ok(Some((new, count)))
    }

    /// The map after a page's copy, if one is due.
    pub fn copy(
        &mut self,
        objects: &Objects<A>,
        spot: &Spot,
        page: u64,
    ) -> Result<Option<Spot>, NoMemory> {
        let runs = runs_in(self.runs.as_slice(), spot.runs);
        let cells = cells_in(self.cells.as_slice(), spot.cells);
        let Some(meta) = meta_at(runs, page) else {
            return Ok(None);
        };
        let Back::Private { file, page: at } = meta.back else {
            return Ok(None);
        };
        if !allows(meta.prot, Access::Store)
            || is_copied(cells, page)
            || objects.is_past_end(file, at)
        {
            return Ok(None);
        }
        self.take_cells(spot, meta.back, page)?;
        let mut new = *spot;
        self.keep_cells(&mut new)?;
        Ok(Some(new))
    }

    // Leaves out the runs that no configuration needs, and tells these where theirs are.
    fn shorten_runs(&mut self, alloc: &A, configs: &mut [Config]) -> Result<(), NoMemory> {
        let mut runs = Vec::new(alloc.clone()?);
        let mut old = Span { first: 0, end: 0 };
        let mut new = old;
        for at in 0..configs.len() {
            let span = configs[at].spot.runs;
            if span != old {
                new = append(&mut runs, runs_in(self.runs.as_slice(), span))?;
            }
            old = span;
            configs[at].spot.runs = new;
        }
        self.runs = runs;
        Ok(())
    }

    // The same of cells.
    fn shorten_cells(&mut self, alloc: &A, configs: &mut [Config]) -> Result<(), NoMemory> {
        let mut cells = Vec::new(alloc.clone()?);
        let mut old = Span { first: 0, end: 0 };
        let mut new = old;
        for at in 0..configs.len() {
            let span = configs[at].spot.cells;
            if span != old {
                new = append(&mut cells, cells_in(self.cells.as_slice(), span))?;
            }
            old = span;
            configs[at].spot.cells = new;
        }
        self.cells = cells;
        Ok(())
    }

    /// Leaves out what no configuration needs, and tells these where their maps are.
    pub fn shorten(&mut self, alloc: &A, configs: &mut [Config]) -> Result<(), NoMemory> {
        self.shorten_runs(alloc, configs)?;
        self.shorten_cells(alloc, configs)?;
        let most = self.runs.len().max(self.cells.len());
        self.most = most.saturating_mul(2).saturating_add(FEW);
        Ok(())
    }
}
