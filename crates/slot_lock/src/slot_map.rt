//! Maps of slots that cores hold.
//!
//! A slot is a set of neighbouring pages with one owner or none, whose mapping goes on from page to
//! page. A new map has all valid pages unmapped and unheld. A page with a frame or a recorded core
//! is a slot of its own.
//!
//! Division is the map's choice: a machine works over any map in which nothing is mapped or held, and how many steps
//! a call takes follows from it. Of free pages and ranges (`free_page`, `survey`) nobody holds any, so no other core
//! can act in between, and no lock is made.
ghost use Rattle.std.specs.Prelude.{◌≡◌, ◌≢◌, ℕ, ◌+◌, ◌-◌, ◌^◌, ◌<◌, ◌≤◌, ◌↔◌, ◌⊎◌, IfOk, OnErr};
ghost use Rattle.std.specs.Prelude.{IfSome, IfNone, IsTrue, true, Bool, Option, Some, None};
ghost use Rattle.vm_base.specs.declared.page.PageRange.{PageRange};
ghost use Rattle.vm_base.specs.Functions.{has};
ghost use Rattle.vm_base.specs.Cores.{members};
ghost use Rattle.vm_base.specs.Pages.{IsPage, IsPageRange};
ghost use Rattle.vm_base.specs.Runs.{NoneIn};
ghost use Rattle.slot_lock.specs.Plan.{FitsFile, IsSoundChange, range_of};
ghost use Rattle.arrayvec.specs.ArrayVec.{array_vec_len};
ghost use Rattle.slot_lock.specs.Framed.{AddsFrames, frames_in};
ghost use Rattle.slot_lock.specs.Changes.{changed, IsMappedFor};
ghost use Rattle.slot_lock.specs.Slots.{Slots, IsSlot, IsSlotBy, IsSlotMap, IsFreePage, IsFreeSlot};
ghost use Rattle.slot_lock.specs.Slots.{IsCut, IsHeld, IsCrossed, OwnsAll, Steps, Crosses, CutSteps, Unlocks};
ghost use Rattle.slot_lock.specs.Slots.{Joins, HasMeta, IsFreeRun, LosesFrame, NoFrames, IsUser};
ghost use Rattle.slot_lock.specs.Slots.{AllMapped, DividesAs, IfSplit, IfCut, between, crossed_edge};
ghost use Rattle.slot_lock.specs.Slots.{cleared, mapped, protected, with_info};
ghost use Rattle.slot_lock.specs.SlotRuns.{LocksRun, UnlocksRun};
ghost use Rattle.slot_lock.specs.Surveys.{AreFree};

use crate::framed::FramedPages;
use crate::plan::Change;
use crate::survey::Survey;
use vm_base::{CoreId, CoreSet, Meta, NoMemory, PageInfo, PageRange, Prot};

/// What one step of an acquisition did.
#[derive(Clone, Copy)]
pub enum Got {
    /// Some slot was divided.
    Split,
    /// The slot up to this page is locked.
    Locked(u64),
    /// Another core holds the slot.
    Held(CoreId),
}

/// What one step of a cut did.
#[derive(Clone, Copy)]
pub enum Fit {
    /// Some slot was divided.
    Cut,
    /// No slot crosses an edge of the range.
    Fits,
}

/// Slots that were locked, or unlocked, one after another.
#[derive(Clone, Copy)]
pub struct SlotRun {
    /// How many slots they are.
    pub slots: u64,
    /// The page up to which they reach.
    pub upto: u64,
}

/// A page that is a slot of its own, which nobody holds.
#[derive(Clone, Copy)]
pub struct FreePage {
    /// What the page has, if it is mapped.
    pub info: Option<PageInfo>,
}

/// Slots that are only read: a whole map, or a few slots of one.
pub trait SlotRead {
    /// What is said of each page.
    ghost slots: { Self → Slots };

    /// The pages that may be asked for.
    ghost reads: { Self → ℕ → Type 0 };

    /// What the page has, if it is mapped.
    fn page(&self, page: u64) -> Option<PageInfo>
        requires { reads self.now page }
        ensures { result ≡ (slots self.now).info page };

    /// The slot that has the page.
    fn slot(&self, page: u64) -> PageRange
        requires { reads self.now page }
        ensures slot { IsSlot (slots self.now) result.first result.end }
        ensures has { has result page ≡ true };

    /// The least start of `n` unmapped pages in the range, if there is one.
    fn first_free_run(&self, range: PageRange, n: u64) -> Option<u64>
        requires some { 1 ≤ n }
        requires range { IsPageRange range }
        requires reads { (p : ℕ) → has range p ≡ true → reads self.now p }
        ensures found { IfSome result (IsFreeRun (slots self.now) range n) }
        ensures least { IfSome result (λ s. (r : ℕ) → r < s → ¬ IsFreeRun (slots self.now) range n r) }
        ensures none { IfNone result ((r : ℕ) → ¬ IsFreeRun (slots self.now) range n r) };

    /// The cores that are recorded on some page of the range.
    fn recorded(&self, range: PageRange) -> CoreSet
        requires range { IsPageRange range }
        requires reads { (p : ℕ) → has range p ≡ true → reads self.now p }
        ensures { (core : ℕ) → (members result core ≡ true) ↔ IsUser (slots self.now) range core };

    /// Tells whether all pages of the range are mapped.
    fn all_mapped(&self, range: PageRange) -> bool
        requires range { IsPageRange range }
        requires reads { (p : ℕ) → has range p ≡ true → reads self.now p }
        ensures { IsTrue result ↔ AllMapped (slots self.now) range }
    {
        self.first_free_run(range, 1).is_none()
    }
}

/// A map of slots. Only `lock_next` and `cut_next` take memory; a refusal leaves the map unchanged.
pub trait SlotMap: SlotRead {
    /// Which pages begin a part of a slot that is divided since it crosses a page.
    ghost parts: { PageRange → ℕ → ℕ → Bool };

    /// When the slots round a page can be joined.
    ghost can_fold: { Slots → ℕ → Type 0 };

    /// How they are joined.
    ghost folds: { Slots → Slots → ℕ → Type 0 };

    /// The owner of the page's slot, if a core holds it.
    fn owner(&self, page: u64) -> Option<CoreId>
        requires { IsPage page }
        ensures { result ≡ (Self.slots self.now).owner page };

    /// What the page has, where it is a slot of its own that nobody holds: then it can be changed
    /// without being locked, as long as no other core can act in between.
    fn free_page(&self, page: u64) -> Option<FreePage>
        requires { IsPage page }
        ensures some { IfSome result (IsFreePage (Self.slots self.now) page) }
        ensures none { IfNone result (¬ IsFreeSlot (Self.slots self.now) page) };

    /// What the slots of the range have together, where nobody holds them, and none crosses an edge
    /// of it: then they can be changed without being locked, as long as no other core can act in
    /// between. A map may tell nothing, as where a page has another recorded core than this.
    fn survey(&self, core: CoreId, range: PageRange) -> Option<Survey>
        requires { IsPageRange range }
        ensures { IfSome result (AreFree (Self.slots self.now) range) }
    {
        None
    }

    /// One step of the core towards holding the pages from the cursor up to the end: the cursor's
    /// slot is another core's, or is divided where it crosses the first edge of them that it
    /// crosses, or is locked.
    fn lock_next(&mut self, core: CoreId, cursor: u64, end: u64) -> Result<Got, NoMemory>
        requires ordered { cursor < end }
        requires valid { (1 ≤ cursor) × (end ≤ 2 ^ 35) }
        requires not_held { (Self.slots self.old).owner cursor ≢ Some core }
        ensures step { IfOk result
            (λ got. Steps (Self.slots self.old) (Self.slots self.new) core cursor end got) }
        ensures exact { IfOk result
            (λ got. IfSplit got (DividesAs parts (Self.slots self.old) (Self.slots self.new)
            (crossed_edge (Self.slots self.old) (between cursor end)))) }
        ensures err { OnErr result (Self.slots self.new ≡ Self.slots self.old) }
        ensures err_only { OnErr result (((Self.slots self.old).owner cursor ≡ None)
            × Crosses (Self.slots self.old) cursor end) };

    /// One step of the core towards slots that don't cross an edge of the range, whose pages it
    /// holds: the slot that crosses its start is divided, or else the one that crosses its end.
    fn cut_next(&mut self, core: CoreId, range: PageRange) -> Result<Fit, NoMemory>
        requires range { IsPageRange range }
        requires held { OwnsAll (Self.slots self.old) core range.first range.end }
        ensures step { IfOk result
            (λ fit. CutSteps (Self.slots self.old) (Self.slots self.new) core range fit) }
        ensures exact { IfOk result
            (λ fit. IfCut fit (DividesAs parts (Self.slots self.old) (Self.slots self.new)
            (crossed_edge (Self.slots self.old) range))) }
        ensures err { OnErr result (Self.slots self.new ≡ Self.slots self.old) }
        ensures err_only { OnErr result (IsCrossed (Self.slots self.old) range) };

    /// Unlocks the slot that begins at the cursor and ends by `end`, and answers its end.
    fn unlock_next(&mut self, core: CoreId, cursor: u64, end: u64) -> u64
        requires held { (Self.slots self.old).owner cursor ≡ Some core }
        requires slot { IsSlotBy (Self.slots self.old) cursor end }
        ensures { Unlocks (Self.slots self.old) (Self.slots self.new) core cursor end result };

    /// Locks free slots that end by `end`, one after another from the cursor on: what this many calls
    /// of `lock_next` do. How many, the map chooses: those that it finds side by side, at most
    /// `most`, and none where the cursor's slot is held or has to be divided.
    fn lock_run(&mut self, core: CoreId, cursor: u64, end: u64, most: u64) -> SlotRun
        requires ordered { cursor < end }
        requires valid { (1 ≤ cursor) × (end ≤ 2 ^ 35) }
        ensures few { result.slots ≤ most }
        ensures locks { LocksRun (Self.slots self.old) (Self.slots self.new) core cursor end result };

    /// Unlocks slots of the core that end by `end`, one after another from the cursor on: what so
    /// many calls of `unlock_next` do. How many, the map chooses, as in `lock_run`.
    fn unlock_run(&mut self, core: CoreId, cursor: u64, end: u64, most: u64) -> SlotRun
        requires ordered { cursor < end }
        requires valid { (1 ≤ cursor) × (end ≤ 2 ^ 35) }
        ensures few { result.slots ≤ most }
        ensures unlocks { UnlocksRun (Self.slots self.old) (Self.slots self.new) core cursor end result };

    /// Makes a change of pages that the core holds. Frames that the pages lose are dropped.
    fn change(&mut self, core: CoreId, change: Change)
        requires sound { IsSoundChange change }
        requires held { IsHeld (Self.slots self.old) core (range_of change) }
        requires mapped { IsMappedFor (Self.slots self.old) change }
        ensures { Self.slots self.new ≡ changed (Self.slots self.old) change };

    /// Maps the pages of the range anew, each later one to the next file page.
    fn set_range(&mut self, core: CoreId, range: PageRange, meta: Meta)
        requires held { IsHeld (Self.slots self.old) core range }
        requires fits { FitsFile meta (range.end - range.first) }
        ensures { Self.slots self.new ≡ mapped (Self.slots self.old) range meta }
    {
        self.change(core, Change::Put { range, meta });
    }

    /// Unmaps the pages of the range.
    fn clear_range(&mut self, core: CoreId, range: PageRange)
        requires held { IsHeld (Self.slots self.old) core range }
        ensures { Self.slots self.new ≡ cleared (Self.slots self.old) range }
    {
        self.change(core, Change::Clear { range });
    }

    /// Changes the protection of the pages of the range, and forgets which cores are recorded
    /// there. Frames stay.
    fn protect_range(&mut self, core: CoreId, range: PageRange, prot: Prot)
        requires held { IsHeld (Self.slots self.old) core range }
        requires mapped { AllMapped (Self.slots self.old) range }
        ensures { Self.slots self.new ≡ protected (Self.slots self.old) range prot }
    {
        self.change(core, Change::Protect { range, prot });
    }

    /// Takes the frame of the first page from `from` up to `end` that has one, and answers both.
    fn take_frame(&mut self, core: CoreId, from: u64, end: u64) -> Option<(u64, u32)>
        requires pages { (1 ≤ from) × (from ≤ end) × (end ≤ 2 ^ 35) }
        requires held { OwnsAll (Self.slots self.old) core from end }
        ensures some { IfSome result
            (λ taken. LosesFrame (Self.slots self.old) (Self.slots self.new) from end taken.0 taken.1) }
        ensures none { IfNone result (NoFrames (Self.slots self.old) from end
            × (Self.slots self.new ≡ Self.slots self.old)) }
    {
        let mut list = FramedPages::new();
        self.list_frames(from, end, &mut list);
        let first = list.first().copied()?;
        let info = self.page(first.page)?;
        let bare = PageInfo {
            frame: None,
            ..info
        };
        self.set_leaf(core, first.page, bare);
        Some((first.page, first.frame))
    }

    /// Adds the pages from `from` up to `end` that have a frame, and their frames, to the list, in
    /// order of pages, until it is full. Answers the page up to which none is left out.
    fn list_frames(&self, from: u64, end: u64, list: &mut FramedPages) -> u64
        requires pages { (1 ≤ from) × (from ≤ end) × (end ≤ 2 ^ 35) }
        ensures low { from ≤ result }
        ensures high { result ≤ end }
        ensures added { AddsFrames (frames_in (Self.slots self.now)) from result list.old.items
            list.new.items }
        ensures full { result < end → array_vec_len list.new ≡ 32 };

    /// Makes a change of one page that is a slot of its own, which nobody holds.
    fn change_free(&mut self, change: Change)
        requires sound { IsSoundChange change }
        requires one { (range_of change).end ≡ (range_of change).first + 1 }
        requires free { IsFreeSlot (Self.slots self.old) (range_of change).first }
        requires mapped { IsMappedFor (Self.slots self.old) change }
        ensures { Self.slots self.new ≡ changed (Self.slots self.old) change };

    /// Makes a change of pages that nobody holds, where no slot crosses an edge of them.
    fn change_unheld(&mut self, change: Change)
        requires sound { IsSoundChange change }
        requires cut { IsCut (Self.slots self.old) (range_of change) }
        requires free { NoneIn (Self.slots self.old).owner (range_of change).first (range_of change).end }
        requires mapped { IsMappedFor (Self.slots self.old) change }
        ensures { Self.slots self.new ≡ changed (Self.slots self.old) change };

    /// Sets the frame and the recorded cores of a mapped page that is a slot of its own, which the
    /// core holds, or nobody.
    fn set_leaf(&mut self, core: CoreId, page: u64, info: PageInfo)
        requires valid { IsPage page }
        requires held { ((Self.slots self.old).owner page ≡ Some core)
            ⊎ ((Self.slots self.old).owner page ≡ None) }
        requires alone { IsSlot (Self.slots self.old) page (page + 1) }
        requires meta { HasMeta ((Self.slots self.old).info page) info.meta }
        ensures { Self.slots self.new ≡ with_info (Self.slots self.old) page (Some info) };

    /// Joins slots round the page that nobody holds, where their pages go on from one another.
    /// Answers whether it did.
    fn fold(&mut self, page: u64) -> bool
        requires { IsPage page }
        ensures can { IsTrue result ↔ can_fold (Self.slots self.old) page }
        ensures joined { IsTrue result → Joins (Self.slots self.old) (Self.slots self.new) }
        ensures exact { IsTrue result → folds (Self.slots self.old) (Self.slots self.new) page }
        ensures same { ¬ IsTrue result → Self.slots self.new ≡ Self.slots self.old };

    // ---- what holds of every slot map
    ghost is_slot_map: { (m : Self) → IsSlotMap (Self.slots m) };

    ghost reads_all: { (m : Self) (p : ℕ) → IsPage p → Self.reads m p };
}
