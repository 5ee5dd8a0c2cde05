//! The decision of a call that holds its pages: its plan is refused, or changes a range.
ghost use Rattle.std.specs.Prelude.{◌≡◌, ℕ, ◌+◌, ◌^◌, ◌<◌, ◌≤◌, ◌↔◌, IsTrue, IfErr, IfOk, true, Option};
ghost use Rattle.vm_base.specs.Functions.{has};
ghost use Rattle.vm_base.specs.Pages.{IsPageRange};
ghost use Rattle.vm_base.specs.Apply.{HasPage, is_read_only};
ghost use Rattle.slot_lock.specs.declared.plan.Goal.TheVariants as GoalOf;
ghost use Rattle.slot_lock.specs.Plan.{IsSoundGoal, IsSoundPlace, goal_range, range_of, target_range};
ghost use Rattle.slot_lock.specs.Surveys.{IsSurvey};
ghost use Rattle.frames.specs.Files.{files_of};
ghost use Rattle.vm_calls.specs.declared.decision.Decision.TheVariants as DecisionOf;
ghost use Rattle.vm_calls.specs.Decisions.{Decides, DecidesChange, DecidesPage, DecidesRun, DecidesWindow};
ghost use Rattle.vm_calls.specs.Decisions.{DecidesPlace, DecidesProtect, IsReadable, IsNoAccess};
ghost use Rattle.vm_calls.specs.Decisions.{ActsOn, IsSoundAct, entries, entry_of};

use frames::Objects;
use slot_lock::{Change, Goal, Place, SlotRead, Survey, Target};
use std::alloc::Allocator;
use vm_base::info::recorded_cores;
use vm_base::{Back, CoreSet, Errno, PageInfo, PageRange, Prot};

/// What a call does, once it holds its pages.
#[derive(Clone, Copy)]
pub enum Decision {
    /// It is refused, and changes nothing.
    Refuse(Errno),
    /// It changes the pages of the range. `shoot` are the cores that are recorded on some page of
    /// it, which may have translations that are to go first.
    Act {
        /// The pages.
        range: PageRange,
        /// The cores.
        shoot: CoreSet,
    },
    /// Some page of its hint or of the run that it guessed is mapped: it looks elsewhere for a place.
    Again,
}

/// The call changes the range.
fn decide_range<M: SlotRead>(map: &M, range: PageRange) -> Decision
    requires range { IsPageRange range }
    requires reads { (p : ℕ) → has range p ≡ true → M.reads map.now p }
    ensures { ActsOn (M.slots map.now) range result }
{
    Decision::Act {
        range,
        shoot: map.recorded(range),
    }
}

/// A mapping goes to its hint or to the run that it guessed, if no page of it is mapped; else it
/// looks elsewhere.
fn decide_run<M: SlotRead>(map: &M, range: PageRange) -> Decision
    requires range { IsPageRange range }
    requires reads { (p : ℕ) → has range p ≡ true → M.reads map.now p }
    ensures { DecidesRun (M.slots map.now) range result }
{
    match map.first_free_run(range, range.end - range.first) {
        Some(_) => Decision::Act {
            range,
            shoot: CoreSet::empty(),
        },
        None => Decision::Again,
    }
}

/// A mapping goes to the least room of its window, or is refused where there is none.
fn decide_window<M: SlotRead>(map: &M, place: Place) -> Decision
    requires sound { IsSoundPlace place }
    requires reads { (p : ℕ) → has place.window p ≡ true → M.reads map.now p }
    ensures { DecidesWindow (M.slots map.now) place result }
{
    let Some(first) = map.first_free_run(place.window, place.count) else {
        return Decision::Refuse(Errno::ENOMEM);
    };
    Decision::Act {
        range: PageRange {
            first,
            end: first + place.count,
        },
        shoot: CoreSet::empty(),
    }
}

/// Whether a mapping goes to a place of its target.
fn decide_place<M: SlotRead>(map: &M, place: Place, target: Target) -> Decision
    requires sound { IsSoundGoal (GoalOf.Place place target) }
    requires reads { (p : ℕ) → has (target_range place target) p ≡ true → M.reads map.now p }
    ensures { DecidesPlace (M.slots map.now) place target result }
{
    match target {
        Target::Hint(range) => decide_run(map, range),
        Target::Run(range) => decide_run(map, range),
        Target::Window => decide_window(map, place),
    }
}

/// Tells whether a page is a shared one of a file that isn't open for writing.
fn is_read_only<A: Allocator>(objects: &Objects<A>, info: Option<PageInfo>) -> bool
    ensures { result ≡ is_read_only (files_of objects.now) (entry_of info) }
{
    let Some(info) = info else {
        return false;
    };
    let Back::Shared { file, .. } = info.meta.back else {
        return false;
    };
    match objects.mode(u64::from(file)) {
        Some(mode) => !mode.can_write(),
        None => false,
    }
}

/// Tells whether some page of the range is a shared one of a file that isn't open for writing. One
/// page of each slot is looked at, where there are files at all.
fn has_read_only<M: SlotRead, A: Allocator>(map: &M, objects: &Objects<A>, range: PageRange) -> bool
    requires readable { IsReadable (λ p. M.reads map.now p) (M.slots map.now) range }
    ensures { IsTrue result ↔ HasPage (is_read_only (files_of objects.now))
        (entries (M.slots map.now)) range }
{
    // files are numbered from 0 on
    let Some(_) = objects.mode(0) else {
        return false;
    };
    let mut page = range.first;
    'slots: while page < range.end {
        if is_read_only(objects, map.page(page)) {
            return true;
        }
        let slot = map.slot(page);
        page = slot.end;
    }
    false
}

/// Another protection needs each page mapped, and for writing each shared page's file open for writing.
fn decide_protect<M: SlotRead, A: Allocator>(
    map: &M,
    objects: &Objects<A>,
    range: PageRange,
    prot: Prot,
) -> Decision
    requires range { IsPageRange range }
    requires readable { IsReadable (λ p. M.reads map.now p) (M.slots map.now) range }
    ensures { DecidesProtect (files_of objects.now) (M.slots map.now) range prot result }
{
    if !map.all_mapped(range) {
        return Decision::Refuse(Errno::ENOMEM);
    }
    if prot.write && has_read_only(map, objects, range) {
        return Decision::Refuse(Errno::EACCES);
    }
    decide_range(map, range)
}

/// What a call does that holds the pages that it locks for this goal, which isn't an access and
/// follows a plan that passed the check of its arguments. A placed mapping that holds its hint or a
/// guessed run acts there if no page of it is mapped, and else looks elsewhere; one that holds its
/// window acts on the least room, or is refused (`ENOMEM`) where there is none. `mprotect` is
/// refused where a page isn't mapped (`ENOMEM`), and, if all are, where write is asked for and a
/// page is a shared one of a file that isn't open for writing (`EACCES`; POSIX.1-2017, mprotect).
/// Only held pages are read, so lent slots serve as well as a whole map.
pub fn decide<M: SlotRead, A: Allocator>(map: &M, objects: &Objects<A>, goal: Goal) -> Decision
    requires no_access { IsNoAccess goal }
    requires sound { IsSoundGoal goal }
    requires readable { IsReadable (λ p. M.reads map.now p) (M.slots map.now) (goal_range goal) }
    ensures decision { Decides (files_of objects.now) (M.slots map.now) goal result }
    ensures sound { IsSoundAct goal result }
{
    match goal {
        Goal::Place { place, target } => decide_place(map, place, target),
        Goal::Change(Change::Put { range, .. }) => decide_range(map, range),
        Goal::Change(Change::Clear { range }) => decide_range(map, range),
        Goal::Change(Change::Protect { range, prot }) => {
            decide_protect(map, objects, range, prot)
        }
        Goal::Access(_) => unreachable!(),
    }
}

/// What `decide` decides of a change of one page, which has this: it is made, and these cores are
/// recorded on the page, or it is refused.
pub fn decide_page<A: Allocator>(
    objects: &Objects<A>,
    change: Change,
    info: Option<PageInfo>,
) -> Result<CoreSet, Errno>
    requires one { (range_of change).end ≡ (range_of change).first + 1 }
    ensures made { IfOk result (λ shoot. DecidesPage (files_of objects.now) change info
        (DecisionOf.Act (range_of change) shoot)) }
    ensures refused { IfErr result (λ errno. DecidesPage (files_of objects.now) change info
        (DecisionOf.Refuse errno)) }
{
    if let Change::Protect { prot, .. } = change {
        if info.is_none() {
            return Err(Errno::ENOMEM);
        }
        if prot.write && is_read_only(objects, info) {
            return Err(Errno::EACCES);
        }
    }
    Ok(recorded_cores(&info))
}

/// What `decide` decides of a change, where this is what the slots of its range have together: it is
/// made, and these cores are recorded on its pages, or it is refused.
pub fn decide_surveyed<M: SlotRead, A: Allocator>(
    map: &M,
    objects: &Objects<A>,
    change: Change,
    found: Survey,
) -> Result<CoreSet, Errno>
    requires readable { IsReadable (λ p. M.reads map.now p) (M.slots map.now) (range_of change) }
    requires survey { IsSurvey (M.slots map.now) (range_of change) found }
    ensures made { IfOk result (λ shoot. DecidesChange (files_of objects.now) (M.slots map.now) change
        (DecisionOf.Act (range_of change) shoot)) }
    ensures cores { IfOk result (λ shoot. shoot ≡ found.cores) }
    ensures refused { IfErr result (λ errno. DecidesChange (files_of objects.now) (M.slots map.now) change
        (DecisionOf.Refuse errno)) }
{
    if let Change::Protect { range, prot } = change {
        if found.gap {
            return Err(Errno::ENOMEM);
        }
        if prot.write && found.shared {
            if has_read_only(map, objects, range) {
                return Err(Errno::EACCES);
            }
        }
    }
    Ok(found.cores)
}
