//! Places of mappings without `MAP_FIXED`.
ghost use Rattle.std.specs.Prelude.{◌≡◌, ℕ, ◌+◌, ◌^◌, ◌≤◌, ◌↔◌, IsTrue, IfSome, Option, Some, None};
ghost use Rattle.vm_base.specs.Pages.{IsPageRange, pages_from};
ghost use Rattle.vm_base.specs.Places.{IsFree, IsRoom};
ghost use Rattle.vm_base.specs.Plain.{is_mapped};
ghost use Rattle.slot_lock.specs.Plan.{IsSoundPlace};
ghost use Rattle.vm_calls.specs.Decisions.{entries};
ghost use Rattle.audit.specs.Placing.{IsAllowed, IsAnyPlace, IsFirst, all_pages, place_said, reply_at};

use slot_lock::{Place, SlotMap};
use vm_base::page::{PAGE_LIMIT, PAGE_SIZE, is_page_start};
use vm_base::{Errno, PageRange, Reply, page_of};

/// All valid pages.
const ALL_PAGES: PageRange = PageRange {
    first: 1,
    end: PAGE_LIMIT,
};

/// Tells whether no page of the range is mapped.
fn is_free<M: SlotMap>(map: &M, range: PageRange) -> bool
    requires { IsPageRange range }
    ensures { IsTrue result ↔ IsFree (is_mapped (entries (M.slots map.now))) range }
{
    map.first_free_run(range, range.end - range.first).is_some()
}

/// The first place of a mapping: its hint, if that is free, or else the least room of its window.
pub fn first_place<M: SlotMap>(map: &M, place: Place) -> Option<u64>
    requires { IsSoundPlace place }
    ensures first { IsFirst (is_mapped (entries (M.slots map.now))) place result }
    ensures within { IfSome result (λ first. IsPageRange (pages_from first place.count)) }
{
    if let Some(hint) = place.hint {
        if is_free(map, hint) {
            return Some(hint.first);
        }
    }
    map.first_free_run(place.window, place.count)
}

/// A place where a mapping may be: the first one; or, where any will do and that is none, the least of all valid pages.
#[tactic(auto, using(crate::proofs::Placed::first_allowed, crate::proofs::Placed::first_by_rule, crate::proofs::Placed::least_allowed))]
pub fn due_place<M: SlotMap>(map: &M, any_place: bool, place: Place) -> Option<u64>
    requires sound { IsSoundPlace place }
    ensures allowed { IsAllowed any_place (is_mapped (entries (M.slots map.now))) place result }
    ensures within { IfSome result (λ first. IsPageRange (pages_from first place.count)) }
{
    let first = first_place(map, place);
    if !any_place {
        return first;
    }
    match first {
        Some(_) => first,
        None => map.first_free_run(ALL_PAGES, place.count),
    }
}

/// Tells whether no run of this many valid pages is free.
fn has_no_room<M: SlotMap>(map: &M, count: u64) -> bool
    requires some { 1 ≤ count }
    ensures { IsTrue result ↔ IsAnyPlace (is_mapped (entries (M.slots map.now))) all_pages 0 count None }
{
    match map.first_free_run(ALL_PAGES, count) {
        Some(_) => false,
        None => true,
    }
}

/// Tells whether this many pages from this one on are valid, and none of them is mapped; of no page,
/// whether no run of this many valid pages is free.
fn is_any_place<M: SlotMap>(map: &M, count: u64, found: Option<u64>) -> bool
    requires some { 1 ≤ count }
    requires count { count ≤ 2 ^ 35 }
    requires found { IfSome found (λ first. first ≤ 2 ^ 52) }
    ensures { IsTrue result ↔ IsAnyPlace (is_mapped (entries (M.slots map.now))) all_pages 0 count found }
{
    let Some(first) = found else {
        return has_no_room(map, count);
    };
    let range = PageRange {
        first,
        end: first + count,
    };
    range.is_valid() && is_free(map, range)
}

/// Tells whether two places are the same.
fn is_same_place(place: Option<u64>, other: Option<u64>) -> bool
    ensures { IsTrue result ↔ (place ≡ other) }
{
    match (place, other) {
        (Some(page), Some(other)) => page == other,
        (None, None) => true,
        _ => false,
    }
}

/// Tells whether the mapping may be at this page, or nowhere: by the first place, or by any.
pub fn is_allowed<M: SlotMap>(map: &M, any_place: bool, place: Place, found: Option<u64>) -> bool
    requires sound { IsSoundPlace place }
    requires found { IfSome found (λ first. first ≤ 2 ^ 52) }
    ensures { IsTrue result ↔ IsAllowed any_place (is_mapped (entries (M.slots map.now))) place found }
{
    if any_place {
        return is_any_place(map, place.count, found);
    }
    is_same_place(first_place(map, place), found)
}

/// The reply of a mapping at this page, or at none.
pub fn reply_at(found: Option<u64>) -> Reply
    requires { IfSome found (λ first. first ≤ 2 ^ 35) }
    ensures { result ≡ reply_at found }
{
    match found {
        Some(first) => Reply::Mapped(first * PAGE_SIZE),
        None => Reply::Refused(Errno::ENOMEM),
    }
}

/// At which page a reply says that a mapping is, or that it is nowhere; none, if it says neither.
pub fn place_said(reply: Reply) -> Option<Option<u64>>
    ensures value { result ≡ place_said reply }
    ensures small { IfSome result (λ found. IfSome found (λ first. first ≤ 2 ^ 52)) }
{
    match reply {
        Reply::Mapped(addr) if is_page_start(addr) => Some(Some(page_of(addr))),
        Reply::Refused(Errno::ENOMEM) => Some(None),
        _ => None,
    }
}
