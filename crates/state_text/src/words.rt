//! What a call does, in words.
ghost use Rattle.std.specs.Prelude.{◌≡◌};
ghost use Rattle.machine_model.specs.Holding.{taken_in};
ghost use Rattle.slot_lock.specs.Plan.{goal_range};
ghost use Rattle.state_text.specs.Words.{access_word, call_word, change_word, doing_word, goal_spot, goal_word, held_spot, pages_if, request_word, spot_of};

use machine_model::Phase;
use slot_lock::{Change, Goal};
use vm_base::{Access, PageRange, Request};

/// Where a call is at work.
#[derive(Clone, Copy)]
pub enum WorkPages {
    /// Nowhere yet, or no more.
    Nowhere,
    /// At this page.
    Page(u64),
    /// At these pages.
    Pages(PageRange),
}

// The word of an access.
fn access_word(access: Access) -> &'static str
    ensures { result.now ≡ access_word access }
{
    match access {
        Access::Load => "load",
        Access::Store => "store",
        Access::Fetch => "fetch",
    }
}

// The word of a call that makes a change.
fn change_word(change: &Change) -> &'static str
    ensures { result.now ≡ change_word change.now }
{
    match change {
        Change::Put { .. } => "mmap",
        Change::Clear { .. } => "munmap",
        Change::Protect { .. } => "mprotect",
    }
}

// The word of a call with this goal.
fn goal_word(goal: &Goal) -> &'static str
    ensures { result.now ≡ goal_word goal.now }
{
    match goal {
        Goal::Place { .. } => "mmap",
        Goal::Change(change) => change_word(change),
        Goal::Access(touch) => access_word(touch.access),
    }
}

// The word of a request.
fn request_word(request: &Request) -> &'static str
    ensures { result.now ≡ request_word request.now }
{
    match request {
        Request::Mmap { .. } => "mmap",
        Request::Munmap { .. } => "munmap",
        Request::Mprotect { .. } => "mprotect",
        Request::Load { .. } => "load",
        Request::Store { .. } => "store",
        Request::Fetch { .. } => "fetch",
    }
}

/// The word of a call that stands so; one that has its reply is a call.
pub fn call_word(phase: &Phase) -> &'static str
    ensures { result.now ≡ call_word phase.now }
{
    match phase {
        Phase::Check(request) => request_word(request),
        Phase::Lock { goal, .. } => goal_word(goal),
        Phase::Guess(_) | Phase::Find { .. } | Phase::Back { .. } | Phase::Cut { .. } => "mmap",
        Phase::Decide(change) => change_word(change),
        Phase::Post { change, .. } => change_word(change),
        Phase::Acks { change, .. } => change_word(change),
        Phase::Try(touch) | Phase::Settle(touch) | Phase::Install(touch) | Phase::Release(touch) =>
            { access_word(touch.access) }
        Phase::Want { touch, .. }
        | Phase::Fill { touch, .. }
        | Phase::CopyPost { touch, .. }
        | Phase::CopyAcks { touch, .. } => access_word(touch.access),
        Phase::Free | Phase::Unlock { .. } | Phase::Answer(_) => "call",
    }
}

/// What the call does next, in words.
pub fn doing_word(phase: &Phase) -> &'static str
    ensures { result.now ≡ doing_word phase.now }
{
    match phase {
        Phase::Free => "",
        Phase::Check(_) => " checks its arguments",
        Phase::Lock { .. } => " locks",
        Phase::Guess(_) => " looks for a gap",
        Phase::Find { .. } => " decides on",
        Phase::Back { .. } => " gives back",
        Phase::Cut { .. } => " splits",
        Phase::Decide(_) => " decides on",
        Phase::Post { .. } => " asks cores to drop",
        Phase::Acks { .. } => " awaits cores for",
        Phase::Unlock { .. } => " unlocks",
        Phase::Answer(_) => " answers",
        Phase::Try(_) => " translates",
        Phase::Settle(_) => " looks at",
        Phase::Want { .. } => " wants a frame for",
        Phase::Fill { .. } => " fills",
        Phase::CopyPost { .. } => " asks cores to drop",
        Phase::CopyAcks { .. } => " awaits cores for",
        Phase::Install(_) => " installs",
        Phase::Release(_) => " unlocks",
    }
}

// Where a call with this goal is at work.
fn goal_spot(goal: &Goal) -> WorkPages
    ensures { result ≡ goal_spot goal.now }
{
    match goal {
        Goal::Place { place, target } => WorkPages::Pages(target.range(*place)),
        Goal::Change(change) => WorkPages::Pages(change.range()),
        Goal::Access(touch) => WorkPages::Page(touch.page),
    }
}

/// Where the call is at work.
pub fn spot_of(phase: &Phase) -> WorkPages
    ensures { result ≡ spot_of phase.now }
{
    match phase {
        Phase::Free | Phase::Check(_) | Phase::Guess(_) | Phase::Answer(_) => WorkPages::Nowhere,
        Phase::Lock { goal, .. } => goal_spot(goal),
        Phase::Find { place, target } => WorkPages::Pages(target.range(*place)),
        Phase::Back { held, .. } => WorkPages::Pages(*held),
        Phase::Cut { range, .. } => WorkPages::Pages(*range),
        Phase::Decide(change) => WorkPages::Pages(change.range()),
        Phase::Post { change, .. } => WorkPages::Pages(change.range()),
        Phase::Acks { change, .. } => WorkPages::Pages(change.range()),
        Phase::Unlock { held, .. } => WorkPages::Pages(*held),
        Phase::Try(touch) | Phase::Settle(touch) | Phase::Install(touch) | Phase::Release(touch) =>
            { WorkPages::Page(touch.page) }
        Phase::Want { touch, .. }
        | Phase::Fill { touch, .. }
        | Phase::CopyPost { touch, .. }
        | Phase::CopyAcks { touch, .. } => WorkPages::Page(touch.page),
    }
}

// ---- what it holds

// The first page that a call with this goal locks.
fn goal_first(goal: &Goal) -> u64
    ensures { result ≡ (goal_range goal.now).first }
{
    match goal {
        Goal::Place { place, target } => target.range(*place).first,
        Goal::Change(change) => change.range().first,
        Goal::Access(touch) => touch.page,
    }
}

// These pages, if there are some.
fn pages_if(range: PageRange) -> WorkPages
    ensures { result ≡ pages_if range }
{
    if range.first == range.end {
        WorkPages::Nowhere
    } else {
        WorkPages::Pages(range)
    }
}

/// The pages that the call holds.
pub fn held_spot(phase: &Phase) -> WorkPages
    ensures { result ≡ held_spot phase.now }
{
    match phase {
        Phase::Free | Phase::Check(_) | Phase::Guess(_) | Phase::Answer(_) | Phase::Try(_) => {
            WorkPages::Nowhere
        }
        Phase::Lock { goal, cursor } => pages_if(PageRange {
            first: goal_first(goal),
            end: *cursor,
        }),
        Phase::Find { place, target } => WorkPages::Pages(target.range(*place)),
        Phase::Back { held, .. } => pages_if(*held),
        Phase::Cut { place, target, .. } => WorkPages::Pages(target.range(*place)),
        Phase::Decide(change) => WorkPages::Pages(change.range()),
        Phase::Post { change, .. } => WorkPages::Pages(change.range()),
        Phase::Acks { goal, .. } => goal_spot(goal),
        Phase::Unlock { held, .. } => pages_if(*held),
        Phase::Settle(touch) | Phase::Install(touch) | Phase::Release(touch) => {
            WorkPages::Page(touch.page)
        }
        Phase::Want { touch, .. }
        | Phase::Fill { touch, .. }
        | Phase::CopyPost { touch, .. }
        | Phase::CopyAcks { touch, .. } => WorkPages::Page(touch.page),
    }
}

/// The frame that the call has taken, and that no page has yet.
pub fn taken_in(phase: &Phase) -> Option<u32>
    ensures { result ≡ taken_in phase.now }
{
    match phase {
        Phase::Fill { frame, .. } => *frame,
        Phase::CopyPost { frame, .. } => Some(*frame),
        Phase::CopyAcks { frame, .. } => Some(*frame),
        _ => None,
    }
}
