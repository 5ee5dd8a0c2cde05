//! What a request that its arguments don't refuse is to do.
ghost use Rattle.std.specs.Prelude.{◌≡◌};
ghost use Rattle.vm_base.specs.Pages.{IsPageRange};
ghost use Rattle.slot_lock.specs.Plan.{IsSoundGoal, range_of, target_range, goal_range};

use vm_base::{Access, Meta, PageRange, Prot};

/// A mapping of `count` pages whose place is still to be found: at the hint, which is given if all
/// its pages are valid, or else in the window.
#[derive(Clone, Copy)]
pub struct Place {
    pub hint: Option<PageRange>,
    pub window: PageRange,
    pub count: u64,
    pub meta: Meta,
}

/// A change of each page of a range.
#[derive(Clone, Copy, PartialEq, Eq)]
pub enum Change {
    /// Each page is mapped anew; `meta` is that of the first.
    Put { range: PageRange, meta: Meta },
    /// Each page is unmapped.
    Clear { range: PageRange },
    /// Each page gets this protection.
    Protect { range: PageRange, prot: Prot },
}

/// An access of one byte of a page, at an offset in bytes. Only a store has a byte to write.
#[derive(Clone, Copy)]
pub struct Touch {
    pub page: u64,
    pub offset: u64,
    pub access: Access,
    pub byte: u8,
}

/// What a call does.
#[derive(Clone, Copy)]
pub enum Plan {
    Place(Place),
    Change(Change),
    Touch(Touch),
}

/// Which pages a placed mapping has locked, or is to lock: those of its hint, those of a run of its
/// window that it guessed to be free, or its window. They are one range, and a mapping has one
/// target at a time.
#[derive(Clone, Copy)]
pub enum Target {
    Hint(PageRange),
    Run(PageRange),
    Window,
}

/// What a call locks its pages for.
#[derive(Clone, Copy)]
pub enum Goal {
    /// The mapping has to be placed, if its target has room.
    Place { place: Place, target: Target },
    /// All pages of the change have to be changed.
    Change(Change),
    /// An access of the page faulted.
    Access(Touch),
}

impl Goal {
    /// The pages that a call with this goal locks: an access its page, a change its range, a placed
    /// mapping its target.
    pub fn range(self) -> PageRange
        requires { IsSoundGoal self }
        ensures value { result ≡ goal_range self }
        ensures sound { IsPageRange result }
    {
        match self {
            Goal::Place { place, target } => target.range(place),
            Goal::Change(change) => change.range(),
            Goal::Access(touch) => PageRange {
                first: touch.page,
                end: touch.page + 1,
            },
        }
    }
}

impl Target {
    /// The pages of the target of a placed mapping.
    pub fn range(self, place: Place) -> PageRange
        ensures { result ≡ target_range place self }
    {
        match self {
            Target::Hint(range) => range,
            Target::Run(range) => range,
            Target::Window => place.window,
        }
    }
}

impl Change {
    /// The pages that change.
    pub fn range(self) -> PageRange
        ensures { result ≡ range_of self }
    {
        match self {
            Change::Put { range, .. } => range,
            Change::Clear { range } => range,
            Change::Protect { range, .. } => range,
        }
    }
}
