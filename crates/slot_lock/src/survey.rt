//! What the slots of a range have together.
ghost use Rattle.std.specs.Prelude.{ℕ, ◌+◌, ◌^◌, ◌<◌, ◌≤◌};
ghost use Rattle.slot_lock.specs.Slots.{Slots, between};
ghost use Rattle.slot_lock.specs.Surveys.{IsSurvey};

use vm_base::CoreSet;

/// What the slots of a range have together.
#[derive(Clone, Copy)]
pub struct Survey {
    /// How many slots begin in the range.
    pub slots: u64,
    /// The cores that are recorded on some page.
    pub cores: CoreSet,
    /// Whether some page isn't mapped.
    pub gap: bool,
    /// Whether some page has a frame.
    pub framed: bool,
    /// Whether some page is a shared one of a file.
    pub shared: bool,
}

impl Survey {
    /// What no page has.
    #[inline(always)]
    pub fn empty() -> Survey
        ensures { (s : Slots) (at : ℕ) → IsSurvey s (between at at) result }
    {
        Survey {
            slots: 0,
            cores: CoreSet::empty(),
            gap: false,
            framed: false,
            shared: false,
        }
    }

    /// What the pages of two ranges have, of which the second begins where the first ends.
    #[inline(always)]
    pub fn and(self, next: Survey) -> Survey
        requires { self.slots + next.slots < 2 ^ 64 }
        ensures { (s : Slots) (first middle end : ℕ) → first ≤ middle → middle ≤ end
            → IsSurvey s (between first middle) self → IsSurvey s (between middle end) next
            → IsSurvey s (between first end) result }
    {
        Survey {
            slots: self.slots + next.slots,
            cores: self.cores.union(next.cores),
            gap: self.gap || next.gap,
            framed: self.framed || next.framed,
            shared: self.shared || next.shared,
        }
    }
}
