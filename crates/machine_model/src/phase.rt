//! Where the call of a core stands.
ghost use Rattle.std.specs.Prelude.{◌≡◌, ◌↔◌, IsTrue};
ghost use Rattle.machine_model.specs.declared.phase.Phase.TheVariants.{Free};

use slot_lock::{Change, Goal, Place, Target, Touch};
use vm_base::{CoreSet, PageRange, Reply, Request};

/// Where the call of a core stands: what its next step is.
#[derive(Clone, Copy)]
pub enum Phase {
    /// The core has no call.
    Free,
    /// The arguments have to be checked.
    Check(Request),
    /// The goal's pages below the cursor are held, the others have to be locked.
    Lock {
        goal: Goal,
        cursor: u64,
    },
    /// A run of the mapping's window has to be guessed to be free, or the window has to be taken.
    Guess(Place),
    /// All pages of the target are held, and whether the mapping goes there has to be decided.
    Find {
        place: Place,
        target: Target,
    },
    /// Some page of the target is mapped: these of its pages are still to be unlocked, and then the
    /// mapping looks elsewhere.
    Back {
        place: Place,
        target: Target,
        held: PageRange,
    },
    /// The mapping goes to this range of its target, and the slots that cross an edge of the range
    /// have to be cut.
    Cut {
        place: Place,
        target: Target,
        range: PageRange,
    },
    /// All pages are held, and whether the change may be made has to be decided.
    Decide(Change),
    /// The cores that are recorded on the pages have to be told.
    Post {
        change: Change,
        shoot: CoreSet,
    },
    /// The cores that were told are awaited, and then the change is made, to which the goal led.
    Acks {
        goal: Goal,
        change: Change,
    },
    /// The reply is fixed, and these pages are still to be unlocked.
    Unlock {
        held: PageRange,
        reply: Reply,
    },
    /// The reply has to be handed out.
    Answer(Reply),
    /// The page has to be translated, and its byte read or written.
    Try(Touch),
    /// The page is held, and what its slot says has to be read.
    Settle(Touch),
    /// A frame has to be taken: for a copy of this one, where the page has it.
    Want {
        touch: Touch,
        old: Option<u32>,
    },
    /// The page is to get a frame: the one that caches its file page, or else this one, which the
    /// call has taken.
    Fill {
        touch: Touch,
        frame: Option<u32>,
    },
    /// The page gets a copy in this frame, and the cores that are recorded on it have to be told.
    CopyPost {
        touch: Touch,
        frame: u32,
    },
    /// The cores that were told are awaited, and then the page gets its copy in this frame.
    CopyAcks {
        touch: Touch,
        frame: u32,
    },
    /// The core has to be recorded on the page, and its translation installed.
    Install(Touch),
    /// The page's slot has to be unlocked.
    Release(Touch),
}

impl Phase {
    /// Tells whether the core has no call.
    pub fn is_free(self) -> bool
        ensures { IsTrue result ↔ (self ≡ Free) }
    {
        matches!(self, Phase::Free)
    }
}
