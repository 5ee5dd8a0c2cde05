//! What happened in a run, step by step, as a recorder saw it.
ghost use Rattle.std.specs.Prelude.{◌≡◌, None};
ghost use Rattle.draw_steps.specs.Moments.{answer_in, answer_of, back_after, back_at, back_by, backing_by, backing_in, backing_of, changes, latest_told};
ghost use Rattle.draw_steps.specs.Moments.{next_change, tells};

use vm_base::{Back, CoreId, CoreSet, PageRange, Prot, Reply, Request};

/// Which take of a message it is.
#[derive(Clone, Copy)]
pub enum Pass {
    /// The first, which clears the tables.
    First,
    /// The second, which invalidates the TLB and acknowledges the message.
    Second,
}

/// What a core did in a step that belongs to no message.
#[derive(Clone, Copy)]
pub enum Deed {
    /// Its call waits for another core.
    Wait,
    /// It looked for a message, and had none.
    Idle,
    /// Its TLB got a translation.
    Walk,
    /// Its TLB dropped a translation.
    Evict,
    /// It flushed a count, or ended its part of the epoch.
    Flush,
    /// It reviewed an object.
    Review,
}

/// One thing that happened.
#[derive(Clone, Copy)]
pub enum Moment {
    /// A call begins. Calls are numbered as in the log.
    Begins {
        /// The call's number.
        call: u64,
        /// The core that asks.
        core: CoreId,
        /// What it asks for.
        request: Request,
    },
    /// A call is answered.
    Answers {
        /// The call's number.
        call: u64,
        /// The reply, as in the log.
        reply: Reply,
    },
    /// A core's call has told these cores to drop their translations.
    Told {
        /// The core that waits.
        core: CoreId,
        /// The cores that are told.
        cores: CoreSet,
    },
    /// A core has acted on a message.
    Took {
        /// The core that acted.
        core: CoreId,
        /// The core whose message it was.
        sender: CoreId,
        /// Which take of the message it was.
        pass: Pass,
    },
    /// A core did something else.
    Did {
        /// The core.
        core: CoreId,
        /// What it did.
        deed: Deed,
    },
    /// From here on each of these pages is mapped with this protection.
    Mapped {
        /// The pages.
        pages: PageRange,
        /// What may be done with them.
        prot: Prot,
        /// What backs the first of them, and each other page as it goes on; `None` where that stays as it is.
        back: Option<Back>,
    },
    /// From here on none of these pages is mapped.
    Unmapped {
        /// The pages.
        pages: PageRange,
    },
}

/// A moment, and the number of the step in which it was.
#[derive(Clone, Copy)]
pub struct Recorded {
    /// The step's number.
    pub step: u64,
    /// What happened.
    pub moment: Moment,
}

/// The step in which a call was answered, and the reply.
#[derive(Clone, Copy)]
pub struct Answer {
    /// The step's number.
    pub step: u64,
    /// The reply.
    pub reply: Reply,
}

// The reply, where this answers the call.
fn answer_in(recorded: &Recorded, call: u64) -> Option<Answer>
    ensures { result ≡ answer_in recorded.now call }
{
    match &recorded.moment {
        Moment::Answers { call: other, reply } => {
            if *other == call {
                Some(Answer {
                    step: recorded.step,
                    reply: *reply,
                })
            } else {
                None
            }
        }
        _ => None,
    }
}

/// The first answer of the call.
pub fn answer_of(moments: &[Recorded], call: u64) -> Option<Answer>
    ensures { result ≡ answer_of moments.now call }
{
    'moments: for recorded in moments {
        let answer = answer_in(recorded, call);
        if answer.is_some() {
            return answer;
        }
    }
    None
}

// Tells whether in this moment, before the step, `sender` told `core`.
fn tells(recorded: &Recorded, sender: CoreId, core: CoreId, step: u64) -> bool
    ensures { result ≡ tells recorded.now sender core step }
{
    match &recorded.moment {
        Moment::Told { core: from, cores } => {
            *from == sender && cores.contains(core) && recorded.step < step
        }
        _ => false,
    }
}

/// The last step before this one in which `sender` told `core` to drop translations.
pub fn latest_told(moments: &[Recorded], sender: CoreId, core: CoreId, step: u64) -> Option<u64>
    ensures { result ≡ latest_told None moments.now sender core step }
{
    let mut told = None;
    'moments: for recorded in moments {
        if tells(recorded, sender, core, step) {
            told = Some(recorded.step);
        }
    }
    told
}

// Tells whether after the step this maps or unmaps the page.
fn changes(recorded: &Recorded, page: u64, step: u64) -> bool
    ensures { result ≡ changes recorded.now page step }
{
    match &recorded.moment {
        Moment::Mapped { pages, .. } | Moment::Unmapped { pages } => {
            pages.contains(page) && step < recorded.step
        }
        _ => false,
    }
}

/// The first step after this one in which the page is mapped anew or unmapped.
pub fn next_change(moments: &[Recorded], page: u64, step: u64) -> Option<u64>
    ensures { result ≡ next_change moments.now page step }
{
    'moments: for recorded in moments {
        if changes(recorded, page, step) {
            return Some(recorded.step);
        }
    }
    None
}

// What backs the page that lies so far behind the first of a mapping.
fn back_after(back: Back, by: u64) -> Back
    ensures { result ≡ back_after back by }
{
    match back {
        Back::Anon => Back::Anon,
        Back::Shared { file, page } => Back::Shared {
            file,
            page: page.saturating_add(by),
        },
        Back::Private { file, page } => Back::Private {
            file,
            page: page.saturating_add(by),
        },
    }
}

/// The same, where it is known what backs the first.
pub fn back_by(back: Option<Back>, by: u64) -> Option<Back>
    ensures { result ≡ back_by back by }
{
    match back {
        Some(back) => Some(back_after(back, by)),
        None => None,
    }
}

// What this maps the page to, where it says so.
fn backing_in(recorded: &Recorded, page: u64) -> Option<Back>
    ensures { result ≡ backing_in page recorded.now.moment }
{
    match &recorded.moment {
        Moment::Mapped { pages, back, .. } => {
            if pages.contains(page) {
                back_by(*back, page.saturating_sub(pages.first))
            } else {
                None
            }
        }
        _ => None,
    }
}

// The same, where it isn't behind the step.
fn backing_by(recorded: &Recorded, page: u64, step: u64) -> Option<Back>
    ensures { result ≡ backing_by recorded.now page step }
{
    if recorded.step <= step {
        backing_in(recorded, page)
    } else {
        None
    }
}

/// What backs the page in a step, as the last moment up to that step says that says what it is mapped to.
pub fn backing_of(moments: &[Recorded], page: u64, step: u64) -> Option<Back>
    ensures { result ≡ backing_of None moments.now page step }
{
    let mut known = None;
    'moments: for recorded in moments {
        if let Some(back) = backing_by(recorded, page, step) {
            known = Some(back);
        }
    }
    known
}

/// What backs the page from a step on that maps it, as that step says; or where it leaves that as it is, as the last moment before it
/// says.
pub fn back_at(
    moments: &[Recorded],
    back: Option<Back>,
    by: u64,
    page: u64,
    step: u64,
) -> Option<Back>
    ensures { result ≡ back_at moments.now back by page step }
{
    match back {
        Some(back) => Some(back_after(back, by)),
        None => backing_of(moments, page, step),
    }
}
