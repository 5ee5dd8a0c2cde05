//! What a picture shows: bars, arrows, marks, and stretches of pages, still in cores and steps.
ghost use Rattle.std.specs.Prelude.{◌≡◌, IfOk};
ghost use Rattle.draw_steps.specs.Shapes.{arrow_at, arrow_of, arrows_of, bar_of, bars_of, mark_of, marks_of};

use crate::moments::{Answer, Deed, Moment, Pass, Recorded, answer_of, latest_told};
use std::alloc::{AllocError, Global};
use vm_base::{Back, CoreId, PageRange, Prot, Request};

/// A call, from its begin to its answer.
#[derive(Clone, Copy)]
pub struct Bar {
    /// The core that asked.
    pub core: CoreId,
    /// The step in which it began.
    pub begin: u64,
    /// What it asked for.
    pub request: Request,
    /// When it was answered, and with what; `None` where no moment says so.
    pub answer: Option<Answer>,
}

/// What an arrow stands for.
#[derive(Clone, Copy)]
pub enum Course {
    /// A message, up to its first take.
    Message,
    /// The acknowledgement of the message, at its second take.
    Acknowledgement,
}

/// A message between two cores, or its acknowledgement.
#[derive(Clone, Copy)]
pub struct Arrow {
    /// Which of the two.
    pub course: Course,
    /// The core from which it goes out.
    pub from: CoreId,
    /// The step in which it goes out.
    pub sent: u64,
    /// The core to which it comes.
    pub to: CoreId,
    /// The step in which it comes.
    pub came: u64,
}

/// What a mark stands for.
#[derive(Clone, Copy)]
pub enum Sign {
    /// A take of a message.
    Take,
    /// Something else that a core did.
    Deed(Deed),
}

/// Something that a core did in one step.
#[derive(Clone, Copy)]
pub struct Mark {
    /// The core.
    pub core: CoreId,
    /// The step.
    pub step: u64,
    /// What it did.
    pub sign: Sign,
}

/// Pages that are mapped with one protection over some steps.
#[derive(Clone, Copy)]
pub struct Stretch {
    /// The row in which they are shown.
    pub row: u16,
    /// The row's pages.
    pub pages: PageRange,
    /// Their protection.
    pub prot: Prot,
    /// What backs the first of them; `None` where no moment says so.
    pub back: Option<Back>,
    /// The step from which on they have it.
    pub begin: u64,
    /// The step in which they change; `None` where they keep it.
    pub end: Option<u64>,
}

// The bar of a call that begins here.
fn bar_of(moments: &[Recorded], recorded: &Recorded) -> Option<Bar>
    ensures { result ≡ bar_of moments.now recorded.now }
{
    match &recorded.moment {
        Moment::Begins {
            call,
            core,
            request,
        } => Some(Bar {
            core: *core,
            begin: recorded.step,
            request: *request,
            answer: answer_of(moments, *call),
        }),
        _ => None,
    }
}

/// One bar for each call that begins, in order.
pub fn bars_of(alloc: Global, moments: &[Recorded]) -> Result<Vec<Bar>, AllocError>
    ensures { IfOk result (λ bars. bars.items ≡ bars_of moments.now moments.now) }
{
    let mut bars: Vec<Bar> = Vec::new(alloc);
    'moments: for recorded in moments {
        if let Some(bar) = bar_of(moments, recorded) {
            bars.push(bar)?;
        }
    }
    Ok(bars)
}

// The arrow of a take in this step, of a message that `sender` sent in the step `told`.
fn arrow_at(core: CoreId, sender: CoreId, pass: Pass, told: u64, step: u64) -> Arrow
    ensures { result ≡ arrow_at core sender pass told step }
{
    match pass {
        Pass::First => Arrow {
            course: Course::Message,
            from: sender,
            sent: told,
            to: core,
            came: step,
        },
        Pass::Second => Arrow {
            course: Course::Acknowledgement,
            from: core,
            sent: step,
            to: sender,
            came: step,
        },
    }
}

// The arrow of a take, if the core was told.
fn arrow_of(moments: &[Recorded], recorded: &Recorded) -> Option<Arrow>
    ensures { result ≡ arrow_of moments.now recorded.now }
{
    match &recorded.moment {
        Moment::Took { core, sender, pass } => {
            let told = latest_told(moments, *sender, *core, recorded.step)?;
            Some(arrow_at(*core, *sender, *pass, told, recorded.step))
        }
        _ => None,
    }
}

/// One arrow for each take of a core that was told, in order.
pub fn arrows_of(alloc: Global, moments: &[Recorded]) -> Result<Vec<Arrow>, AllocError>
    ensures { IfOk result (λ arrows. arrows.items ≡ arrows_of moments.now moments.now) }
{
    let mut arrows: Vec<Arrow> = Vec::new(alloc);
    'moments: for recorded in moments {
        if let Some(arrow) = arrow_of(moments, recorded) {
            arrows.push(arrow)?;
        }
    }
    Ok(arrows)
}

// The mark of what a core did.
fn mark_of(recorded: &Recorded) -> Option<Mark>
    ensures { result ≡ mark_of recorded.now }
{
    match &recorded.moment {
        Moment::Took { core, .. } => Some(Mark {
            core: *core,
            step: recorded.step,
            sign: Sign::Take,
        }),
        Moment::Did { core, deed } => Some(Mark {
            core: *core,
            step: recorded.step,
            sign: Sign::Deed(*deed),
        }),
        _ => None,
    }
}

/// One mark for each take and each other deed, in order.
pub fn marks_of(alloc: Global, moments: &[Recorded]) -> Result<Vec<Mark>, AllocError>
    ensures { IfOk result (λ marks. marks.items ≡ marks_of moments.now) }
{
    let mut marks: Vec<Mark> = Vec::new(alloc);
    'moments: for recorded in moments {
        if let Some(mark) = mark_of(recorded) {
            marks.push(mark)?;
        }
    }
    Ok(marks)
}
