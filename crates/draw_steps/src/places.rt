//! Where things lie in a picture, in its units.
ghost use Rattle.std.specs.Prelude.{◌≡◌, ◌≤◌};
ghost use Rattle.draw_steps.specs.Places.{arrow_way, bar_place, column, lane, last_step, leaving, reply_y, row_y, rows_y, stretch_place, view_of};

use crate::elements::{Rect, Way};
use crate::shapes::{Arrow, Bar, Course, Stretch};
use vm_base::CoreId;

/// What a picture is of: cores, and a range of steps.
#[derive(Clone, Copy)]
pub struct View {
    /// How many cores have a lane.
    pub cores: u8,
    /// The first step that has a column.
    pub first: u64,
    /// How many steps have one.
    pub steps: u16,
}

/// The view of the steps from `first` to `last`: of the first 2,000 of them, if there are more, and of `first` alone
/// where `last` lies before it.
pub fn view_of(cores: u8, first: u64, last: u64) -> View
    ensures { result ≡ view_of cores first last }
{
    let more = last.saturating_sub(first).min(1999) as u16;
    View {
        cores,
        first,
        steps: more + 1,
    }
}

/// Where the step's column begins, from the left: at 104, and 52 more for each column before it. Steps before the
/// first have its column, and steps after the last one begin where that ends.
pub fn column(view: View, step: u64) -> u64
    ensures value { result ≡ column view step }
    ensures bounded { result ≤ 3500000 }
{
    let at = step.saturating_sub(view.first).min(u64::from(view.steps));
    104 + 52 * at
}

/// Where the core's lane begins, from above.
pub fn lane(core: CoreId) -> u64
    ensures value { result ≡ lane core }
    ensures bounded { result ≤ 5000 }
{
    40 + 66 * u64::from(core.index())
}

/// Where the rows of pages begin, from above.
pub fn rows_y(view: View) -> u64
    ensures value { result ≡ rows_y view }
    ensures bounded { result ≤ 20000 }
{
    80 + 66 * u64::from(view.cores)
}

/// Where this row begins, from above.
pub fn row_y(view: View, row: u16) -> u64
    ensures value { result ≡ row_y view row }
    ensures bounded { result ≤ 2000000 }
{
    rows_y(view) + 24 * u64::from(row)
}

/// The step in which a bar ends: that of its answer, or the last one.
pub fn last_step(view: View, bar: &Bar) -> u64
    ensures { result ≡ last_step view bar.now }
{
    match &bar.answer {
        Some(answer) => answer.step,
        None => view
            .first
            .saturating_add(u64::from(view.steps))
            .saturating_sub(1),
    }
}

/// Where a bar lies: in its core's lane, from its first column to its last one.
pub fn bar_place(view: View, bar: &Bar) -> Rect
    ensures { result ≡ bar_place view bar.now }
{
    let left = column(view, bar.begin);
    let right = column(view, last_step(view, bar)) + 48;
    Rect {
        x: left + 2,
        y: lane(bar.core) + 27,
        width: right.saturating_sub(left),
        height: 26,
    }
}

/// How deep in its lane a reply of the step stands: replies of neighbouring steps stand one above the other.
pub fn reply_y(step: u64) -> u64
    ensures value { result ≡ reply_y step }
    ensures bounded { result ≤ 23 }
{
    if step % 2 == 0 { 12 } else { 23 }
}

// Where an arrow leaves the lane of `from`: below the bar where `to` lies below.
fn leaving(from: CoreId, to: CoreId) -> u64
    ensures value { result ≡ leaving from to }
    ensures bounded { result ≤ 6000 }
{
    if from.index() < to.index() {
        lane(from) + 53
    } else {
        lane(from) + 27
    }
}

/// From where to where an arrow goes: a message from the end of its column to the middle of the take's, an
/// acknowledgement from there a little to the right.
pub fn arrow_way(view: View, arrow: &Arrow) -> Way
    ensures { result ≡ arrow_way view arrow.now }
{
    let x = column(view, arrow.came);
    let y1 = leaving(arrow.from, arrow.to);
    let y2 = leaving(arrow.to, arrow.from);
    match &arrow.course {
        Course::Message => Way {
            x1: column(view, arrow.sent) + 44,
            y1,
            x2: x + 26,
            y2,
        },
        Course::Acknowledgement => Way {
            x1: x + 26,
            y1,
            x2: x + 40,
            y2,
        },
    }
}

/// Where a stretch lies: in its row, from the middle of the column in which it begins to that in which it ends, or to
/// the end of the last one.
pub fn stretch_place(view: View, stretch: Stretch) -> Rect
    ensures { result ≡ stretch_place view stretch }
{
    let left = column(view, stretch.begin) + 26;
    let right = match stretch.end {
        Some(step) => column(view, step) + 24,
        None => 104 + 52 * u64::from(view.steps),
    };
    Rect {
        x: left,
        y: row_y(view, stretch.row) + 2,
        width: right.saturating_sub(left),
        height: 19,
    }
}
