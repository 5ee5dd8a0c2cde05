//! Where things lie in a picture, in its units.
ghost use Rattle.std.specs.Prelude.{◌≡◌, ◌≤◌};
ghost use Rattle.draw_lines.specs.Places.{arrow_way, bar_place, danger_place, edge, inset, last_column, mark_inset, mark_place, mark_wide, middle};
ghost use Rattle.draw_lines.specs.Places.{right_of, stretch_place, words_y};

use crate::dangers::Danger;
use crate::sheet::{Layout, Sheet, across, column, lane, pitch, row_y, wide};
use draw_steps::elements::{Rect, Way};
use draw_steps::moments::Answer;
use draw_steps::shapes::{Arrow, Bar, Course, Stretch};
use vm_base::CoreId;

/// How far a bar lies from the edges of its lane.
pub fn inset(form: Layout) -> u64
    ensures value { result ≡ inset form }
    ensures bounded { result ≤ 5 }
{
    match form {
        Layout::Flat => 1,
        Layout::Wide | Layout::Narrow => 5,
    }
}

// The last column of a bar: that of its answer, or the picture's last.
fn last_column(sheet: &Sheet, answer: Option<Answer>) -> u64
    ensures { result ≡ last_column sheet.now answer }
{
    match answer {
        Some(answer) => answer.step,
        None => sheet
            .first
            .saturating_add(u64::from(sheet.columns))
            .saturating_sub(1),
    }
}

/// Where a bar lies: in its core's lane, from its first column to its last one.
pub fn bar_place(sheet: &Sheet, bar: &Bar) -> Rect
    ensures { result ≡ bar_place sheet.now bar.now }
{
    let left = column(sheet, bar.begin);
    let right = column(sheet, last_column(sheet, bar.answer)) + wide(sheet);
    let inset = inset(sheet.form);
    Rect {
        x: left + 2,
        y: lane(sheet, bar.core) + inset,
        width: right.saturating_sub(left + 4),
        height: pitch(sheet).saturating_sub(2 * inset),
    }
}

/// Where the words of a core's bar begin, from above: upright ones at its lower edge.
pub fn words_y(sheet: &Sheet, core: CoreId) -> u64
    ensures { result ≡ words_y sheet.now core }
{
    match sheet.form {
        Layout::Narrow => (lane(sheet, core) + pitch(sheet)).saturating_sub(5),
        Layout::Wide | Layout::Flat => lane(sheet, core) + inset(sheet.form),
    }
}

/// The middle of a column.
pub fn middle(sheet: &Sheet, number: u64) -> u64
    ensures value { result ≡ middle sheet.now number }
    ensures bounded { result ≤ 9000100 }
{
    column(sheet, number) + wide(sheet) / 2
}

// How far a mark lies from the edges of its lane.
fn mark_inset(form: Layout) -> u64
    ensures value { result ≡ mark_inset form }
    ensures bounded { result ≤ 60 }
{
    match form {
        Layout::Wide => 22,
        Layout::Narrow => 55,
        Layout::Flat => 2,
    }
}

// How wide a mark is.
fn mark_wide(sheet: &Sheet) -> u64
    ensures value { result ≡ mark_wide sheet.now }
    ensures bounded { result ≤ 60 }
{
    wide(sheet).min(64).saturating_sub(4)
}

/// Where a mark lies: in the middle of its column and of its core's lane.
pub fn mark_place(sheet: &Sheet, core: CoreId, number: u64) -> Rect
    ensures { result ≡ mark_place sheet.now core number }
{
    let width = mark_wide(sheet);
    let inset = mark_inset(sheet.form);
    Rect {
        x: middle(sheet, number).saturating_sub(width / 2),
        y: lane(sheet, core) + inset,
        width,
        height: pitch(sheet).saturating_sub(2 * inset),
    }
}

// Where an arrow from or to the core meets what lies so far from the edges of its lane: below it where the other core lies below.
fn edge(sheet: &Sheet, core: CoreId, other: CoreId, by: u64) -> u64
    requires { by ≤ 60 }
    ensures { result ≡ edge sheet.now core other by }
{
    if core.index() < other.index() {
        (lane(sheet, core) + pitch(sheet)).saturating_sub(by)
    } else {
        lane(sheet, core) + by
    }
}

/// From where to where an arrow goes: from the bar of the call whose message it is, where it is sent, to the mark of the take; and back,
/// straight in the column of the second take.
pub fn arrow_way(sheet: &Sheet, arrow: &Arrow) -> Way
    ensures { result ≡ arrow_way sheet.now arrow.now }
{
    let (leaves, comes) = match arrow.course {
        Course::Message => (inset(sheet.form), mark_inset(sheet.form)),
        Course::Acknowledgement => (mark_inset(sheet.form), inset(sheet.form)),
    };
    Way {
        x1: middle(sheet, arrow.sent),
        y1: edge(sheet, arrow.from, arrow.to, leaves),
        x2: middle(sheet, arrow.came),
        y2: edge(sheet, arrow.to, arrow.from, comes),
    }
}

// Where what ends in this column ends: in its middle, or at the end of the last one.
fn right_of(sheet: &Sheet, end: Option<u64>) -> u64
    ensures { result ≡ right_of sheet.now end }
{
    match end {
        Some(number) => middle(sheet, number),
        None => 150 + across(sheet, u64::from(sheet.columns)),
    }
}

/// Where a span of danger lies: in the lane of the core that may use the translations, over its whole height.
pub fn danger_place(sheet: &Sheet, danger: &Danger) -> Rect
    ensures { result ≡ danger_place sheet.now danger.now }
{
    let left = middle(sheet, danger.begin);
    Rect {
        x: left,
        y: lane(sheet, danger.core) + 1,
        width: right_of(sheet, danger.end).saturating_sub(left),
        height: pitch(sheet).saturating_sub(2),
    }
}

/// Where a stretch lies: in its row, from the middle of the column in which it begins to that in which it ends.
pub fn stretch_place(sheet: &Sheet, stretch: Stretch) -> Rect
    ensures { result ≡ stretch_place sheet.now stretch }
{
    let left = middle(sheet, stretch.begin);
    Rect {
        x: left,
        y: row_y(sheet, stretch.row) + 2,
        width: right_of(sheet, stretch.end).saturating_sub(left),
        height: 16,
    }
}
