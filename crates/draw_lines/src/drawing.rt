//! What shapes are written as.
ghost use Rattle.std.specs.Prelude.{◌≡◌, ◌++◌, OnOk};
ghost use Rattle.draw_lines.specs.Drawing.{arrow_text, bar_text, danger_text, deed_class, deed_text, first_line, mark_text, pass_word, pill_text};
ghost use Rattle.draw_lines.specs.Drawing.{second_line, stretch_text, wait_line, wait_text};

use crate::bits::{Bit, put_bits};
use crate::dangers::Danger;
use crate::places::{arrow_way, bar_place, danger_place, mark_place, middle, stretch_place};
use crate::sheet::{Layout, Sheet, lane, pitch, row_y, wide};
use crate::waits::Waited;
use draw_steps::drawing::{course_class, course_words, prot_class, request_name};
use draw_steps::moments::{Deed, Moment, Pass, Recorded};
use draw_steps::parts::Part;
use draw_steps::shapes::{Arrow, Bar, Stretch};
use draw_steps::texts::Drawable;
use std::alloc::AllocError;
use trace_text::pieces::Piece;
use vm_base::CoreId;

// Where the first line of a bar begins.
fn first_line(form: Layout) -> &'static str
    ensures { result.now ≡ first_line form }
{
    match form {
        Layout::Wide => "<text class=\"name\" x=\"5\" y=\"15\">",
        Layout::Narrow => "<text class=\"name\" x=\"5\" y=\"9\">",
        Layout::Flat => "<text class=\"flat\" x=\"3\" y=\"10\">",
    }
}

// Where the second line of a bar begins.
fn second_line(form: Layout) -> &'static str
    ensures { result.now ≡ second_line form }
{
    match form {
        Layout::Wide => "</text><text class=\"what\" x=\"5\" y=\"30\">",
        Layout::Narrow => "</text><text class=\"what\" x=\"5\" y=\"19\">",
        Layout::Flat => "",
    }
}

// A bar with its name, what it asks for, and its reply.
impl Drawable<Sheet> for Bar {
    ghost text = { bar_text };

    fn put(&self, out: &mut Vec<u8>, sheet: &Sheet) -> Result<(), AllocError> {
        let name = request_name(self.request);
        let place = bar_place(sheet, self);
        let first = first_line(sheet.form);
        let second = second_line(sheet.form);
        put_bits(
            out,
            &[
                Bit::Plain(Piece::Words("<g><title>")),
                Bit::Plain(Piece::Words(name)),
                Bit::Of(Part::Arguments(self.request)),
                Bit::Answer(self.answer),
                Bit::Plain(Piece::Words("</title>")),
                Bit::Of(Part::Rect(name, place)),
                Bit::Spot(sheet, self.core, self.begin),
                Bit::Plain(Piece::Words(first)),
                Bit::Plain(Piece::Words(name)),
                Bit::Plain(Piece::Words(second)),
                Bit::Of(Part::Arguments(self.request)),
                Bit::End(sheet, self.core, self.answer),
                Bit::Plain(Piece::Words("</g>\n")),
            ],
        )
    }
}

// Where what a call waits for stands in its bar.
fn wait_line(form: Layout) -> &'static str
    ensures { result.now ≡ wait_line form }
{
    match form {
        Layout::Wide => "<text class=\"wait\" x=\"5\" y=\"45\">",
        Layout::Narrow => "<text class=\"wait\" x=\"5\" y=\"29\">",
        Layout::Flat => "<text class=\"wait\" x=\"150\" y=\"10\">",
    }
}

// What a call waits for, in the column in which it does.
impl Drawable<Sheet> for Waited {
    ghost text = { wait_text };

    fn put(&self, out: &mut Vec<u8>, sheet: &Sheet) -> Result<(), AllocError> {
        let line = wait_line(sheet.form);
        put_bits(
            out,
            &[
                Bit::Plain(Piece::Words("<g><title>core ")),
                Bit::Plain(Piece::Core(self.core)),
                Bit::Plain(Piece::Words(" ")),
                Bit::For(self.cause),
                Bit::Plain(Piece::Words("</title>")),
                Bit::Spot(sheet, self.core, self.column),
                Bit::Plain(Piece::Words(line)),
                Bit::For(self.cause),
                Bit::Plain(Piece::Words("</text></g></g>\n")),
            ],
        )
    }
}

// An arrow, with what it says on pointing.
impl Drawable<Sheet> for Arrow {
    ghost text = { arrow_text };

    fn put(&self, out: &mut Vec<u8>, sheet: &Sheet) -> Result<(), AllocError> {
        let words = course_words(self.course);
        let class = course_class(self.course);
        let way = arrow_way(sheet, self);
        put_bits(
            out,
            &[
                Bit::Plain(Piece::Words("<g><title>core ")),
                Bit::Plain(Piece::Core(self.from)),
                Bit::Plain(Piece::Words(words)),
                Bit::Plain(Piece::Core(self.to)),
                Bit::Plain(Piece::Words("</title>")),
                Bit::Of(Part::Line(class, way)),
                Bit::Plain(Piece::Words("</g>\n")),
            ],
        )
    }
}

// A span of danger, with what it says on pointing.
impl Drawable<Sheet> for Danger {
    ghost text = { danger_text };

    fn put(&self, out: &mut Vec<u8>, sheet: &Sheet) -> Result<(), AllocError> {
        let place = danger_place(sheet, self);
        put_bits(
            out,
            &[
                Bit::Plain(Piece::Words("<g><title>core ")),
                Bit::Plain(Piece::Core(self.core)),
                Bit::Plain(Piece::Words(" may use translations that it is told to drop by core ")),
                Bit::Plain(Piece::Core(self.sender)),
                Bit::Plain(Piece::Words("</title>")),
                Bit::Of(Part::Rect("danger", place)),
                Bit::Plain(Piece::Words("</g>\n")),
            ],
        )
    }
}

// The class of a mark's word, which isn't seen where it has no room.
fn deed_class(sheet: &Sheet) -> &'static str
    ensures { result.now ≡ deed_class sheet.now }
{
    if wide(sheet) < 30 { "hid" } else { "deed" }
}

// Appends a mark of this class with a word.
fn put_pill<'a>(
    out: &mut Vec<u8>,
    sheet: &Sheet,
    core: CoreId,
    number: u64,
    class: &'a str,
    word: &'a str,
) -> Result<(), AllocError>
    ensures { OnOk result (out.new.items ≡ out.old.items ++ pill_text sheet.now core number class.now word.now) }
{
    let place = mark_place(sheet, core, number);
    let seen = deed_class(sheet);
    let x = middle(sheet, number);
    let y = lane(sheet, core) + pitch(sheet) / 2 + 3;
    put_bits(
        out,
        &[
            Bit::Plain(Piece::Words("<g><title>core ")),
            Bit::Plain(Piece::Core(core)),
            Bit::Plain(Piece::Words(": ")),
            Bit::Plain(Piece::Words(word)),
            Bit::Plain(Piece::Words("</title>")),
            Bit::Of(Part::Rect(class, place)),
            Bit::Of(Part::Text(seen, x, y)),
            Bit::Plain(Piece::Words(word)),
            Bit::Plain(Piece::Words("</text></g>\n")),
        ],
    )
}

// The word of a take.
fn pass_word(pass: Pass) -> &'static str
    ensures { result.now ≡ pass_word pass }
{
    match pass {
        Pass::First => "take 1",
        Pass::Second => "take 2",
    }
}

// Appends the mark of what a core did besides; a wait has words in its bar.
fn put_deed(
    out: &mut Vec<u8>,
    sheet: &Sheet,
    core: CoreId,
    number: u64,
    deed: Deed,
) -> Result<(), AllocError>
    ensures { OnOk result (out.new.items ≡ out.old.items ++ deed_text sheet.now core number deed) }
{
    match deed {
        Deed::Wait => Ok(()),
        Deed::Idle => put_pill(out, sheet, core, number, "spot", "idle"),
        Deed::Walk => put_pill(out, sheet, core, number, "spot", "walk"),
        Deed::Evict => put_pill(out, sheet, core, number, "spot", "evict"),
        Deed::Flush => put_pill(out, sheet, core, number, "spot", "flush"),
        Deed::Review => put_pill(out, sheet, core, number, "spot", "review"),
    }
}

// The mark of a take, or of something else that a core did, where this is one.
impl Drawable<Sheet> for Recorded {
    ghost text = { mark_text };

    fn put(&self, out: &mut Vec<u8>, sheet: &Sheet) -> Result<(), AllocError> {
        match &self.moment {
            Moment::Took { core, pass, .. } => {
                put_pill(out, sheet, *core, self.step, "take", pass_word(*pass))
            }
            Moment::Did { core, deed } => put_deed(out, sheet, *core, self.step, *deed),
            _ => Ok(()),
        }
    }
}

/// A sheet, and the text of the trace, which has names of files.
#[derive(Clone, Copy)]
pub struct NamedSheet<'a> {
    /// The sheet.
    pub sheet: &'a Sheet,
    /// The text of the trace.
    pub text: &'a [u8],
}

// A stretch with its rights, and what it says on pointing.
impl<'a> Drawable<NamedSheet<'a>> for Stretch {
    ghost text = { λ named. stretch_text named.sheet.now named.text.now };

    fn put(&self, out: &mut Vec<u8>, named: &NamedSheet<'a>) -> Result<(), AllocError> {
        let class = prot_class(self.prot);
        let place = stretch_place(named.sheet, *self);
        let x = middle(named.sheet, self.begin) + 4;
        let y = row_y(named.sheet, self.row) + 14;
        put_bits(
            out,
            &[
                Bit::Plain(Piece::Words("<g><title>")),
                Bit::Plain(Piece::Start(self.pages.first)),
                Bit::Plain(Piece::Words("-")),
                Bit::Plain(Piece::Start(self.pages.end)),
                Bit::Plain(Piece::Words(" ")),
                Bit::Plain(Piece::Rights(self.prot)),
                Bit::Of(Part::Backing(named.text, self.back)),
                Bit::Plain(Piece::Words("</title>")),
                Bit::Of(Part::Rect(class, place)),
                Bit::Of(Part::Text("prot", x, y)),
                Bit::Plain(Piece::Rights(self.prot)),
                Bit::Plain(Piece::Words("</text></g>\n")),
            ],
        )
    }
}
