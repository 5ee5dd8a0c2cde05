//! A whole picture: its canvas with columns, lanes and rows, and all shapes on it.
ghost use Rattle.std.specs.Prelude.{◌≡◌, ◌++◌, ◌≤◌, IfOk, OnOk, length};
ghost use Rattle.draw_lines.specs.Canvas.{canvas_text, column_text, drawn, form_class, front_text, height, lane_of, lane_text};
ghost use Rattle.draw_lines.specs.Canvas.{legend_text, line_at, picture_text, row_text, title_text, width};
ghost use Rattle.draw_lines.specs.Dangers.{dangers_of};
ghost use Rattle.draw_steps.specs.Shapes.{arrows_of, bars_of};

use crate::cores::acting;
use crate::dangers::dangers_of;
use crate::drawing::NamedSheet;
use crate::sheet::{Layout, Sheet, across, lane, lanes_of, pitch, row_y, rows_y, sheet_of, wide};
use crate::style::{LEGEND, STYLE};
use crate::waits::Waited;
use draw_steps::canvas::{put_head, put_size};
use draw_steps::elements::Way;
use draw_steps::moments::Recorded;
use draw_steps::parts::{Part, put_parts};
use draw_steps::rows::{all_rows, row_at, stretches_of};
use draw_steps::shapes::{Stretch, arrows_of, bars_of};
use draw_steps::texts::{Series, put_each, put_first};
use std::alloc::{AllocError, Global};
use trace_text::pieces::{Piece, put, put_all};
use vm_base::{CoreId, PageRange};

/// What a picture is of: what happened, from this column on, the numbers of the columns' lines, and the waits in them.
#[derive(Clone, Copy)]
pub struct Scene<'a> {
    /// The number of the first column.
    pub first: u64,
    /// The line of each column.
    pub heads: &'a [u64],
    /// What happened, where a step's number is that of its column.
    pub moments: &'a [Recorded],
    /// The calls that wait.
    pub waits: &'a [Waited],
}

// How wide the picture is: at least as its legend.
fn width(sheet: &Sheet) -> u64
    ensures { result ≡ width sheet.now }
{
    (160 + across(sheet, u64::from(sheet.columns))).max(740)
}

// How high the picture is.
fn height(sheet: &Sheet, rows: usize) -> u64
    ensures value { result ≡ height sheet.now rows }
    ensures bounded { result ≤ 20000000 }
{
    rows_y(sheet) + 20 * rows.min(256) as u64 + 56
}

// How words stand, as an attribute.
fn form_class(form: Layout) -> &'static str
    ensures { result.now ≡ form_class form }
{
    match form {
        Layout::Wide => " class=\"Wide\"",
        Layout::Narrow => " class=\"Narrow\"",
        Layout::Flat => " class=\"Flat\"",
    }
}

// The line of a column; 0 where there is none.
fn line_at(heads: &[u64], at: usize) -> u64
    ensures { result ≡ line_at heads.now at }
{
    if at < heads.len() { heads[at] } else { 0 }
}

// Appends the title.
fn put_title(out: &mut Vec<u8>, sheet: &Sheet, heads: &[u64]) -> Result<(), AllocError>
    ensures { OnOk result (out.new.items ≡ out.old.items ++ title_text sheet.now heads.now) }
{
    let first = line_at(heads, 0);
    let end = heads.len().saturating_sub(1);
    let last = line_at(heads, end);
    let cores = lanes_of(sheet.cores);
    put_all(
        out,
        &[
            Piece::Words("<title>Lines "),
            Piece::Number(first),
            Piece::Words(" to "),
            Piece::Number(last),
            Piece::Words(" of a trace, in which "),
            Piece::Number(cores),
            Piece::Words(" cores act</title>\n"),
        ],
    )
}

// Appends the beginning of the text: size, title, colours, and heads of arrows.
fn put_front(out: &mut Vec<u8>, sheet: &Sheet, heads: &[u64], high: u64) -> Result<(), AllocError>
    ensures { OnOk result (out.new.items ≡ out.old.items ++ front_text sheet.now heads.now high) }
{
    put_size(out, form_class(sheet.form), width(sheet), high)?;
    put_title(out, sheet, heads)?;
    put(out, STYLE)?;
    Ok(())
}

// The columns of these lines, down to here: each has a line at its left, and the number of its trace's line.
#[derive(Clone, Copy)]
struct Columns<'a> {
    sheet: &'a Sheet,
    heads: &'a [u64],
    bottom: u64,
}

impl<'a> Series for Columns<'a> {
    ghost count = { λ columns. length columns.heads.now };

    ghost text = { λ columns. column_text columns.sheet.now columns.heads.now columns.bottom };

    fn put_at(&self, out: &mut Vec<u8>, at: u16) -> Result<(), AllocError> {
        let line = line_at(self.heads, at as usize);
        let x = 150 + across(self.sheet, at as u64);
        let way = Way {
            x1: x,
            y1: 36,
            x2: x,
            y2: self.bottom,
        };
        put_parts(
            out,
            &[
                Part::Line("grid", way),
                Part::Text("step", x + wide(self.sheet) / 2, 30),
                Part::Plain(Piece::Number(line)),
                Part::Plain(Piece::Words("</text>\n")),
            ],
        )
    }
}

// Appends a core's lane.
fn put_lane(out: &mut Vec<u8>, sheet: &Sheet, core: CoreId) -> Result<(), AllocError>
    ensures { OnOk result (out.new.items ≡ out.old.items ++ lane_text sheet.now core) }
{
    let y = lane(sheet, core);
    let columns = u64::from(sheet.columns);
    let way = Way {
        x1: 8,
        y1: y,
        x2: 150 + across(sheet, columns),
        y2: y,
    };
    put_parts(
        out,
        &[
            Part::Line("lane", way),
            Part::Text("core", 8, y + pitch(sheet) / 2 + 4),
            Part::Plain(Piece::Words("core ")),
            Part::Plain(Piece::Core(core)),
            Part::Plain(Piece::Words("</text>\n")),
        ],
    )
}

// Appends the core's lane, if it has one.
fn put_lane_of(out: &mut Vec<u8>, sheet: &Sheet, core: CoreId) -> Result<(), AllocError>
    ensures { OnOk result (out.new.items ≡ out.old.items ++ lane_of sheet.now core) }
{
    if sheet.cores.contains(core) {
        put_lane(out, sheet, core)
    } else {
        Ok(())
    }
}

// The lanes of all cores, where they have one.
#[derive(Clone, Copy)]
struct Lanes<'a> {
    sheet: &'a Sheet,
}

impl<'a> Series for Lanes<'a> {
    ghost count = { λ _. 64 };

    ghost text = { λ lanes. lane_of lanes.sheet.now };

    fn put_at(&self, out: &mut Vec<u8>, at: u16) -> Result<(), AllocError> {
        put_lane_of(out, self.sheet, CoreId::new(at as u8))
    }
}

// The addresses of the rows of a sheet.
#[derive(Clone, Copy)]
struct Rows<'a> {
    sheet: &'a Sheet,
    rows: &'a [PageRange],
}

impl<'a> Series for Rows<'a> {
    ghost count = { λ rows. length rows.rows.now };

    ghost text = { λ rows. row_text rows.sheet.now rows.rows.now };

    fn put_at(&self, out: &mut Vec<u8>, at: u16) -> Result<(), AllocError> {
        let y = row_y(self.sheet, at) + 14;
        let pages = row_at(self.rows, at as usize);
        put_parts(
            out,
            &[
                Part::Text("page", 8, y),
                Part::Plain(Piece::Start(pages.first)),
                Part::Plain(Piece::Words("-")),
                Part::Plain(Piece::Start(pages.end)),
                Part::Plain(Piece::Words("</text>\n")),
            ],
        )
    }
}

// Appends the legend, below all.
fn put_legend(out: &mut Vec<u8>, bottom: u64) -> Result<(), AllocError>
    requires { bottom ≤ 20000000 }
    ensures { OnOk result (out.new.items ≡ out.old.items ++ legend_text bottom) }
{
    put_all(
        out,
        &[
            Piece::Words("<g transform=\"translate(0 "),
            Piece::Number(bottom + 12),
            Piece::Words(")\">\n"),
            Piece::Words(LEGEND),
            Piece::Words("</g>\n"),
        ],
    )
}

// Appends the canvas: columns, lanes, rows and legend.
fn put_canvas(
    out: &mut Vec<u8>,
    sheet: &Sheet,
    heads: &[u64],
    rows: &[PageRange],
    high: u64,
    bottom: u64,
) -> Result<(), AllocError>
    requires { bottom ≤ 20000000 }
    ensures { OnOk result (out.new.items ≡ out.old.items ++ canvas_text sheet.now heads.now rows.now high bottom) }
{
    put_front(out, sheet, heads, high)?;
    let columns = Columns {
        sheet,
        heads,
        bottom,
    };
    put_first(out, &columns, heads.len().min(2000) as u16)?;
    put_first(out, &Lanes { sheet }, 64)?;
    put_head(out, rows_y(sheet).saturating_sub(8), rows.len())?;
    put_first(out, &Rows { sheet, rows }, rows.len().min(256) as u16)?;
    put_legend(out, bottom)?;
    Ok(())
}

// Appends all shapes: pages first, dangers, arrows, then calls over them, marks and waits.
fn put_shapes(
    alloc: Global,
    out: &mut Vec<u8>,
    sheet: &Sheet,
    text: &[u8],
    scene: &Scene,
    stretches: &[Stretch],
) -> Result<(), AllocError>
    ensures { OnOk result (out.new.items
        ≡ out.old.items ++ drawn sheet.now text.now scene.now.moments.now scene.now.waits.now stretches.now
        (dangers_of scene.now.moments.now scene.now.moments.now) (arrows_of scene.now.moments.now scene.now.moments.now)
        (bars_of scene.now.moments.now scene.now.moments.now)) }
{
    let dangers = dangers_of(alloc, scene.moments)?;
    let arrows = arrows_of(alloc, scene.moments)?;
    let bars = bars_of(alloc, scene.moments)?;
    put_each(out, &NamedSheet { sheet, text }, stretches)?;
    put_each(out, sheet, dangers.as_slice())?;
    put_each(out, sheet, arrows.as_slice())?;
    put_each(out, sheet, bars.as_slice())?;
    put_each(out, sheet, scene.moments)?;
    put_each(out, sheet, scene.waits)?;
    put(out, "</svg>\n")?;
    Ok(())
}

/// The picture of what happened: a bar for each call, a mark for each take or other deed, an arrow for each take of a core that was
/// told, a hatched span from there to its second take, and the stretches of pages, with the names of files that the text of the trace
/// has. It is one SVG text. An error is a refusal of memory.
pub fn draw(alloc: Global, text: &[u8], scene: &Scene) -> Result<Vec<u8>, AllocError>
    ensures { IfOk result (λ drawn. drawn.items ≡ picture_text text.now scene.now.first scene.now.heads.now
        scene.now.moments.now scene.now.waits.now) }
{
    let cores = acting(scene.moments);
    let sheet = sheet_of(cores, scene.first, scene.heads.len().min(2000) as u16);
    let rows = all_rows(alloc, scene.moments)?;
    let stretches = stretches_of(alloc, scene.moments, rows.as_slice())?;
    let high = height(&sheet, rows.len());
    let bottom = high.saturating_sub(52);
    let mut out: Vec<u8> = Vec::new(alloc);
    put_canvas(&mut out, &sheet, scene.heads, rows.as_slice(), high, bottom)?;
    put_shapes(alloc, &mut out, &sheet, text, scene, stretches.as_slice())?;
    Ok(out)
}
