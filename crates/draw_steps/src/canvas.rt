//! A whole picture: its canvas with lanes, columns and rows, and all shapes on it.
ghost use Rattle.std.specs.Prelude.{◌≡◌, ◌++◌, ◌≤◌, IfOk, OnOk, length};
ghost use Rattle.draw_steps.specs.Canvas.{canvas_of, canvas_text, column_text, drawn, front_text, head_text, head_words, height};
ghost use Rattle.draw_steps.specs.Canvas.{lane_text, legend_text, picture_text, row_text, size_text, width};
ghost use Rattle.draw_steps.specs.Shapes.{arrows_of, bars_of, marks_of};

use crate::drawing::{LEGEND, LEGEND_MORE, NamedView, STYLE};
use crate::elements::{Way, put_text};
use crate::moments::Recorded;
use crate::parts::{Part, put_parts};
use crate::places::{View, row_y, rows_y};
use crate::rows::{all_rows, row_at, stretches_of};
use crate::shapes::{Stretch, arrows_of, bars_of, marks_of};
use crate::texts::{Series, put_each, put_first};
use std::alloc::{AllocError, Global};
use trace_text::pieces::{Piece, put, put_all};
use vm_base::PageRange;

/// How wide the picture is: at least as its legend.
fn width(view: View) -> u64
    ensures { result ≡ width view }
{
    (160 + 52 * u64::from(view.steps)).max(640)
}

/// How high the picture is.
fn height(view: View, rows: usize) -> u64
    ensures value { result ≡ height view rows }
    ensures bounded { result ≤ 40000 }
{
    rows_y(view) + 24 * rows.min(256) as u64 + 52
}

/// Appends the beginning of a picture of this size, with these attributes in front of it.
#[tactic(auto, unfolding(crate::specs::Canvas::size_text))]
pub fn put_size(
    out: &mut Vec<u8>,
    attributes: &str,
    width: u64,
    height: u64,
) -> Result<(), AllocError>
    ensures { OnOk result (out.new.items ≡ out.old.items ++ size_text attributes.now width height) }
{
    put_all(
        out,
        &[
            Piece::Words("<svg xmlns=\"http://www.w3.org/2000/svg\""),
            Piece::Words(attributes),
            Piece::Words(" width=\""),
            Piece::Number(width),
            Piece::Words("\" height=\""),
            Piece::Number(height),
            Piece::Words("\" viewBox=\"0 0 "),
            Piece::Number(width),
            Piece::Words(" "),
            Piece::Number(height),
            Piece::Words("\">\n"),
        ],
    )
}

/// Appends the beginning of the text: size, colours, and heads of arrows.
pub fn put_front(out: &mut Vec<u8>, width: u64, height: u64) -> Result<(), AllocError>
    ensures { OnOk result (out.new.items ≡ out.old.items ++ front_text width height) }
{
    put_size(out, "", width, height)?;
    put(out, STYLE)?;
    Ok(())
}

// The columns of a view, down to here: each has a line, and the number of its step.
#[derive(Clone, Copy)]
struct Columns {
    view: View,
    bottom: u64,
}

impl Series for Columns {
    ghost count = { λ columns. columns.view.steps };

    ghost text = { λ columns. column_text columns.view columns.bottom };

    fn put_at(&self, out: &mut Vec<u8>, at: u16) -> Result<(), AllocError> {
        let ahead = u64::from(at);
        let step = self.view.first.saturating_add(ahead);
        let x = 104 + 52 * ahead;
        let way = Way {
            x1: x,
            y1: 36,
            x2: x,
            y2: self.bottom,
        };
        put_parts(
            out,
            &[
                Part::Line("grid", way),
                Part::Text("step", x + 26, 30),
                Part::Plain(Piece::Number(step)),
                Part::Plain(Piece::Words("</text>\n")),
            ],
        )
    }
}

// The lanes of a view's cores.
#[derive(Clone, Copy)]
struct Lanes {
    view: View,
}

impl Series for Lanes {
    ghost count = { λ lanes. lanes.view.cores };

    ghost text = { λ lanes. lane_text lanes.view };

    fn put_at(&self, out: &mut Vec<u8>, at: u16) -> Result<(), AllocError> {
        let number = u64::from(at);
        let steps = u64::from(self.view.steps);
        let y = 80 + 66 * number;
        let way = Way {
            x1: 104,
            y1: y,
            x2: 104 + 52 * steps,
            y2: y,
        };
        put_parts(
            out,
            &[
                Part::Line("lane", way),
                Part::Text("core", 8, y + 4),
                Part::Plain(Piece::Words("core ")),
                Part::Plain(Piece::Number(number)),
                Part::Plain(Piece::Words("</text>\n")),
            ],
        )
    }
}

// The addresses at which the rows of a view begin.
#[derive(Clone, Copy)]
struct Rows<'a> {
    view: View,
    rows: &'a [PageRange],
}

impl<'a> Series for Rows<'a> {
    ghost count = { λ rows. length rows.rows.now };

    ghost text = { λ rows. row_text rows.view rows.rows.now };

    fn put_at(&self, out: &mut Vec<u8>, at: u16) -> Result<(), AllocError> {
        let y = row_y(self.view, at) + 15;
        let pages = row_at(self.rows, at as usize);
        put_parts(
            out,
            &[
                Part::Text("page", 8, y),
                Part::Plain(Piece::Start(pages.first)),
                Part::Plain(Piece::Words("</text>\n")),
            ],
        )
    }
}

// Appends what the rows are: where not all are shown, how many there are.
fn put_head_words(out: &mut Vec<u8>, rows: usize) -> Result<(), AllocError>
    ensures { OnOk result (out.new.items ≡ out.old.items ++ head_words rows) }
{
    if rows > 256 {
        let count = rows as u64;
        put_all(
            out,
            &[
                Piece::Words("pages: the first 256 rows of "),
                Piece::Number(count),
                Piece::Words("</text>\n"),
            ],
        )
    } else {
        put(out, "pages</text>\n")
    }
}

/// Appends what stands above so many rows, in this line.
pub fn put_head(out: &mut Vec<u8>, y: u64, rows: usize) -> Result<(), AllocError>
    ensures { OnOk result (out.new.items ≡ out.old.items ++ head_text y rows) }
{
    put_text(out, "head", 8, y)?;
    put_head_words(out, rows)?;
    Ok(())
}

// Appends what stands below all.
fn put_legend(out: &mut Vec<u8>, bottom: u64) -> Result<(), AllocError>
    requires { bottom ≤ 100000 }
    ensures { OnOk result (out.new.items ≡ out.old.items ++ legend_text bottom) }
{
    put_parts(
        out,
        &[
            Part::Text("note", 8, bottom + 18),
            Part::Plain(Piece::Words(LEGEND)),
            Part::Text("note", 8, bottom + 34),
            Part::Plain(Piece::Words(LEGEND_MORE)),
        ],
    )
}

// Appends the canvas, so wide and so high, down to the bottom of its columns.
fn put_canvas_of(
    out: &mut Vec<u8>,
    view: View,
    rows: &[PageRange],
    size: (u64, u64),
    bottom: u64,
) -> Result<(), AllocError>
    requires { bottom ≤ 100000 }
    ensures { OnOk result (out.new.items ≡ out.old.items ++ canvas_of view rows.now size.0 size.1 bottom) }
{
    put_front(out, size.0, size.1)?;
    put_first(out, &Columns { view, bottom }, view.steps)?;
    put_first(out, &Lanes { view }, u16::from(view.cores))?;
    put_head(out, rows_y(view).saturating_sub(10), rows.len())?;
    put_first(out, &Rows { view, rows }, rows.len().min(256) as u16)?;
    put_legend(out, bottom)?;
    Ok(())
}

// Appends the canvas: columns, lanes, rows and legend.
fn put_canvas(out: &mut Vec<u8>, view: View, rows: &[PageRange]) -> Result<(), AllocError>
    ensures { OnOk result (out.new.items ≡ out.old.items ++ canvas_text view rows.now) }
{
    let high = height(view, rows.len());
    let bottom = high.saturating_sub(44);
    put_canvas_of(out, view, rows, (width(view), high), bottom)
}

// Appends the canvas and all shapes: pages first, calls over them, then arrows and marks.
fn put_drawn(
    alloc: Global,
    out: &mut Vec<u8>,
    view: View,
    text: &[u8],
    moments: &[Recorded],
    rows: &[PageRange],
    stretches: &[Stretch],
) -> Result<(), AllocError>
    ensures { OnOk result (out.new.items ≡ out.old.items ++ drawn view text.now rows.now stretches.now
        (bars_of moments.now moments.now) (arrows_of moments.now moments.now) (marks_of moments.now)) }
{
    let bars = bars_of(alloc, moments)?;
    let arrows = arrows_of(alloc, moments)?;
    let marks = marks_of(alloc, moments)?;
    put_canvas(out, view, rows)?;
    put_each(out, &NamedView { view, text }, stretches)?;
    put_each(out, &view, bars.as_slice())?;
    put_each(out, &view, arrows.as_slice())?;
    put_each(out, &view, marks.as_slice())?;
    put(out, "</svg>\n")?;
    Ok(())
}

/// The picture of what happened: a bar for each call, an arrow for each take of a core that was told, a mark for each
/// deed, and the stretches of pages, with the names of files that the text of the trace has. It is one SVG text. An error is a refusal
/// of memory.
pub fn draw(
    alloc: Global,
    view: View,
    text: &[u8],
    moments: &[Recorded],
) -> Result<Vec<u8>, AllocError>
    ensures { IfOk result (λ drawn. drawn.items ≡ picture_text view text.now moments.now) }
{
    let rows = all_rows(alloc, moments)?;
    let stretches = stretches_of(alloc, moments, rows.as_slice())?;
    let mut out: Vec<u8> = Vec::new(alloc);
    put_drawn(
        alloc,
        &mut out,
        view,
        text,
        moments,
        rows.as_slice(),
        stretches.as_slice(),
    )?;
    Ok(out)
}
