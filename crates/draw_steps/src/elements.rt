//! Elements of SVG, appended to a text.
ghost use Rattle.std.specs.Prelude.{◌≡◌, ◌++◌, OnOk};
ghost use Rattle.draw_steps.specs.Elements.{circle_text, line_text, rect_text, text_front};

use std::alloc::AllocError;
use trace_text::pieces::{Piece, put_all};

/// Where a rectangle lies.
#[derive(Clone, Copy)]
pub struct Rect {
    /// Its left edge.
    pub x: u64,
    /// Its upper edge.
    pub y: u64,
    /// How wide it is.
    pub width: u64,
    /// How high it is.
    pub height: u64,
}

/// Where a line begins and ends.
#[derive(Clone, Copy)]
pub struct Way {
    /// Where it begins, from the left.
    pub x1: u64,
    /// Where it begins, from above.
    pub y1: u64,
    /// Where it ends, from the left.
    pub x2: u64,
    /// Where it ends, from above.
    pub y2: u64,
}

/// Appends a rectangle.
#[tactic(auto, unfolding(crate::specs::Elements::rect_text))]
pub fn put_rect(out: &mut Vec<u8>, class: &str, place: Rect) -> Result<(), AllocError>
    ensures { OnOk result (out.new.items ≡ out.old.items ++ rect_text class.now place) }
{
    put_all(
        out,
        &[
            Piece::Words("<rect class=\""),
            Piece::Words(class),
            Piece::Words("\" x=\""),
            Piece::Number(place.x),
            Piece::Words("\" y=\""),
            Piece::Number(place.y),
            Piece::Words("\" width=\""),
            Piece::Number(place.width),
            Piece::Words("\" height=\""),
            Piece::Number(place.height),
            Piece::Words("\" rx=\"3\"/>"),
        ],
    )
}

/// Appends a line.
#[tactic(auto, unfolding(crate::specs::Elements::line_text))]
pub fn put_line(out: &mut Vec<u8>, class: &str, way: Way) -> Result<(), AllocError>
    ensures { OnOk result (out.new.items ≡ out.old.items ++ line_text class.now way) }
{
    put_all(
        out,
        &[
            Piece::Words("<line class=\""),
            Piece::Words(class),
            Piece::Words("\" x1=\""),
            Piece::Number(way.x1),
            Piece::Words("\" y1=\""),
            Piece::Number(way.y1),
            Piece::Words("\" x2=\""),
            Piece::Number(way.x2),
            Piece::Words("\" y2=\""),
            Piece::Number(way.y2),
            Piece::Words("\"/>"),
        ],
    )
}

/// Appends a circle.
#[tactic(auto, unfolding(crate::specs::Elements::circle_text))]
pub fn put_circle(out: &mut Vec<u8>, class: &str, x: u64, y: u64) -> Result<(), AllocError>
    ensures { OnOk result (out.new.items ≡ out.old.items ++ circle_text class.now x y) }
{
    put_all(
        out,
        &[
            Piece::Words("<circle class=\""),
            Piece::Words(class),
            Piece::Words("\" cx=\""),
            Piece::Number(x),
            Piece::Words("\" cy=\""),
            Piece::Number(y),
            Piece::Words("\" r=\"11\"/>"),
        ],
    )
}

/// Appends the beginning of a text.
#[tactic(auto, unfolding(crate::specs::Elements::text_front))]
pub fn put_text(out: &mut Vec<u8>, class: &str, x: u64, y: u64) -> Result<(), AllocError>
    ensures { OnOk result (out.new.items ≡ out.old.items ++ text_front class.now x y) }
{
    put_all(
        out,
        &[
            Piece::Words("<text class=\""),
            Piece::Words(class),
            Piece::Words("\" x=\""),
            Piece::Number(x),
            Piece::Words("\" y=\""),
            Piece::Number(y),
            Piece::Words("\">"),
        ],
    )
}
