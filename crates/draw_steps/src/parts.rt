//! Parts of which the texts of shapes are made: pieces, elements, and what depends on a request or a reply.
ghost use Rattle.std.specs.Prelude.{◌≡◌, ◌++◌, OnOk};
ghost use Rattle.std.specs.List.{flat_map};
ghost use Rattle.draw_steps.specs.Parts.{arguments_of, change_words, label_text, outcome_text, part_text, range_words, reply_class};
ghost use Rattle.draw_steps.specs.Parts.{span_text, target_words};

use crate::backing::put_backing;
use crate::elements::{Rect, Way, put_circle, put_line, put_rect, put_text};
use crate::moments::Answer;
use crate::places::{View, column, lane, reply_y};
use crate::texts::{Drawable, put_each};
use std::alloc::AllocError;
use trace_text::pieces::{Piece, put_all, put_piece};
use vm_base::{Back, CoreId, Prot, Reply, Request};

/// A part of what a shape is written as.
#[derive(Clone, Copy)]
pub enum Part<'a> {
    /// A piece.
    Plain(Piece<'a>),
    /// A rectangle of this class.
    Rect(&'a str, Rect),
    /// A line of this class.
    Line(&'a str, Way),
    /// A circle of this class, and its middle.
    Circle(&'a str, u64, u64),
    /// The beginning of a text of this class, and where it stands.
    Text(&'a str, u64, u64),
    /// What a request asks for, after its name.
    Arguments(Request),
    /// The step in which a call began, and what it came to.
    Outcome(u64, Option<Answer>),
    /// The step in which something began, and that in which it ended.
    Span(u64, Option<u64>),
    /// What backs pages, where that is known, with a file's name if the text of the trace has one.
    Backing(&'a [u8], Option<Back>),
    /// The reply above a core's bar, if there is one.
    Label(View, CoreId, Option<Answer>),
}

// Appends an address, a length and rights, each after a space.
fn put_change(out: &mut Vec<u8>, addr: u64, len: u64, prot: Prot) -> Result<(), AllocError>
    ensures { OnOk result (out.new.items ≡ out.old.items ++ change_words addr len prot) }
{
    put_all(
        out,
        &[
            Piece::Words(" "),
            Piece::Address(addr),
            Piece::Words(" "),
            Piece::Number(len),
            Piece::Words(" "),
            Piece::Rights(prot),
        ],
    )
}

// Appends an address and a length, each after a space.
fn put_range(out: &mut Vec<u8>, addr: u64, len: u64) -> Result<(), AllocError>
    ensures { OnOk result (out.new.items ≡ out.old.items ++ range_words addr len) }
{
    put_all(
        out,
        &[
            Piece::Words(" "),
            Piece::Address(addr),
            Piece::Words(" "),
            Piece::Number(len),
        ],
    )
}

// Appends an address after a space.
fn put_target(out: &mut Vec<u8>, addr: u64) -> Result<(), AllocError>
    ensures { OnOk result (out.new.items ≡ out.old.items ++ target_words addr) }
{
    put_all(out, &[Piece::Words(" "), Piece::Address(addr)])
}

// Appends what a request asks for, after its name.
fn put_arguments(out: &mut Vec<u8>, request: Request) -> Result<(), AllocError>
    ensures { OnOk result (out.new.items ≡ out.old.items ++ arguments_of request) }
{
    match request {
        Request::Mmap {
            addr,
            len,
            prot,
            ..
        } => put_change(out, addr, len, prot),
        Request::Munmap { addr, len } => put_range(out, addr, len),
        Request::Mprotect { addr, len, prot } => put_change(out, addr, len, prot),
        Request::Load { addr } => put_target(out, addr),
        Request::Store { addr, byte } => put_range(out, addr, u64::from(byte)),
        Request::Fetch { addr } => put_target(out, addr),
    }
}

// Appends over which steps something goes on, or from which one on.
fn put_span(out: &mut Vec<u8>, begin: u64, end: Option<u64>) -> Result<(), AllocError>
    ensures { OnOk result (out.new.items ≡ out.old.items ++ span_text begin end) }
{
    match end {
        Some(end) => put_all(
            out,
            &[
                Piece::Words(", steps "),
                Piece::Number(begin),
                Piece::Words(" to "),
                Piece::Number(end),
            ],
        ),
        None => put_all(out, &[Piece::Words(", from step "), Piece::Number(begin)]),
    }
}

// Appends what a call was answered with, if it was, and over which steps it went on.
fn put_outcome(out: &mut Vec<u8>, begin: u64, answer: Option<Answer>) -> Result<(), AllocError>
    ensures { OnOk result (out.new.items ≡ out.old.items ++ outcome_text begin answer) }
{
    match answer {
        Some(answer) => put_all(
            out,
            &[
                Piece::Words(" = "),
                Piece::Reply(answer.reply),
                Piece::Words(", steps "),
                Piece::Number(begin),
                Piece::Words(" to "),
                Piece::Number(answer.step),
            ],
        ),
        None => put_all(out, &[Piece::Words(", from step "), Piece::Number(begin)]),
    }
}

/// The class of a reply: `fault` where nothing was done.
pub fn reply_class(reply: Reply) -> &'static str
    ensures { result.now ≡ reply_class reply }
{
    match reply {
        Reply::Mapped(_) | Reply::Done | Reply::Byte(_) => "reply",
        Reply::Refused(_) | Reply::Segv(_) | Reply::Bus | Reply::NoFrame | Reply::NoMemory => {
            "fault"
        }
    }
}

// Appends the reply above the end of its bar, if there is one.
fn put_label(
    out: &mut Vec<u8>,
    view: View,
    core: CoreId,
    answer: Option<Answer>,
) -> Result<(), AllocError>
    ensures { OnOk result (out.new.items ≡ out.old.items ++ label_text view core answer) }
{
    match answer {
        Some(answer) => {
            let x = column(view, answer.step) + 50;
            let y = lane(core) + reply_y(answer.step);
            put_text(out, reply_class(answer.reply), x, y)?;
            put_all(out, &[Piece::Reply(answer.reply), Piece::Words("</text>")])?;
            Ok(())
        }
        None => Ok(()),
    }
}

impl<'a> Drawable<()> for Part<'a> {
    ghost text = { λ board. part_text };

    fn put(&self, out: &mut Vec<u8>, _board: &()) -> Result<(), AllocError> {
        match self {
            Part::Plain(piece) => put_piece(out, piece),
            Part::Rect(class, place) => put_rect(out, class, *place),
            Part::Line(class, way) => put_line(out, class, *way),
            Part::Circle(class, x, y) => put_circle(out, class, *x, *y),
            Part::Text(class, x, y) => put_text(out, class, *x, *y),
            Part::Arguments(request) => put_arguments(out, *request),
            Part::Outcome(begin, answer) => put_outcome(out, *begin, *answer),
            Part::Span(begin, end) => put_span(out, *begin, *end),
            Part::Backing(text, back) => put_backing(out, text, *back),
            Part::Label(view, core, answer) => put_label(out, *view, *core, *answer),
        }
    }
}

/// Appends parts, one after another.
pub fn put_parts(out: &mut Vec<u8>, parts: &[Part]) -> Result<(), AllocError>
    ensures { OnOk result (out.new.items ≡ out.old.items ++ flat_map part_text parts.now) }
{
    put_each(out, &(), parts)
}
