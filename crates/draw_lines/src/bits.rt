//! Bits of which the texts of a picture are made: parts of any picture, and what depends on how words stand.
ghost use Rattle.std.specs.Prelude.{◌≡◌, ◌++◌, OnOk};
ghost use Rattle.std.specs.List.{flat_map};
ghost use Rattle.draw_lines.specs.Bits.{acks_text, after_words, answer_text, bit_text, cause_text, few_text, flat_answer, listed};
ghost use Rattle.draw_lines.specs.Bits.{own_answer, spot_text, third_line, turn_words};

use crate::cores::count_members;
use crate::places::words_y;
use crate::sheet::{Layout, Sheet, column};
use crate::waits::Cause;
use draw_steps::moments::Answer;
use draw_steps::parts::{Part, reply_class};
use draw_steps::texts::{Drawable, Series, put_each, put_first};
use std::alloc::AllocError;
use trace_text::pieces::{Piece, put, put_all, put_piece};
use vm_base::{CoreId, CoreSet};

/// A bit of what a shape is written as: of any picture, or by how words stand.
#[derive(Clone, Copy)]
pub enum Bit<'a> {
    /// A piece.
    Plain(Piece<'a>),
    /// A part of any picture.
    Of(Part<'a>),
    /// The place at which the words of a core's bar begin in this column.
    Spot(&'a Sheet, CoreId, u64),
    /// The reply behind an equals sign, if there is one.
    Answer(Option<Answer>),
    /// The end of the words of a core's bar: with the reply in the column of the answer, if there is one.
    End(&'a Sheet, CoreId, Option<Answer>),
    /// What a call waits for.
    For(Cause),
}

// What turns the words, behind their place.
fn turn_words(form: Layout) -> &'static str
    ensures { result.now ≡ turn_words form }
{
    match form {
        Layout::Narrow => ") rotate(-90)\">",
        Layout::Wide | Layout::Flat => ")\">",
    }
}

// Appends the place at which words begin.
fn put_spot(out: &mut Vec<u8>, sheet: &Sheet, core: CoreId, number: u64) -> Result<(), AllocError>
    ensures { OnOk result (out.new.items ≡ out.old.items ++ spot_text sheet.now core number) }
{
    let x = column(sheet, number) + 2;
    let y = words_y(sheet, core);
    put_all(
        out,
        &[
            Piece::Words("<g transform=\"translate("),
            Piece::Number(x),
            Piece::Words(" "),
            Piece::Number(y),
            Piece::Words(turn_words(sheet.form)),
        ],
    )
}

// Appends the reply behind an equals sign.
fn put_answer(out: &mut Vec<u8>, answer: Option<Answer>) -> Result<(), AllocError>
    ensures { OnOk result (out.new.items ≡ out.old.items ++ answer_text answer) }
{
    match answer {
        Some(answer) => put_all(out, &[Piece::Words(" = "), Piece::Reply(answer.reply)]),
        None => Ok(()),
    }
}

// Appends a reply in the same line as the words before it.
fn put_flat(out: &mut Vec<u8>, answer: Answer) -> Result<(), AllocError>
    ensures { OnOk result (out.new.items ≡ out.old.items ++ flat_answer answer) }
{
    put_all(
        out,
        &[
            Piece::Words("<tspan class=\""),
            Piece::Words(reply_class(answer.reply)),
            Piece::Words("\"> = "),
            Piece::Reply(answer.reply),
            Piece::Words("</tspan></text></g>"),
        ],
    )
}

// Where a line of its own for a reply begins.
fn third_line(form: Layout) -> &'static str
    ensures { result.now ≡ third_line form }
{
    match form {
        Layout::Narrow => "<text x=\"5\" y=\"29\" class=\"",
        Layout::Wide | Layout::Flat => "<text x=\"5\" y=\"45\" class=\"",
    }
}

// Appends a reply in a line of its own, in the column of the answer.
fn put_own(out: &mut Vec<u8>, sheet: &Sheet, core: CoreId, answer: Answer) -> Result<(), AllocError>
    ensures { OnOk result (out.new.items ≡ out.old.items ++ own_answer sheet.now core answer) }
{
    put(out, "</text></g>")?;
    put_spot(out, sheet, core, answer.step)?;
    put_all(
        out,
        &[
            Piece::Words(third_line(sheet.form)),
            Piece::Words(reply_class(answer.reply)),
            Piece::Words("\">= "),
            Piece::Reply(answer.reply),
            Piece::Words("</text></g>"),
        ],
    )?;
    Ok(())
}

// Appends the end of the words of a bar.
fn put_end(
    out: &mut Vec<u8>,
    sheet: &Sheet,
    core: CoreId,
    answer: Option<Answer>,
) -> Result<(), AllocError>
    ensures { OnOk result (out.new.items ≡ out.old.items ++ after_words sheet.now core answer) }
{
    match answer {
        None => put(out, "</text></g>"),
        Some(answer) => match sheet.form {
            Layout::Flat => put_flat(out, answer),
            Layout::Wide | Layout::Narrow => put_own(out, sheet, core, answer),
        },
    }
}

// Appends the core's number behind a space, if it is in the set.
fn put_listed(out: &mut Vec<u8>, cores: CoreSet, core: CoreId) -> Result<(), AllocError>
    ensures { OnOk result (out.new.items ≡ out.old.items ++ listed cores core) }
{
    if cores.contains(core) {
        put_all(out, &[Piece::Words(" "), Piece::Core(core)])
    } else {
        Ok(())
    }
}

// The cores of a set, each behind a space.
#[derive(Clone, Copy)]
struct Listed {
    cores: CoreSet,
}

impl Series for Listed {
    ghost count = { λ _. 64 };

    ghost text = { λ set. listed set.cores };

    fn put_at(&self, out: &mut Vec<u8>, at: u16) -> Result<(), AllocError> {
        put_listed(out, self.cores, CoreId::new(at as u8))
    }
}

// Appends which cores have to acknowledge, or how many, if there are more than three.
fn put_few(out: &mut Vec<u8>, cores: CoreSet) -> Result<(), AllocError>
    ensures { OnOk result (out.new.items ≡ out.old.items ++ few_text cores) }
{
    let count = count_members(cores, 64);
    if count > 3 {
        put_all(
            out,
            &[
                Piece::Words(" "),
                Piece::Number(count),
                Piece::Words(" cores"),
            ],
        )
    } else {
        put_first(out, &Listed { cores }, 64)
    }
}

// Appends which cores a call waits for.
fn put_acks(out: &mut Vec<u8>, cores: CoreSet) -> Result<(), AllocError>
    ensures { OnOk result (out.new.items ≡ out.old.items ++ acks_text cores) }
{
    put(out, "waits, acks:")?;
    put_few(out, cores)?;
    Ok(())
}

// Appends what a call waits for.
fn put_cause(out: &mut Vec<u8>, cause: Cause) -> Result<(), AllocError>
    ensures { OnOk result (out.new.items ≡ out.old.items ++ cause_text cause) }
{
    match cause {
        Cause::Lock(core) => put_all(
            out,
            &[Piece::Words("waits, lock: core "), Piece::Core(core)],
        ),
        Cause::Acks(cores) => put_acks(out, cores),
    }
}

impl<'a> Drawable<()> for Bit<'a> {
    ghost text = { λ board. bit_text };

    fn put(&self, out: &mut Vec<u8>, board: &()) -> Result<(), AllocError> {
        match self {
            Bit::Plain(piece) => put_piece(out, piece),
            Bit::Of(part) => part.put(out, board),
            Bit::Spot(sheet, core, number) => put_spot(out, *sheet, *core, *number),
            Bit::Answer(answer) => put_answer(out, *answer),
            Bit::End(sheet, core, answer) => put_end(out, *sheet, *core, *answer),
            Bit::For(cause) => put_cause(out, *cause),
        }
    }
}

/// Appends bits, one after another.
pub fn put_bits(out: &mut Vec<u8>, bits: &[Bit]) -> Result<(), AllocError>
    ensures { OnOk result (out.new.items ≡ out.old.items ++ flat_map bit_text bits.now) }
{
    put_each(out, &(), bits)
}
