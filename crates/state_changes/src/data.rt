//! What a page knows of a trace: its lines, what it gave, the first state, and what each step changed.
ghost use Rattle.std.specs.Prelude.{◌≡◌, ◌++◌, IfOk, OnOk};
ghost use Rattle.std.specs.List.{flat_map};
ghost use Rattle.state_changes.specs.Applied.{Differs};
ghost use Rattle.trace_io.specs.Lines.{lines_of};
ghost use Rattle.state_changes.specs.Data.{change_text, data_text, field_text, group_text, groups_text, moment_text, page_text, part_text, parts_text, steps_text};

use crate::json::put_string;
use crate::recorder::{StateRecorder, StateStep};
use crate::spans::span_of;
use crate::{DiffOp, Difference};
use std::alloc::{AllocError, Global};
use trace_io::lines::front_line;
use trace_text::pieces::{Piece, put, put_all};

// Appends a part of a change.
fn put_part(out: &mut Vec<u8>, part: DiffOp, added: &[u8]) -> Result<(), AllocError>
    ensures { OnOk result (out.new.items ≡ out.old.items ++ part_text part added.now) }
{
    match part {
        DiffOp::Keep(count) => put_all(out, &[Piece::Words(","), Piece::Number(count as u64)]),
        DiffOp::Skip(count) => put_all(out, &[Piece::Words(",-"), Piece::Number(count as u64)]),
        DiffOp::Add(count) => {
            let (text, _) = added.split_at(count.min(added.len()));
            put(out, ",")?;
            put_string(out, text)
        }
    }
}

// Appends the parts of a change.
fn put_parts(out: &mut Vec<u8>, parts: &[DiffOp], added: &[u8]) -> Result<(), AllocError>
    ensures { OnOk result (out.new.items ≡ out.old.items ++ parts_text parts.now added.now) }
{
    let mut fresh = added;
    let mut at = 0;
    'parts: while at < parts.len() {
        let part = parts[at];
        put_part(out, part, fresh)?;
        let (_, others) = fresh.split_at(part.fresh().min(fresh.len()));
        fresh = others;
        at += 1;
    }
    Ok(())
}

// Appends a step: how many bytes stay (and how many go, below 0), and the texts that come.
fn put_change(out: &mut Vec<u8>, change: &Difference) -> Result<(), AllocError>
    ensures { OnOk result (out.new.items ≡ out.old.items ++ change_text change.now) }
{
    put(out, ",[0")?;
    put_parts(out, change.parts(), change.added())?;
    put(out, "]")
}

// Appends the steps of a line.
fn put_group(out: &mut Vec<u8>, moments: &[StateStep]) -> Result<(), AllocError>
    ensures { OnOk result (out.new.items ≡ out.old.items ++ group_text moments.now) }
{
    put(out, ",[0")?;
    let mut at = 0;
    'moments: while at < moments.len() {
        put_change(out, moments[at].change())?;
        at += 1;
    }
    put(out, "]")
}

// Appends the steps of each line.
fn put_groups(out: &mut Vec<u8>, trace: &[u8], moments: &[StateStep]) -> Result<(), AllocError>
    ensures { OnOk result (out.new.items ≡ out.old.items ++ groups_text (lines_of trace.now) moments.now) }
{
    let mut rest = trace;
    let mut left = moments;
    'lines: while !rest.is_empty() {
        let (line, more) = front_line(rest);
        let (group, others) = left.split_at(span_of(line, left));
        put_group(out, group)?;
        rest = more;
        left = others;
    }
    Ok(())
}

// Appends a text behind its name.
#[tactic(auto, unfolding(crate::specs::Data::field_text))]
fn put_field(out: &mut Vec<u8>, name: &str, text: &[u8]) -> Result<(), AllocError>
    ensures { OnOk result (out.new.items ≡ out.old.items ++ field_text name.now text.now) }
{
    put(out, name)?;
    put_string(out, text)
}

// Appends the steps of all lines between these.
#[tactic(auto, unfolding(crate::specs::Data::steps_text))]
fn put_steps(
    out: &mut Vec<u8>,
    front: &str,
    trace: &[u8],
    moments: &[StateStep],
    back: &str,
) -> Result<(), AllocError>
    ensures { OnOk result (out.new.items ≡ out.old.items ++ steps_text front.now (lines_of trace.now) moments.now back.now) }
{
    put(out, front)?;
    put_groups(out, trace, moments)?;
    put(out, back)?;
    Ok(())
}

// Appends the page's data, as JSON.
fn put_data(
    out: &mut Vec<u8>,
    trace: &[u8],
    shown: &[u8],
    recorder: &StateRecorder,
) -> Result<(), AllocError>
    ensures { OnOk result (out.new.items ≡ out.old.items ++ data_text trace.now shown.now recorder.now) }
{
    put_field(out, "{\"trace\":", trace)?;
    put_field(out, ",\n\"shown\":", shown)?;
    put_field(out, ",\n\"first\":", recorder.first())?;
    put_steps(out, ",\n\"steps\":[0", trace, recorder.moments(), "]}")?;
    Ok(())
}

/// The page that steps through the trace, whose replay showed this, between the front and the back of a page.
pub fn page_of(
    alloc: Global,
    front: &str,
    back: &str,
    trace: &[u8],
    shown: &[u8],
    recorder: &StateRecorder,
) -> Result<Vec<u8>, AllocError>
    ensures { IfOk result (λ page. page.items ≡ page_text front.now back.now trace.now shown.now recorder.now) }
{
    let mut page = Vec::new(alloc);
    put(&mut page, front)?;
    put_data(&mut page, trace, shown, recorder)?;
    put(&mut page, back)?;
    Ok(page)
}
