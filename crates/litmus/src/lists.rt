//! Outcomes for other programs: one in a line, divided by tabs.
ghost use Rattle.std.specs.Prelude.{◌≡◌, ◌++◌, IfOk, OnOk, map};
ghost use Rattle.std.specs.List.{flat_map};
ghost use Rattle.litmus.specs.Lists.{cell_text, cells_text, list_line, maps_cell, row_line};

use litmus_report::{HasOutcome, Row, add_mappings};
use slot_lock::MapLine;
use std::alloc::Allocator;
use trace_text::{LineText, push_reply};
use vm_base::{NoMemory, Reply};

// Appends a reply, with a tab in front but at the front of a line.
fn add_cell<A: Allocator>(
    out: &mut Vec<u8, A>,
    reply: Reply,
    is_first: bool,
) -> Result<(), NoMemory>
    ensures { OnOk result (out.new.items ≡ out.old.items ++ cell_text is_first reply) }
{
    if !is_first {
        out.extend_from_slice("\t".as_bytes())?;
    }
    let mut text = LineText::new();
    push_reply(&mut text, reply);
    out.extend_from_slice(text.as_str().as_bytes())?;
    Ok(())
}

// Appends replies.
fn add_cells<A: Allocator>(
    out: &mut Vec<u8, A>,
    replies: &[Reply],
    is_first: bool,
) -> Result<(), NoMemory>
    ensures { OnOk result (out.new.items ≡ out.old.items ++ cells_text is_first replies.now) }
{
    let mut at_front = is_first;
    for reply in replies {
        add_cell(out, *reply, at_front)?;
        at_front = false;
    }
    Ok(())
}

// Appends the mappings, where they are asked for, with a tab in front.
fn add_maps<A: Allocator>(
    out: &mut Vec<u8, A>,
    maps: bool,
    lines: &[MapLine],
) -> Result<(), NoMemory>
    ensures { OnOk result (out.new.items ≡ out.old.items ++ maps_cell maps lines.now) }
{
    if !maps {
        return Ok(());
    }
    out.extend_from_slice("\t".as_bytes())?;
    add_mappings(out, lines)
}

// Appends the line of an outcome.
fn add_line<T: HasOutcome, A: Allocator>(
    out: &mut Vec<u8, A>,
    maps: bool,
    outcome: &T,
) -> Result<(), NoMemory>
    ensures { OnOk result (out.new.items ≡ out.old.items ++ list_line maps (T.outcome outcome.now)) }
{
    add_cells(out, outcome.replies(), true)?;
    add_cells(out, outcome.finals(), false)?;
    add_maps(out, maps, outcome.maps())?;
    if !outcome.is_reached() {
        out.extend_from_slice("\topen".as_bytes())?;
    }
    out.extend_from_slice("\n".as_bytes())?;
    Ok(())
}

// Appends the line of a row's outcome.
fn add_row<T: HasOutcome, A: Allocator>(
    out: &mut Vec<u8, A>,
    maps: bool,
    outcomes: &[T],
    place: usize,
) -> Result<(), NoMemory>
    ensures { OnOk result (out.new.items ≡ out.old.items ++ row_line maps (map T.outcome outcomes.now) place) }
{
    match outcomes.get(place) {
        Some(outcome) => add_line(out, maps, outcome),
        None => Ok(()),
    }
}

/// The outcomes in the order of these rows: in a line the replies, what loads of the final addresses show, the mappings where they are
/// asked for, and `open` where it isn't known to come about, divided by tabs.
pub(crate) fn list_text<T: HasOutcome, A: Allocator + Clone>(
    alloc: &A,
    maps: bool,
    outcomes: &[T],
    rows: &[Row<A>],
) -> Result<Vec<u8, A>, NoMemory>
    ensures { IfOk result (λ text. text.items ≡ flat_map (λ row. row_line maps (map T.outcome outcomes.now) row.1) rows.now) }
{
    let mut out: Vec<u8, A> = Vec::new(alloc.clone()?);
    for row in rows {
        add_row(&mut out, maps, outcomes, row.1)?;
    }
    Ok(out)
}
