//! The mappings of a machine as text.
ghost use Rattle.std.specs.Prelude.{◌≡◌, ◌++◌, List, OnOk, IfOk};
ghost use Rattle.std.specs.List.{flat_map};
ghost use Rattle.core_steps.specs.Machine.{state};
ghost use Rattle.core_steps.specs.MapLines.{ListsMaps};
ghost use Rattle.slot_lock.specs.declared.map_list.MapLine.{MapLine};
ghost use Rattle.trace_text.specs.Listing.{mapping_text, maps_text};

use core_steps::Machine;
use machine_log::Ledger;
use slot_lock::{MapLine, SlotMap};
use std::alloc::{AllocError, Allocator, Global};
use trace_text::{LineText, write_map_line};

// Appends the line of a mapping.
fn put_mapping(out: &mut Vec<u8>, line: &MapLine) -> Result<(), AllocError>
    ensures { OnOk result (out.new.items ≡ out.old.items ++ mapping_text line.now) }
{
    let mut text = LineText::new();
    write_map_line(&mut text, line.range, line.prot, line.back);
    out.extend_from_slice(text.as_str().as_bytes())
}

// Appends a line for each mapping.
fn put_mappings(out: &mut Vec<u8>, lines: &[MapLine]) -> Result<(), AllocError>
    ensures { OnOk result (out.new.items ≡ out.old.items ++ flat_map mapping_text lines.now) }
{
    let mut at = 0;
    'lines: while at < lines.len() {
        put_mapping(out, &lines[at])?;
        at += 1;
    }
    Ok(())
}

// The text of these mappings.
#[tactic(auto, unfolding(trace_text::specs::Listing::maps_text))]
fn text_of(alloc: Global, lines: &[MapLine]) -> Result<Vec<u8>, AllocError>
    ensures { IfOk result (λ text. text.items ≡ maps_text lines.now) }
{
    let mut text = Vec::new(alloc);
    put_mappings(&mut text, lines)?;
    Ok(text)
}

/// The text of the machine's mappings, those of the plain page map to which its log leads.
pub(crate) fn mappings_of<M: SlotMap, A: Allocator + Clone, L: Ledger>(
    alloc: Global,
    machine: &Machine<M, A, L>,
) -> Result<Vec<u8>, AllocError>
    ensures { IfOk result (λ text. (maps : List MapLine) × ListsMaps (state machine.now) maps × (text.items ≡ maps_text maps)) }
{
    let Ok(lines) = machine.plain_maps(alloc) else {
        return Err(AllocError);
    };
    text_of(alloc, lines.as_slice())
}
