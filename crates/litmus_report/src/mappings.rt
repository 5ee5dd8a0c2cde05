//! What is written of the mappings of an outcome.
ghost use Rattle.std.specs.Prelude.{◌≡◌, ◌++◌, OnOk};
ghost use Rattle.litmus_report.specs.Texts.{all_mapped, if_mapped, mapped_text, more_mapped};

use crate::texts::add_text;
use slot_lock::MapLine;
use std::alloc::Allocator;
use trace_text::{LineText, write_map_line};
use vm_base::NoMemory;

// Appends a mapping, as the list of mappings has it, but for the newline.
fn add_mapped<A: Allocator>(out: &mut Vec<u8, A>, line: &MapLine) -> Result<(), NoMemory>
    ensures { OnOk result (out.new.items ≡ out.old.items ++ mapped_text line.now) }
{
    let mut text = LineText::new();
    write_map_line(&mut text, line.range, line.prot, line.back);
    let bytes = text.as_str().as_bytes();
    let (front, _newline) = bytes.split_at(bytes.len().saturating_sub(1));
    out.extend_from_slice(front)?;
    Ok(())
}

// Appends mappings behind the first.
fn add_more_mapped<A: Allocator>(out: &mut Vec<u8, A>, lines: &[MapLine]) -> Result<(), NoMemory>
    ensures { OnOk result (out.new.items ≡ out.old.items ++ more_mapped lines.now) }
{
    for line in lines {
        add_text(out, " | ")?;
        add_mapped(out, line)?;
    }
    Ok(())
}

/// Appends the mappings, each as the list of mappings has it, divided by ` | `; and `nothing` where there are none. Where memory is
/// refused a part may have been appended.
pub fn add_mappings<A: Allocator>(out: &mut Vec<u8, A>, lines: &[MapLine]) -> Result<(), NoMemory>
    ensures { OnOk result (out.new.items ≡ out.old.items ++ all_mapped lines.now) }
{
    match lines {
        [] => add_text(out, "nothing"),
        [first, rest @ ..] => {
            add_mapped(out, first)?;
            add_more_mapped(out, rest)
        }
    }
}

/// Appends `; maps ` and the mappings, where they are asked for.
pub(crate) fn add_if_mapped<A: Allocator>(
    out: &mut Vec<u8, A>,
    maps: bool,
    lines: &[MapLine],
) -> Result<(), NoMemory>
    ensures { OnOk result (out.new.items ≡ out.old.items ++ if_mapped maps lines.now) }
{
    if !maps {
        return Ok(());
    }
    add_text(out, "; maps ")?;
    add_mappings(out, lines)
}
