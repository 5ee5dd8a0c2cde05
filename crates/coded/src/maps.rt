//! The list of mappings, as C reads it.
ghost use Rattle.std.specs.Prelude.{◌≡◌};
ghost use Rattle.core_steps.specs.Machine.{state};
ghost use Rattle.coded.specs.Maps.{line_code, told_lines, ListsOn};

use crate::batch::{BatchEnd, BatchStop, LENGTH_LIMIT};
use crate::bits::bits_of_prot;
use crate::opening::Refusal;
use core_steps::Machine;
use machine_log::Ledger;
use slot_lock::{MapLine, SlotMap};
use std::alloc::{Allocator, Global};
use vm_base::Back;

/// Neighbouring pages with the same protection, whose backing goes on from page to page, as C reads
/// them.
#[repr(C)]
#[derive(Clone, Copy, Drop)]
pub struct RawLine {
    /// The number of the first page.
    pub first: u64,
    /// The number after that of the last page.
    pub end: u64,
    /// The page of the file that backs the first, by its number there; else 0.
    pub page: u64,
    /// The number of the file; else 0.
    pub file: u32,
    /// 0 where no file backs them, 1 where they are the file's own pages, 2 where they are copies.
    pub back: u32,
    /// Rights, by bits.
    pub prot: u32,
}

/// What C reads of a line.
pub fn line_code(line: &MapLine) -> RawLine
    ensures { result ≡ line_code line.now }
{
    let none = RawLine {
        first: line.range.first,
        end: line.range.end,
        page: 0,
        file: 0,
        back: 0,
        prot: bits_of_prot(line.prot),
    };
    match line.back {
        Back::Anon => none,
        Back::Shared { file, page } => RawLine {
            page,
            file,
            back: 1,
            ..none
        },
        Back::Private { file, page } => RawLine {
            page,
            file,
            back: 2,
            ..none
        },
    }
}

// The lines, as far as there is room. Places without a line stay as they were.
fn tell_lines(lines: &[MapLine], told: &mut [RawLine])
    ensures { told.new ≡ told_lines lines.now told.old }
{
    'lines: for at in 0..lines.len().min(told.len()) {
        told[at] = line_code(&lines[at]);
    }
}

/// All mappings, as far as there is room; the count tells how many there are. Where memory is refused,
/// or the buffer is said to be too long, nothing is told.
pub fn list_maps<M: SlotMap, A: Allocator + Clone, L: Ledger>(
    alloc: Global,
    machine: &Machine<M, A, L>,
    told: &mut [RawLine],
) -> Result<BatchEnd, Refusal>
    ensures { ListsOn (state machine.now) told.old result told.new }
{
    if told.len() as u64 > LENGTH_LIMIT {
        return Err(Refusal::TooLong);
    }
    let Ok(lines) = machine.plain_maps(alloc) else {
        return Ok(BatchEnd {
            stop: Some(BatchStop::NoMemory),
            count: 0,
        });
    };
    tell_lines(&lines, told);
    Ok(BatchEnd {
        stop: None,
        count: lines.len(),
    })
}
