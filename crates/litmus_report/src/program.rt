//! A litmus test as a program for a kernel that has POSIX threads.
ghost use Rattle.std.specs.Prelude.{◌≡◌, ◌++◌, IfOk, OnOk, codes, decimal};
ghost use Rattle.std.specs.List.{flat_map};
ghost use Rattle.trace_text.specs.Printing.{address_of};
ghost use Rattle.trace_text.specs.Spelling.{mode_text};
ghost use Rattle.litmus_report.specs.Program.{call_row, file_row, final_row, lists_text, program_text};

use crate::program_text::{END, FINALS, FRONT, LISTS, OPENING};
use crate::texts::{add_address, add_number, add_text};
use crate::witness::add_request;
use litmus_merges::Asked;
use std::alloc::Allocator;
use trace_words::declaration::FileLine;
use vm_base::{Mode, NoMemory};

/// What a litmus test's program has: its files, the calls of the opening in their order, those of the lists, one core's after another's,
/// and the final addresses.
#[derive(Clone, Copy)]
pub struct Program<'a> {
    pub files: &'a [FileLine],
    pub opening: &'a [Asked],
    pub calls: &'a [Asked],
    pub addrs: &'a [u64],
}

fn mode_word(mode: Mode) -> &'static str
    ensures { result.now ≡ mode_text mode }
{
    match mode {
        Mode::R => "r",
        Mode::W => "w",
        Mode::RW => "rw",
    }
}

// Appends the row of a file.
fn add_file<A: Allocator>(out: &mut Vec<u8, A>, file: FileLine) -> Result<(), NoMemory>
    ensures { OnOk result (out.new.items ≡ out.old.items ++ file_row file) }
{
    add_text(out, "    {\"")?;
    add_text(out, mode_word(file.mode))?;
    add_text(out, "\", ")?;
    add_number(out, file.len)?;
    add_text(out, ", ")?;
    add_number(out, u64::from(file.seed))?;
    add_text(out, "},\n")
}

// Appends the rows of files.
fn add_files<A: Allocator>(out: &mut Vec<u8, A>, files: &[FileLine]) -> Result<(), NoMemory>
    ensures { OnOk result (out.new.items ≡ out.old.items ++ flat_map file_row files.now) }
{
    for file in files {
        add_file(out, *file)?;
    }
    Ok(())
}

// Appends the row of a call.
fn add_call<A: Allocator>(out: &mut Vec<u8, A>, call: Asked) -> Result<(), NoMemory>
    ensures { OnOk result (out.new.items ≡ out.old.items ++ call_row call) }
{
    add_text(out, "    {")?;
    add_number(out, u64::from(call.core.index()))?;
    add_text(out, ", \"")?;
    add_request(out, call.request)?;
    add_text(out, "\"},\n")
}

// Appends the rows of calls.
fn add_calls<A: Allocator>(out: &mut Vec<u8, A>, calls: &[Asked]) -> Result<(), NoMemory>
    ensures { OnOk result (out.new.items ≡ out.old.items ++ flat_map call_row calls.now) }
{
    for call in calls {
        add_call(out, *call)?;
    }
    Ok(())
}

// Appends the row of a final address.
fn add_addr<A: Allocator>(out: &mut Vec<u8, A>, addr: u64) -> Result<(), NoMemory>
    ensures { OnOk result (out.new.items ≡ out.old.items ++ final_row addr) }
{
    add_text(out, "    ")?;
    add_address(out, addr)?;
    add_text(out, ",\n")
}

// Appends the rows of final addresses.
fn add_addrs<A: Allocator>(out: &mut Vec<u8, A>, addrs: &[u64]) -> Result<(), NoMemory>
    ensures { OnOk result (out.new.items ≡ out.old.items ++ flat_map final_row addrs.now) }
{
    for addr in addrs {
        add_addr(out, *addr)?;
    }
    Ok(())
}

// Appends the lists of calls, and what is looked at behind them.
fn add_lists<A: Allocator>(
    out: &mut Vec<u8, A>,
    calls: &[Asked],
    addrs: &[u64],
) -> Result<(), NoMemory>
    ensures { OnOk result (out.new.items ≡ out.old.items ++ lists_text calls.now addrs.now) }
{
    add_text(out, LISTS)?;
    add_calls(out, calls)?;
    add_text(out, FINALS)?;
    add_addrs(out, addrs)?;
    add_text(out, END)
}

/// The program, as C: what is the same for each test, and rows for files, calls and final addresses. It runs the test many times, each
/// core on a thread, and writes how often each outcome came about, as `judge_counts` reads it. `Err` says that memory was refused.
pub fn program_of<A: Allocator>(alloc: A, program: &Program<'_>) -> Result<Vec<u8, A>, NoMemory>
    ensures { IfOk result (λ text. text.items
        ≡ program_text program.now.files.now program.now.opening.now program.now.calls.now program.now.addrs.now) }
{
    let mut out: Vec<u8, A> = Vec::new(alloc);
    add_text(&mut out, FRONT)?;
    add_files(&mut out, program.files)?;
    add_text(&mut out, OPENING)?;
    add_calls(&mut out, program.opening)?;
    add_lists(&mut out, program.calls, program.addrs)?;
    Ok(out)
}
