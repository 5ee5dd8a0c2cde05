//! The text of the trace that was made.
ghost use Rattle.std.specs.Prelude.{◌≡◌, ◌+◌, ◌++◌, ◌≤◌, IfOk, OnOk, codes, decimal, length, map};
ghost use Rattle.std.specs.List.{flat_map};
ghost use Rattle.trace_text.specs.Printing.{address_of};
ghost use Rattle.trace_text.specs.Spelling.{rights_text};
ghost use Rattle.import_steps.specs.Taking.{so_far, use_of};
ghost use Rattle.import_steps.specs.Names.{bare, name_shown};
ghost use Rattle.import_steps.specs.Texts.{asked_text, backing_text, first_line, gone_note, imported_text, kind_text, note_before, range_note, range_text};
ghost use Rattle.import_steps.specs.Texts.{step_line, step_text, use_line, use_lines, use_text};

use crate::names::{NAME, NAME_OF_RANGE, bare, name_at, push_name};
use crate::taking::{FileUse, Taken};
use import_maps::names::Name;
use import_maps::steps::{TraceRequest, TraceRequests, front_step};
use std::alloc::{AllocError, Global};
use trace_text::{LineText, push_address, push_count, push_letter, push_number, push_rights};
use vm_base::{CoreId, Flags, Request};

/// How many frames the space of a trace without accesses has: lines that are added by hand may need some.
pub const FRAMES: u64 = 256;

/// How many calls an imported trace may ask for at least.
pub const CALLS: u64 = 4096;

// Appends a range's address and length, each after a space.
fn push_range(text: &mut LineText, addr: u64, len: u64)
    requires { length text.old.bytes + 42 ≤ 256 }
    ensures bytes { text.new.bytes ≡ text.old.bytes ++ range_text addr len }
    ensures short { length text.new.bytes ≤ length text.old.bytes + 42 }
{
    push_address(text, addr);
    push_count(text, len);
}

// Appends a space and the flags' letters.
fn push_kind(text: &mut LineText, flags: Flags)
    requires { length text.old.bytes + 5 ≤ 256 }
    ensures bytes { text.new.bytes ≡ text.old.bytes ++ kind_text flags }
    ensures short { length text.new.bytes ≤ length text.old.bytes + 5 }
{
    text.push_str(" ");
    push_letter(text, flags.private, "p");
    push_letter(text, flags.shared, "s");
    push_letter(text, flags.fixed, "f");
    push_letter(text, flags.anon, "a");
}

// Appends the file and the offset, where the mapping isn't anonymous.
fn push_backing(text: &mut LineText, flags: Flags, file: u64, off: u64)
    requires { length text.old.bytes + 42 ≤ 256 }
    ensures bytes { text.new.bytes ≡ text.old.bytes ++ backing_text flags file off }
    ensures short { length text.new.bytes ≤ length text.old.bytes + 42 }
{
    if !flags.anon {
        push_count(text, file);
        push_address(text, off);
    }
}

/// Appends the request.
pub fn push_asked(text: &mut LineText, request: Request)
    requires { length text.old.bytes + 110 ≤ 256 }
    ensures bytes { text.new.bytes ≡ text.old.bytes ++ asked_text request }
    ensures short { length text.new.bytes ≤ length text.old.bytes + 110 }
{
    match request {
        Request::Mmap {
            addr,
            len,
            prot,
            flags,
            file,
            off,
        } => {
            text.push_str("mmap");
            push_range(text, addr, len);
            text.push_str(" ");
            push_rights(text, prot);
            push_kind(text, flags);
            push_backing(text, flags, file, off);
        }
        Request::Munmap { addr, len } => {
            text.push_str("munmap");
            push_range(text, addr, len);
        }
        Request::Mprotect { addr, len, prot } => {
            text.push_str("mprotect");
            push_range(text, addr, len);
            text.push_str(" ");
            push_rights(text, prot);
        }
        Request::Load { addr } => {
            text.push_str("load");
            push_address(text, addr);
        }
        Request::Store { addr, byte } => {
            text.push_str("store");
            push_address(text, addr);
            push_count(text, u64::from(byte));
        }
        Request::Fetch { addr } => {
            text.push_str("fetch");
            push_address(text, addr);
        }
    }
}

// Replaces the text by the line of a core's request.
fn put_step(text: &mut LineText, core: CoreId, request: Request)
    ensures { text.new.bytes ≡ step_line core request }
{
    text.clear();
    text.push_str("c");
    push_number(text, u64::from(core.index()));
    text.push_str("! ");
    push_asked(text, request);
    text.push_str("\n");
}

// Replaces the text by the line of a file. Its first byte is its number.
fn put_use(text: &mut LineText, number: u64, len: u64)
    ensures { text.new.bytes ≡ use_line number len }
{
    text.clear();
    text.push_str("file");
    push_count(text, number);
    text.push_str(" rw");
    push_count(text, len);
    push_count(text, number);
    text.push_str("\n");
}

/// Replaces the text by the first line, of this many frames, threads and requests.
pub fn put_first(text: &mut LineText, frames: u64, threads: usize, steps: usize)
    ensures { text.new.bytes ≡ first_line frames threads steps }
{
    text.clear();
    text.push_str("vm");
    push_count(text, threads.max(1).min(64) as u64);
    push_count(text, frames);
    push_count(text, (steps as u64).max(CALLS));
    text.push_str("\n");
}

// Replaces the text by the front of a comment that names the file of this number.
fn put_note(text: &mut LineText, number: u64)
    ensures { text.new.bytes ≡ codes "# file" ++ codes " " ++ decimal number ++ codes " " }
{
    text.clear();
    text.push_str("# file");
    push_count(text, number);
    text.push_str(" ");
}

// Appends what a line shows of the name, and ends the line.
fn push_bare(all: &mut Vec<u8>, name: &[u8], room: usize) -> Result<(), AllocError>
    ensures { OnOk result (all.new.items ≡ all.old.items ++ name_shown room (bare name.now) ++ codes "\n") }
{
    push_name(all, bare(name), room)?;
    all.extend_from_slice(b"\n")?;
    Ok(())
}

// Appends the lines of a file.
fn push_use(all: &mut Vec<u8>, number: u64, file: &FileUse) -> Result<(), AllocError>
    ensures { OnOk result (all.new.items ≡ all.old.items ++ use_text number (use_of file.now)) }
{
    let mut text = LineText::new();
    put_note(&mut text, number);
    all.extend_from_slice(text.as_str().as_bytes())?;
    push_bare(all, file.name.as_slice(), NAME)?;
    put_use(&mut text, number, file.len);
    all.extend_from_slice(text.as_str().as_bytes())?;
    Ok(())
}

// Appends the lines of the files.
fn push_uses(all: &mut Vec<u8>, files: &[FileUse]) -> Result<(), AllocError>
    ensures { OnOk result (all.new.items ≡ all.old.items ++ use_lines 0 (map use_of files.now)) }
{
    let mut at = 0;
    'files: while at < files.len() {
        push_use(all, at as u64, &files[at])?;
        at += 1;
    }
    Ok(())
}

// Replaces the text by the front of a comment that names the file of a range.
fn put_range(text: &mut LineText, addr: u64, len: u64, off: u64)
    ensures { text.new.bytes ≡ codes "# anon" ++ range_text addr len ++ codes " " ++ address_of off ++ codes " " }
{
    text.clear();
    text.push_str("# anon");
    push_range(text, addr, len);
    push_address(text, off);
    text.push_str(" ");
}

// Appends a comment that names the file of a mapping.
fn push_range_note(all: &mut Vec<u8>, name: &[u8], request: Request) -> Result<(), AllocError>
    ensures { OnOk result (all.new.items ≡ all.old.items ++ range_note name.now request) }
{
    if let Request::Mmap { addr, len, off, .. } = request {
        let mut text = LineText::new();
        put_range(&mut text, addr, len, off);
        all.extend_from_slice(text.as_str().as_bytes())?;
        push_bare(all, name, NAME_OF_RANGE)?;
    }
    Ok(())
}

// Appends a comment that tells where pages went that are unmapped.
fn push_gone(all: &mut Vec<u8>, addr: u64, len: u64, to: u64, new: u64) -> Result<(), AllocError>
    ensures { OnOk result (all.new.items ≡ all.old.items ++ gone_note addr len to new) }
{
    let mut text = LineText::new();
    text.push_str("# moved");
    push_range(&mut text, addr, len);
    push_range(&mut text, to, new);
    text.push_str("\n");
    all.extend_from_slice(text.as_str().as_bytes())?;
    Ok(())
}

// Appends the comment of a request, if it has one.
fn push_note(
    all: &mut Vec<u8>,
    names: &[u8],
    name: Name,
    request: Request,
) -> Result<(), AllocError>
    ensures { OnOk result (all.new.items ≡ all.old.items ++ note_before names.now name request) }
{
    if name.len == 0 {
        return Ok(());
    }
    match request {
        Request::Munmap { addr, len } => {
            push_gone(all, addr, len, name.from as u64, name.len as u64)
        }
        _ => push_range_note(all, name_at(names, name), request),
    }
}

// Appends the line of a request, after its comment.
fn push_step(all: &mut Vec<u8>, names: &[u8], step: TraceRequest) -> Result<(), AllocError>
    ensures { OnOk result (all.new.items ≡ all.old.items ++ step_text names.now step) }
{
    push_note(all, names, step.name, step.request)?;
    let mut text = LineText::new();
    put_step(&mut text, step.core, step.request);
    all.extend_from_slice(text.as_str().as_bytes())?;
    Ok(())
}

// Appends the lines of the requests, by the names of their files.
fn push_steps(all: &mut Vec<u8>, names: &[u8], steps: &TraceRequests) -> Result<(), AllocError>
    ensures { OnOk result (all.new.items ≡ all.old.items ++ flat_map (step_text names.now) steps.now) }
{
    let (mut heads, mut numbers) = steps.parts();
    'steps: while !heads.is_empty() {
        let (step, later, behind) = front_step(heads, numbers);
        push_step(all, names, step)?;
        heads = later;
        numbers = behind;
    }
    Ok(())
}

/// The trace of what was taken: a `vm` line, a line for each file, and a line for each request, in order. Comments say
/// what files are named.
pub fn write_taken(alloc: Global, taken: &Taken, frames: u64) -> Result<Vec<u8>, AllocError>
    ensures { IfOk result (λ all. all.items ≡ imported_text frames (so_far taken.now)) }
{
    let mut all: Vec<u8> = Vec::new(alloc);
    let mut text = LineText::new();
    put_first(&mut text, frames, taken.threads.len(), taken.steps.len());
    all.extend_from_slice(text.as_str().as_bytes())?;
    push_uses(&mut all, taken.files.as_slice())?;
    push_steps(&mut all, taken.names.as_slice(), &taken.steps)?;
    Ok(all)
}
