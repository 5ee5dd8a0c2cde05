//! What is mapped where a trace begins, by a list of mappings.
ghost use Rattle.std.specs.Prelude.{◌≡◌, ◌-◌, ◌<◌, ◌≤◌, ◌^◌, ◌++◌, IfOk, OnOk, codes, length};
ghost use Rattle.trace_io.specs.Lines.{lines_of};
ghost use Rattle.import_steps.specs.Taking.{so_far};
ghost use Rattle.import_log.specs.Entries.{total};
ghost use Rattle.import_lines.specs.Listed.{entry_of, entry_said};
ghost use Rattle.import_log.specs.Starting.{entry_listed, file_listed, flags_of, heap_with, in_place_of_file, is_inside, line_listed};
ghost use Rattle.import_log.specs.Starting.{shown_name, start_of, with_request, without_file};

use crate::entries::{Entered, Entries};
use import_lines::listed::{Listed, MappingKind, kind_of, read_listed};
use import_maps::names::{NO_NAME, Name};
use import_maps::steps::TraceRequest;
use import_steps::names::note_name;
use import_steps::taking::{ADDRESS_END, Taken, reaches, use_file};
use std::alloc::{AllocError, Global};
use trace_io::lines::front_line;
use vm_base::{CoreId, Flags, Request};

/// The first address that a program may have.
const ADDRESS_START: u64 = 4096;

/// What is mapped at the start, and how many lines of the list became what.
#[derive(Drop)]
pub struct Start {
    /// What is mapped.
    pub taken: Taken,
    /// How many lines were kept, changed and left out.
    pub entries: Entries,
}

// Adds a request of core 0, of pages whose file's name stands here.
fn place(taken: &mut Taken, name: Name, request: Request) -> Result<(), AllocError>
    ensures { OnOk result (so_far taken.new ≡ with_request (so_far taken.old) name request) }
{
    let core = CoreId::new(0);
    taken.steps.push(TraceRequest {
        core,
        name,
        request,
    })?;
    Ok(())
}

// The flags of a mapping that is fixed.
fn flags(shared: bool, anon: bool) -> Flags
    ensures { result ≡ flags_of shared anon }
{
    Flags {
        private: !shared,
        shared,
        fixed: true,
        anon,
    }
}

// Notes where the heap ends, where the line is about it.
fn note_heap(taken: &mut Taken, listed: &Listed<'_>)
    ensures { so_far taken.new ≡ heap_with (so_far taken.old) (entry_of listed.now) }
{
    if listed.name == b"[heap]".as_slice() {
        taken.heap_end = Some(listed.end);
    }
}

// Adds a mapping of no file.
fn place_anonymous(taken: &mut Taken, listed: &Listed<'_>) -> Result<(), AllocError>
    requires { listed.now.start < listed.now.end }
    ensures { OnOk result (so_far taken.new ≡ without_file (so_far taken.old) (entry_of listed.now)) }
{
    note_heap(taken, listed);
    let request = Request::Mmap {
        addr: listed.start,
        len: listed.end - listed.start,
        prot: listed.prot,
        flags: flags(listed.shared, true),
        file: 0,
        off: 0,
    };
    place(taken, NO_NAME, request)
}

// A file's name as strace shows it beside a descriptor.
fn shown(alloc: Global, name: &[u8]) -> Result<Vec<u8>, AllocError>
    ensures { IfOk result (λ shown. shown.items ≡ shown_name name.now) }
{
    let mut shown: Vec<u8> = Vec::new(alloc);
    shown.extend_from_slice(b"<")?;
    shown.extend_from_slice(name)?;
    shown.extend_from_slice(b">")?;
    Ok(shown)
}

// Adds a mapping of no file in place of one of the file of this name.
fn place_unkept(taken: &mut Taken, listed: &Listed<'_>, name: &[u8]) -> Result<(), AllocError>
    requires { listed.now.start < listed.now.end }
    ensures { OnOk result (so_far taken.new ≡ in_place_of_file (so_far taken.old) (entry_of listed.now) name.now) }
{
    let name = note_name(&mut taken.names, name)?;
    let len = listed.end - listed.start;
    let request = Request::Mmap {
        addr: listed.start,
        len,
        prot: listed.prot,
        flags: flags(listed.shared, true),
        file: 0,
        off: listed.off,
    };
    place(taken, name, request)
}

// Adds a mapping of a file, or of no file where the trace hasn't it.
fn place_file(alloc: Global, taken: &mut Taken, listed: &Listed<'_>) -> Result<Entered, AllocError>
    requires { listed.now.start < listed.now.end }
    ensures { IfOk result (λ e. (so_far taken.new, e) ≡ file_listed (so_far taken.old) (entry_of listed.now)) }
{
    let len = listed.end - listed.start;
    let name = shown(alloc, listed.name)?;
    if reaches(listed.off, len) {
        if let Some(file) = use_file(alloc, &mut taken.files, name.as_slice(), listed.off + len)? {
            let request = Request::Mmap {
                addr: listed.start,
                len,
                prot: listed.prot,
                flags: flags(listed.shared, false),
                file,
                off: listed.off,
            };
            place(taken, NO_NAME, request)?;
            return Ok(Entered::Kept);
        }
    }
    place_unkept(taken, listed, name.as_slice())?;
    Ok(Entered::Changed)
}

// Tells whether the mapping is all within the addresses of a trace.
fn is_inside(listed: &Listed<'_>) -> bool
    ensures { result ≡ is_inside (entry_of listed.now) }
{
    listed.start >= ADDRESS_START && listed.end <= ADDRESS_END
}

// Adds what a line says.
fn place_listed(
    alloc: Global,
    taken: &mut Taken,
    listed: &Listed<'_>,
) -> Result<Entered, AllocError>
    ensures { IfOk result (λ e. (so_far taken.new, e) ≡ entry_listed (so_far taken.old) (entry_of listed.now)) }
{
    if listed.end <= listed.start {
        return Ok(Entered::Unread);
    }
    if !is_inside(listed) {
        return Ok(Entered::Outside);
    }
    match kind_of(listed.name) {
        MappingKind::Kernel => Ok(Entered::Kernel),
        MappingKind::Anonymous => {
            place_anonymous(taken, listed)?;
            Ok(Entered::Kept)
        }
        MappingKind::File => place_file(alloc, taken, listed),
    }
}

// Adds what a line says, if it says anything.
fn place_line(alloc: Global, taken: &mut Taken, line: &[u8]) -> Result<Entered, AllocError>
    ensures { IfOk result (λ e. (so_far taken.new, e) ≡ line_listed (so_far taken.old) (entry_said line.now)) }
{
    match read_listed(line) {
        Some(listed) => place_listed(alloc, taken, &listed),
        None => Ok(Entered::Unread),
    }
}

/// What a list of mappings says. Each of its lines is counted once.
pub fn read_list(alloc: Global, list: &[u8]) -> Result<Start, AllocError>
    ensures value { IfOk result (λ s. (so_far s.taken, s.entries) ≡ start_of list.now) }
    ensures total { IfOk result (λ s. total s.entries ≡ length (lines_of list.now)) }
    ensures few { IfOk result (λ s. total s.entries < 2 ^ 64) }
{
    let mut taken = Taken::new(alloc);
    let mut entries = Entries::new();
    let mut rest = list;
    let mut left = list.len();
    'lines: while left > 0 {
        let (line, more) = front_line(rest);
        let entered = place_line(alloc, &mut taken, line)?;
        entries = entries.and(entered);
        rest = more;
        left = rest.len();
    }
    Ok(Start { taken, entries })
}
