//! Which programs the processes of a log ran.
ghost use Rattle.std.specs.Prelude.{◌≡◌, ◌<◌, ◌==◌, ℕ, IfOk, OnOk, None, Some, if◌then◌else◌, length, map, nat_eq};
ghost use Rattle.std.specs.HashMap.{get};
ghost use Rattle.import_lines.specs.Joining.{call_at};
ghost use Rattle.import_steps.specs.Names.{name_shown};
ghost use Rattle.import_log.specs.Programs.{begins, begins_at, last_begun, owners, program_at, program_in, program_name, program_of, programs_for, programs_of};

use crate::processes::{Process, look, recall};
use import_forms::said::Said;
use import_lines::joining::{Room, told_at};
use import_lines::made::Made;
use import_lines::threads::ThreadLines;
use import_steps::names::push_name;
use std::alloc::{AllocError, Global};
use std::collections::HashMap;

// How many bytes show a program's file.
const SHOWN: usize = 80;

/// The file of a program, as it is shown.
#[derive(Drop)]
pub struct ProgramFile {
    /// The file's name, nothing where it isn't known.
    pub name: Vec<u8>,
}

// Tells whether a program begins.
fn begins(said: Said) -> bool
    ensures { result ≡ begins said }
{
    match said {
        Said::Begins => true,
        Said::Asks(_)
        | Said::Breaks(_)
        | Said::Moves { .. }
        | Said::Makes { .. }
        | Said::Keyed(_)
        | Said::Sizes { .. }
        | Said::Attaches { .. }
        | Said::Detaches(_)
        | Said::Clears { .. }
        | Said::Loses(_)
        | Said::Ends
        | Said::Fails
        | Said::Unread
        | Said::Other => false,
    }
}

// Puts the name that the call shows which acts at this line, and tells whether a program begins by it.
#[tactic(auto, using(crate::proofs::ToldLemmas::program_told, crate::proofs::ToldLemmas::program_none))]
fn put_begin(lines: &ThreadLines, place: usize, room: &mut Room) -> Result<bool, AllocError>
    requires { place < length lines.now }
    ensures { IfOk result (λ b. program_in (call_at lines.now place)
        ≡ (if b then Some room.new.name.items else None)) }
{
    match told_at(lines, place, room)? {
        Some(said) => Ok(begins(said)),
        None => Ok(false),
    }
}

// What is shown of a name.
fn shown_in(alloc: Global, name: &[u8]) -> Result<ProgramFile, AllocError>
    ensures { IfOk result (λ p. p.name.items ≡ name_shown 80 name.now) }
{
    let mut shown: Vec<u8> = Vec::new(alloc);
    push_name(&mut shown, name, SHOWN)?;
    Ok(ProgramFile { name: shown })
}

/// Of which process each line's thread is.
pub(crate) fn owners_of(
    alloc: Global,
    lines: &ThreadLines,
    made: &Made,
) -> Result<Vec<u64>, AllocError>
    ensures { IfOk result (λ owned. owned.items ≡ owners made.now lines.now) }
{
    let mut owned: Vec<u64> = Vec::new(alloc);
    let mut known = look(made, 0);
    let mut at = 0;
    'lines: while at < lines.len() {
        known = recall(made, known, lines.thread(at));
        owned.push(known.process)?;
        at += 1;
    }
    Ok(owned)
}

// Notes that the process begins a program at this line.
fn note_begun(begun: &mut HashMap<u64, usize>, number: u64, place: usize) -> Result<(), AllocError>
    ensures { OnOk result ((q : ℕ) → get nat_eq begun.new q
        ≡ (if number == q then Some place else get nat_eq begun.old q)) }
{
    begun.insert(number, place)?;
    Ok(())
}

// Notes whether a process begins a program at this line.
fn hear_begun(
    begun: &mut HashMap<u64, usize>,
    lines: &ThreadLines,
    owned: &[u64],
    place: usize,
    room: &mut Room,
) -> Result<(), AllocError>
    requires place { place < length lines.now }
    requires owned { length owned.now ≡ length lines.now }
    ensures { OnOk result ((q : ℕ) → get nat_eq begun.new q
        ≡ (if begins_at lines.now owned.now place q then Some place else get nat_eq begun.old q)) }
{
    if put_begin(lines, place, room)? {
        note_begun(begun, owned[place], place)
    } else {
        Ok(())
    }
}

/// The line at which each process began its last program.
pub(crate) fn read_begun(
    alloc: Global,
    lines: &ThreadLines,
    owned: &[u64],
    room: &mut Room,
) -> Result<HashMap<u64, usize>, AllocError>
    requires { length owned.now ≡ length lines.now }
    ensures { IfOk result (λ begun. (q : ℕ) → get nat_eq begun q
        ≡ last_begun lines.now owned.now (length lines.now) q) }
{
    let mut begun: HashMap<u64, usize> = HashMap::new(alloc);
    let mut at = 0;
    'lines: while at < lines.len() {
        hear_begun(&mut begun, lines, owned, at, room)?;
        at += 1;
    }
    Ok(begun)
}

// What is shown of the program that begins at this line.
fn shown_at(
    alloc: Global,
    lines: &ThreadLines,
    place: usize,
    room: &mut Room,
) -> Result<ProgramFile, AllocError>
    requires { place < length lines.now }
    ensures { IfOk result (λ p. program_name p ≡ name_shown 80 (program_at lines.now (Some place))) }
{
    if put_begin(lines, place, room)? {
        shown_in(alloc, room.name.as_slice())
    } else {
        shown_in(alloc, b"".as_slice())
    }
}

/// The program that the process of this number began last, as it is known where each did.
pub(crate) fn program_of(
    alloc: Global,
    lines: &ThreadLines,
    owned: &[u64],
    begun: &HashMap<u64, usize>,
    number: u64,
    room: &mut Room,
) -> Result<ProgramFile, AllocError>
    requires { (q : ℕ) → get nat_eq begun.now q ≡ last_begun lines.now owned.now (length lines.now) q }
    ensures { IfOk result (λ p. program_name p ≡ program_of lines.now owned.now number) }
{
    match begun.get(&number) {
        Some(place) => shown_at(alloc, lines, *place, room),
        None => shown_in(alloc, b"".as_slice()),
    }
}

// The programs of these processes.
fn programs_of(
    alloc: Global,
    lines: &ThreadLines,
    owned: &[u64],
    begun: &HashMap<u64, usize>,
    processes: &[Process],
    room: &mut Room,
) -> Result<Vec<ProgramFile>, AllocError>
    requires { (q : ℕ) → get nat_eq begun.now q ≡ last_begun lines.now owned.now (length lines.now) q }
    ensures { IfOk result (λ all. map program_name all.items ≡ programs_of lines.now owned.now processes.now) }
{
    let mut all: Vec<ProgramFile> = Vec::new(alloc);
    let mut at = 0;
    'processes: while at < processes.len() {
        let program = program_of(alloc, lines, owned, begun, processes[at].number, room)?;
        all.push(program)?;
        at += 1;
    }
    Ok(all)
}

/// The programs that the processes began last, in 80 bytes each, where there are several processes; none where there
/// is one.
pub(crate) fn read_programs(
    alloc: Global,
    lines: &ThreadLines,
    made: &Made,
    processes: &[Process],
    room: &mut Room,
) -> Result<Vec<ProgramFile>, AllocError>
    ensures { IfOk result (λ all. map program_name all.items ≡ programs_for lines.now made.now processes.now) }
{
    if processes.len() < 2 {
        return Ok(Vec::new(alloc));
    }
    let owned = owners_of(alloc, lines, made)?;
    let begun = read_begun(alloc, lines, owned.as_slice(), room)?;
    let all = programs_of(alloc, lines, owned.as_slice(), &begun, processes, room)?;
    Ok(all)
}
