//! The files that a task reads as one log, and those that it writes.
ghost use Rattle.std.specs.Prelude.{◌≡◌, ◌≢◌, ◌⊎◌, ◌≤◌, [], IfErr, IfOk, IfSome, IsSome, length, map, true};
ghost use Rattle.word_import.specs.Gathered.{AreSaved, AreUntold, Gathers, IsGathered, thread_of};

use crate::asks::Asks;
use crate::telling::{tell_cause, tell_io};
use import_log::each::ProcessTrace;
use std::alloc::Global;
use std::io;
use std::io::Write;
use trace_io::IoFault;
use word_grammar::Work;
use word_import::gathering::{Ungathered, gather, save_parts};
use word_import::joined::{JoinedLog, thread_in};
use word_parts::input::Files;

// Tells that a file can't be read, and why, where that is known, and answers the status.
pub(crate) fn refuse_file<E: Write>(name: &str, cause: Option<io::ErrorKind>, errors: &mut E) -> u8
    ensures { result ≡ 3 }
{
    tell_cause(name, IoFault::ReadFailed, cause, errors);
    3
}

// Tells that a file couldn't be written, and why, and answers the status.
fn refuse_save<E: Write>(name: &str, cause: io::ErrorKind, errors: &mut E) -> u8
    ensures { result ≡ 3 }
{
    tell_cause(name, IoFault::WriteFailed, Some(cause), errors);
    3
}

/// Writes the order that was found to the file that is named for it, where the task came to 0, and answers the status:
/// that of the task, or 3 where this fails.
pub(crate) fn save_order<F: Files, E: Write>(
    files: &F,
    asks: Asks<'_>,
    order: &[u8],
    status: u8,
    errors: &mut E,
) -> u8
    ensures saved { result ≡ 0
        → IfSome asks.entry.order (λ name. (order.now ≢ []) × F.saved files.now name.now order.now) }
    ensures status { (result ≡ status) ⊎ ((result ≡ 3) × (status ≡ 0) × IsSome asks.entry.order) }
{
    let Some(name) = asks.order else {
        return status;
    };
    if status != 0 {
        return status;
    }
    if order.is_empty() {
        return refuse_save(name, io::ErrorKind::Other, errors);
    }
    match files.save(name, order) {
        Ok(()) => status,
        Err(error) => refuse_save(name, error.kind(), errors),
    }
}

/// Writes the output to the file that is named for it, where the task was done, and answers the status: that of the
/// task, or 3 where this fails.
pub(crate) fn save_output<F: Files, E: Write>(
    files: &F,
    name: &str,
    text: &[u8],
    status: u8,
    errors: &mut E,
) -> u8
    ensures saved { result ≢ 2 → result ≢ 3 → F.saved files.now name.now text.now }
    ensures status { (result ≡ status) ⊎ (result ≡ 3) }
{
    if status == 2 || status == 3 {
        return status;
    }
    match files.save(name, text) {
        Ok(()) => status,
        Err(error) => refuse_save(name, error.kind(), errors),
    }
}

/// Writes the traces of processes to the folder that is named for them, where there is one and the task came to 0, and
/// answers the status: that of the task, or 3 where this fails.
pub(crate) fn save_traces<F: Files, E: Write>(
    files: &F,
    alloc: Global,
    asks: Asks<'_>,
    parts: &[ProcessTrace],
    status: u8,
    errors: &mut E,
) -> u8
    ensures saved { result ≡ 0 → IfSome asks.entry.folder (λ name. AreSaved (F.saved files.now) name.now parts.now) }
    ensures status { (result ≡ status) ⊎ ((result ≡ 3) × (status ≡ 0) × IsSome asks.entry.folder) }
{
    let Some(folder) = asks.folder else {
        return status;
    };
    if status != 0 {
        return status;
    }
    match save_parts(files, alloc, folder, parts) {
        Ok(()) => status,
        Err(error) => refuse_save(folder, error.kind(), errors),
    }
}

// Tells why files weren't read as one log, and answers the status.
fn refuse_files<E: Write>(why: Ungathered<'_>, errors: &mut E) -> u8
    ensures { result ≡ 3 }
{
    match why.fault {
        IoFault::ReadFailed => refuse_file(why.name, why.cause, errors),
        fault => {
            tell_io(fault, errors);
            3
        }
    }
}

// Tells whether these files are read as one log: several are, and so is one that the words name whose name says of
// which thread it is.
fn are_gathered(work: Work, names: &[&str]) -> bool
    ensures { result ≡ true → 1 ≤ length names.now }
{
    if names.len() != 1 {
        return names.len() >= 2;
    }
    match work {
        Work::ImportAccesses => false,
        _ => thread_in(names[0].as_bytes()).is_some(),
    }
}

// Tells that the order of so many lines isn't known, and answers the status.
fn refuse_order<E: Write>(lines: u64, errors: &mut E) -> u8
    ensures { result ≡ 2 }
{
    let _ = writeln!(
        errors,
        "radixvm: several FILEs, and {lines} of their lines don't say when their call took effect, or go back in time: record with strace -ff -ttt -T -o FILE"
    );
    2
}

// Says how many lines have no time, if some have none.
fn tell_untimed<E: Write>(lines: u64, errors: &mut E) {
    if lines > 0 {
        let _ = writeln!(
            errors,
            "import: {lines} lines tell no time: they come first, in the order of the FILEs"
        );
    }
}

// The text of a log that files came to, where it is told of all its lines where they belong. An `Err` is the status.
fn in_order<E: Write>(joined: JoinedLog, names: &[&str], errors: &mut E) -> Result<Vec<u8>, u8>
    requires gathered { IsGathered (map thread_of names.now) joined.text.items joined.untimed joined.unplaced }
    requires some { 1 ≤ length names.now }
    ensures ok { IfOk result (λ text. Gathers (map thread_of names.now) text.items) }
    ensures err { IfErr result (λ status. (status ≡ 2) × AreUntold (map thread_of names.now)) }
{
    if names.len() >= 2 && joined.unplaced > 0 {
        return Err(refuse_order(joined.unplaced, errors));
    }
    if names.len() >= 2 {
        tell_untimed(joined.untimed, errors);
    }
    Ok(joined.text)
}

// The log that the files of an import come to, of which there are several, or one whose name says of which thread it
// is; nothing for others. An `Err` is the status: 2 where it isn't told of all lines where they belong, and 3 where a
// file can't be read.
pub(crate) fn gathered<F: Files, E: Write>(
    files: &F,
    alloc: Global,
    work: Work,
    names: &[&str],
    errors: &mut E,
) -> Result<Option<Vec<u8>>, u8>
    ensures ok { IfOk result (λ log. IfSome log (λ text. Gathers (map thread_of names.now) text.items)) }
    ensures err { IfErr result (λ status. ((status ≡ 3) × (1 ≤ length names.now))
        ⊎ ((status ≡ 2) × AreUntold (map thread_of names.now))) }
{
    if !are_gathered(work, names) {
        return Ok(None);
    }
    match gather(files, alloc, names) {
        Ok(joined) => match in_order(joined, names, errors) {
            Ok(text) => Ok(Some(text)),
            Err(status) => Err(status),
        },
        Err(why) => Err(refuse_files(why, errors)),
    }
}
