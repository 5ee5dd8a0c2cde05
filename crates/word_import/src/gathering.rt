//! Several files that an import reads as one log, and the files that it writes.
ghost use Rattle.std.specs.Prelude.{◌≡◌, IfOk, OnOk, map, string_bytes};
ghost use Rattle.word_import.specs.Gathered.{AreSaved, IsGathered, IsSaved, path_in, thread_of};

use crate::joined::{JoinedLog, TimedLog, join_logs, thread_in};
use import_log::each::ProcessTrace;
use import_log::import::Ending;
use std::alloc::{AllocError, Global};
use std::io;
use std::io::ErrorKind;
use trace_io::IoFault;
use trace_io::source::{Counted, read_all};
use trace_text::number_text;
use word_parts::input::Files;

/// Why files weren't read as one log.
#[derive(Clone, Copy)]
pub struct Ungathered<'a> {
    /// A read failed, or memory was refused.
    pub fault: IoFault,
    /// The file that was read.
    pub name: &'a str,
    /// Why it can't be opened, where that is so.
    pub cause: Option<ErrorKind>,
}

// Reads a log to its end.
fn read_log<'a, F: Files>(
    files: &F,
    alloc: Global,
    name: &'a str,
) -> Result<TimedLog, Ungathered<'a>>
    ensures { IfOk result (λ log. log.thread ≡ thread_of name.entry) }
{
    let file = match files.open(name) {
        Ok(file) => file,
        Err(error) => {
            return Err(Ungathered {
                fault: IoFault::ReadFailed,
                name,
                cause: Some(error.kind()),
            });
        }
    };
    let mut file = Counted::new(file);
    match read_all(alloc, &mut file) {
        Ok(text) => Ok(TimedLog {
            thread: thread_in(name.as_bytes()),
            text,
        }),
        Err(fault) => Err(Ungathered {
            fault,
            name,
            cause: None,
        }),
    }
}

// That there is no memory for the logs of these files.
fn want_of_memory<'a>() -> Ungathered<'a> {
    Ungathered {
        fault: IoFault::NoMemory,
        name: "",
        cause: None,
    }
}

// Reads logs to their ends.
fn read_logs<'a, F: Files>(
    files: &F,
    alloc: Global,
    names: &[&'a str],
) -> Result<Vec<TimedLog>, Ungathered<'a>>
    ensures { IfOk result (λ logs. map (λ l. l.thread) logs.items ≡ map thread_of names.now) }
{
    let mut logs: Vec<TimedLog> = Vec::new(alloc);
    let mut at = 0;
    'names: while at < names.len() {
        let log = match read_log(files, alloc, names[at]) {
            Ok(log) => log,
            Err(why) => return Err(why),
        };
        let Ok(()) = logs.push(log) else {
            return Err(want_of_memory());
        };
        at += 1;
    }
    Ok(logs)
}

/// Reads these files to their ends, and makes one log of theirs: all lines in the order of their times, each behind
/// the number of the thread that its file's name ends with, where no line of the file names one.
pub fn gather<'a, F: Files>(
    files: &F,
    alloc: Global,
    names: &[&'a str],
) -> Result<JoinedLog, Ungathered<'a>>
    ensures { IfOk result (λ joined. IsGathered (map thread_of names.now) joined.text.items
        joined.untimed joined.unplaced) }
{
    let logs = match read_logs(files, alloc, names) {
        Ok(logs) => logs,
        Err(why) => return Err(why),
    };
    match join_logs(alloc, logs.as_slice()) {
        Ok(joined) => Ok(joined),
        Err(_) => Err(want_of_memory()),
    }
}

// The path of the trace of a process in this folder.
fn path_in(alloc: Global, folder: &str, number: u64) -> Result<String, AllocError>
    ensures { IfOk result (λ path. string_bytes path ≡ path_in folder.now number) }
{
    let digits = number_text(number);
    let mut path = String::new(alloc);
    path.push_str(folder)?;
    path.push_str("/")?;
    path.push_str(digits.as_str())?;
    path.push_str(".trace")?;
    Ok(path)
}

// Writes the trace of a process, if it has one, into this folder.
fn save_part<F: Files>(
    files: &F,
    alloc: Global,
    folder: &str,
    part: &ProcessTrace,
) -> io::Result<()>
    ensures { OnOk result (IsSaved (F.saved files.now) folder.now part.now) }
{
    match part.ending {
        Ending::Written => {
            let Ok(path) = path_in(alloc, folder, part.process.number) else {
                return Err(io::Error::from(ErrorKind::OutOfMemory));
            };
            files.save(path.as_str(), part.text.as_slice())
        }
        Ending::Nothing | Ending::Absent | Ending::Refused(_) => Ok(()),
    }
}

/// Writes the traces of these processes into this folder, `NUMBER.trace` each. An `Err` is that of a file or of the
/// folder: then some of them may be there.
pub fn save_parts<F: Files>(
    files: &F,
    alloc: Global,
    folder: &str,
    parts: &[ProcessTrace],
) -> io::Result<()>
    ensures { OnOk result (AreSaved (F.saved files.now) folder.now parts.now) }
{
    files.make_folder(folder)?;
    let mut at = 0;
    'parts: while at < parts.len() {
        save_part(files, alloc, folder, &parts[at])?;
        at += 1;
    }
    Ok(())
}
