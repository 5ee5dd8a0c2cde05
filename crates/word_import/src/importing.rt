//! What the word `import` does.
ghost use Rattle.std.specs.Prelude.{◌≡◌, ◌≢◌, ◌<◌, ◌≤◌, ◌^◌, All, map};
ghost use Rattle.import_log.specs.Entries.{total as entries_total};
ghost use Rattle.import_steps.specs.Counts.{total};
ghost use Rattle.import_log.specs.Each.{parted, parts_of};
ghost use Rattle.import_steps.specs.Taking.{nothing_taken};
ghost use Rattle.word_import.specs.Status.{ending_status, parts_status};
ghost use Rattle.word_import.specs.Words.{ImportsAccesses, ImportsEach, ImportsLog, ImportsReplies};
ghost use Rattle.trace_io.specs.Io.{read_from, written_to};
ghost use Rattle.trace_io.specs.Source.{Reads};

use crate::progress::Progress;
use crate::replying::{RepliesReport, ReplyClock, import_replies};
use import_forms::looks::{Looks, looks_of};
use import_lackey::traced::{LackeyReport, trace_log};
use import_log::each::{ProcessTrace, import_log_each};
use import_log::entries::Entries;
use import_log::import::{Ending, Refusal, Report};
use import_log::mapped::import_mapped;
use import_log::processes::{Choice, Process};
use import_log::programs::ProgramFile;
use import_steps::counts::LineCounts;
use import_steps::losses::Losses;
use std::alloc::Global;
use std::io::Write;
use trace_io::IoFault;
use trace_io::sink::Sink;
use trace_io::source::Source;
use trace_words::fault::TraceFault;
use word_parts::ended::{Ended, Trouble};
use word_parts::pointing::{expect, show_line};

// Prints one count and what was counted, if there was any.
fn tell_count<E: Write>(count: u64, what: &str, errors: &mut E) {
    if count > 0 {
        let _ = writeln!(errors, "  {count} {what}");
    }
}

// Prints how many lines were changed, and how.
fn tell_changed<E: Write>(counts: &LineCounts, errors: &mut E) {
    tell_count(counts.heap, "changed: brk, as mmap or munmap", errors);
    tell_count(counts.moves, "changed: mremap, as munmap and mmap", errors);
    tell_count(
        counts.files,
        "changed: a mapping of a file, as one of zero bytes",
        errors,
    );
    tell_count(counts.keyed, "changed: pkey_mprotect, as mprotect", errors);
    tell_count(
        counts.shared,
        "changed: shmat and shmdt, as mmap of a file and munmap",
        errors,
    );
    tell_count(
        counts.cleared,
        "changed: madvise with MADV_DONTNEED, as mmap of the private pages",
        errors,
    );
}

// Prints how many calls were left out that change the address space, by their names.
fn tell_lost<E: Write>(lost: &Losses, errors: &mut E) {
    tell_count(
        lost.attach,
        "left out, and lost: shmat of memory whose size no line says",
        errors,
    );
    tell_count(
        lost.detach,
        "left out, and lost: shmdt of such memory",
        errors,
    );
    tell_count(
        lost.drops,
        "left out, and lost: madvise that drops bytes of pages",
        errors,
    );
    tell_count(lost.remaps, "left out, and lost: remap_file_pages", errors);
    tell_count(
        lost.grows,
        "left out, and lost: mmap with MAP_GROWSDOWN",
        errors,
    );
    tell_count(
        lost.huge,
        "left out, and lost: mmap with MAP_HUGETLB",
        errors,
    );
    tell_count(lost.faults, "left out, and lost: userfaultfd", errors);
    tell_count(
        lost.others,
        "left out, and lost: io_setup, io_destroy and map_shadow_stack",
        errors,
    );
}

// Prints how many lines were left out, and why.
fn tell_left<E: Write>(counts: &LineCounts, errors: &mut E) {
    let other = counts.other.saturating_add(counts.begins);
    tell_count(other, "left out: other calls, and events", errors);
    tell_count(
        counts.half,
        "left out: the other half of a call that stands in two lines",
        errors,
    );
    tell_count(counts.failed, "left out: calls that failed", errors);
    tell_count(counts.still, "left out: no page came or went", errors);
    tell_count(counts.elsewhere, "left out: other processes", errors);
    tell_count(
        counts.before,
        "left out: before the process began another program",
        errors,
    );
    tell_count(counts.unread, "left out: in a form that isn't read", errors);
    tell_count(
        counts.unmapped,
        "left out: mprotect or mremap of pages that no line maps",
        errors,
    );
    tell_lost(&counts.lost, errors);
}

// Prints how many lines of a list were kept, changed and left out, and why, if there were any.
fn tell_entries<E: Write>(entries: &Entries, errors: &mut E)
    requires { entries_total entries.now < 2 ^ 64 }
{
    let kept = entries.kept;
    let changed = entries.changed;
    let left = entries.left();
    if kept == 0 && changed == 0 && left == 0 {
        return;
    }
    let _ = writeln!(
        errors,
        "maps: {kept} lines kept, {changed} changed, {left} left out"
    );
    tell_count(
        changed,
        "changed: a mapping of a file, as one of zero bytes",
        errors,
    );
    tell_count(entries.kernel, "left out: the kernel's own pages", errors);
    tell_count(
        entries.outside,
        "left out: outside the addresses of a trace",
        errors,
    );
    tell_count(
        entries.unread,
        "left out: in a form that isn't read",
        errors,
    );
}

// Prints how many lines were kept, changed and left out, and why.
fn tell_counts<E: Write>(counts: &LineCounts, errors: &mut E)
    requires { total counts.now < 2 ^ 64 }
{
    let kept = counts.kept;
    let changed = counts.changed();
    let left = counts.left();
    let _ = writeln!(
        errors,
        "import: {kept} lines kept, {changed} changed, {left} left out"
    );
    tell_changed(counts, errors);
    tell_left(counts, errors);
}

// Prints a process, the program that it began last, if that is known, and how much it asks for.
fn tell_process<E: Write>(process: Process, program: &[u8], errors: &mut E) {
    let number = process.number;
    let requests = process.requests;
    let _ = write!(errors, "process {number}");
    if !program.is_empty() {
        let _ = errors.write_all(b" (");
        let _ = errors.write_all(program);
        let _ = errors.write_all(b")");
    }
    let _ = write!(errors, ": {requests} requests");
}

// The program with this index, nothing where it isn't known.
fn program_at(programs: &[ProgramFile], at: usize) -> &[u8] {
    match programs.get(at) {
        Some(program) => program.name.as_slice(),
        None => b"",
    }
}

// Prints the processes of a log.
fn tell_processes<E: Write>(report: &Report, errors: &mut E) {
    for (at, process) in report.processes.iter().enumerate() {
        let _ = errors.write_all(b"  ");
        tell_process(*process, program_at(report.programs.as_slice(), at), errors);
        let _ = errors.write_all(b"\n");
    }
}

// Prints what came of a log for one process.
fn tell_part<E: Write>(part: &ProcessTrace, errors: &mut E)
    requires { total part.now.counts < 2 ^ 64 }
{
    let number = part.process.number;
    tell_process(part.process, part.program.name.as_slice(), errors);
    match part.ending {
        Ending::Written => {
            let _ = writeln!(errors, ", {number}.trace");
        }
        Ending::Nothing | Ending::Absent => {
            let _ = writeln!(errors, ", no trace");
        }
        Ending::Refused(refusal) => {
            let _ = writeln!(errors, ", no trace");
            tell_refusal(part.process.number, refusal, errors);
        }
    }
    tell_counts(&part.counts, errors);
}

// Prints what came of a log for each of its processes.
fn tell_parts<E: Write>(parts: &[ProcessTrace], errors: &mut E)
    requires { All (λ p. total p.counts < 2 ^ 64) parts.now }
{
    let count = parts.len();
    let _ = writeln!(errors, "import: {count} processes");
    let mut at = 0;
    'parts: while at < parts.len() {
        tell_part(&parts[at], errors);
        at += 1;
    }
}

// Says which process was taken, where nobody chose one of several.
fn tell_taken<E: Write>(report: &Report, choice: Choice, errors: &mut E) {
    if choice.thread.is_some() || report.processes.len() < 2 {
        return;
    }
    let count = report.processes.len();
    let process = report.process;
    let _ = writeln!(
        errors,
        "import: {count} processes; {process} is taken, which has the most requests (--pid N takes another)"
    );
    tell_processes(report, errors);
}

// What a line looks like that isn't read.
fn likeness(line: &[u8]) -> Option<&'static str> {
    match looks_of(line) {
        Looks::Lackey => Some("it looks like a log of valgrind's lackey: give --lackey"),
        Looks::Trace => Some("it looks like a trace, which needs no import"),
        Looks::Bytes => Some("it isn't text"),
        Looks::Other => None,
    }
}

// Says that nothing was kept, shows the first line that isn't read, and what was expected.
fn tell_nothing<E: Write>(report: &Report, errors: &mut E) {
    let _ = writeln!(errors, "radixvm: nothing was kept");
    if report.unread.is_empty() {
        return;
    }
    let line = report.unread.as_slice();
    let _ = writeln!(errors, "  the first line that isn't read:");
    show_line(line, errors);
    if let Some(what) = likeness(line) {
        let _ = writeln!(errors, "  {what}");
    }
    expect(
        "mmap(NULL, 4096, PROT_READ, MAP_PRIVATE|MAP_ANONYMOUS, -1, 0) = 0x7f0000000000",
        errors,
    );
}

// Says that no line is about the thread, and which processes there are.
fn tell_absent<E: Write>(report: &Report, choice: Choice, errors: &mut E) {
    let thread = choice.thread.unwrap_or(0);
    let _ = writeln!(errors, "radixvm: no line is about thread {thread}");
    tell_processes(report, errors);
}

// Says why a log is refused of which this process would be imported.
fn tell_refusal<E: Write>(process: u64, refusal: Refusal, errors: &mut E) {
    let _ = match refusal {
        Refusal::Unstarted => writeln!(
            errors,
            "radixvm: the log doesn't say what was mapped when process {process} began: record execve, clone, clone3, fork and vfork too; give --maps FILE, or --from-empty"
        ),
        Refusal::Stray(number) => writeln!(
            errors,
            "radixvm: no line says how {number} began, a process or a thread: record execve, clone, clone3, fork and vfork too; or give --one-process, or --from-empty"
        ),
        Refusal::Torn => writeln!(
            errors,
            "radixvm: a call's beginning has no end, or its end no beginning: strace -z and -Z write calls out of order, so record without them"
        ),
        Refusal::Unfollowed => writeln!(
            errors,
            "radixvm: the calls of threads that process {process} made aren't in the log: record with strace -f -o FILE"
        ),
        Refusal::Unnumbered => writeln!(
            errors,
            "radixvm: it can't be told whose lines these are that have no number: record with strace -f -o FILE"
        ),
        Refusal::Broken => writeln!(
            errors,
            "radixvm: a message of strace's stands within a line: record with strace -f -o FILE"
        ),
        Refusal::Untimed => writeln!(
            errors,
            "radixvm: several files, and some call has no times: record with strace -ff -ttt -T -o FILE"
        ),
    };
}

// Says why the log is refused, and which processes there are.
fn tell_refused<E: Write>(report: &Report, refusal: Refusal, errors: &mut E) {
    tell_refusal(report.process, refusal, errors);
    if report.processes.len() > 1 {
        tell_processes(report, errors);
    }
}

// Prints what is said about an import.
fn tell_report<E: Write>(report: &Report, choice: Choice, errors: &mut E)
    requires { total report.now.counts < 2 ^ 64 }
{
    match report.ending {
        Ending::Written => tell_taken(report, choice, errors),
        Ending::Nothing => {
            tell_nothing(report, errors);
            tell_taken(report, choice, errors);
        }
        Ending::Absent => {
            tell_absent(report, choice, errors);
            return;
        }
        Ending::Refused(refusal) => {
            tell_refused(report, refusal, errors);
            return;
        }
    }
    tell_counts(&report.counts, errors);
}

// Prints what is told of an import of a log of lackey.
fn tell_accesses<E: Write>(told: &LackeyReport, errors: &mut E)
    requires { total told.now.counts < 2 ^ 64 }
{
    match told.ending {
        Ending::Nothing => {
            let _ = writeln!(errors, "radixvm: nothing was kept");
        }
        Ending::Written | Ending::Absent | Ending::Refused(_) => {}
    }
    tell_counts(&told.counts, errors);
}

// The status of an import that ended so: 2 where there is no trace.
fn status_of(ending: Ending) -> u8
    ensures { result ≡ ending_status ending }
{
    match ending {
        Ending::Written => 0,
        Ending::Nothing => 2,
        Ending::Absent => 2,
        Ending::Refused(_) => 2,
    }
}

// The status of an import of each process: 2 where none has a trace.
fn status_of_parts(parts: &[ProcessTrace]) -> u8
    ensures status { result ≡ parts_status parts.now }
    ensures below { result ≤ 2 }
{
    let mut at = 0;
    'parts: while at < parts.len() {
        if status_of(parts[at].ending) == 0 {
            return 0;
        }
        at += 1;
    }
    2
}

// How an import ends with this fault.
fn ended_by(fault: IoFault) -> Ended
    ensures { result.status ≡ 3 }
{
    let fault = match fault {
        IoFault::ReadFailed => TraceFault::ReadFailed,
        IoFault::NoMemory => TraceFault::NoMemory,
        IoFault::WriteFailed => TraceFault::WriteFailed,
    };
    Ended {
        status: 3,
        trouble: Trouble::Fault(fault),
    }
}

/// Makes a trace of a list of mappings and of a log of strace, of the process that is chosen, prints what became of the lines of
/// both on `errors`, and answers how that ended: with 0; 2 where there is no trace, since no request
/// would be in it, no line is about the thread that was named, or the log is refused; or 3 for a fault. Where that is wanted, `errors` shows how far a
/// long import has come.
pub fn import<L: Source, S: Source, W: Sink, E: Write>(
    alloc: Global,
    list: &mut L,
    reader: &mut S,
    out: &mut W,
    errors: &mut E,
    choice: Choice,
    shows: bool,
) -> Ended
    ensures ends { ImportsLog choice (read_from L.Source list.old list.new)
        (read_from S.Source reader.old reader.new) (written_to W.Sink out.old out.new) result.status }
    ensures within { result.status ≤ 3 }
{
    let mut progress = Progress::new(errors, shows);
    let told = import_mapped(alloc, list, reader, out, choice, &mut progress);
    progress.clear();
    match told {
        Ok(told) => {
            tell_entries(&told.entries, errors);
            tell_report(&told.report, choice, errors);
            Ended {
                status: status_of(told.report.ending),
                trouble: Trouble::Nothing,
            }
        }
        Err(fault) => ended_by(fault),
    }
}

// Prints how many calls have their replies, and what judges them.
fn tell_replies<E: Write>(report: &RepliesReport, errors: &mut E) {
    let calls = report.calls;
    let judge = match report.clock {
        ReplyClock::Times | ReplyClock::Lines => "audit --overlapping",
        ReplyClock::Order => "audit",
    };
    let _ = writeln!(
        errors,
        "import: {calls} calls with their replies, for {judge}"
    );
}

// Prints what is said about the replies of a log.
fn tell_replied<E: Write>(report: &RepliesReport, choice: Choice, errors: &mut E)
    requires entries { entries_total report.now.told.entries < 2 ^ 64 }
    requires lines { total report.now.told.report.counts < 2 ^ 64 }
{
    tell_entries(&report.told.entries, errors);
    if let Ending::Written = report.told.report.ending {
        tell_replies(report, errors);
    }
    tell_report(&report.told.report, choice, errors);
}

/// Writes the calls of the chosen process of a log of strace, of one file or of several, with their replies, behind the mappings of a
/// list; prints what became of the lines of both on `errors`, and answers how that ended: with 0; 2 where
/// nothing is written, as for `import`, or since a line is broken by a message of strace's, or some call of several files has no times;
/// or 3 for a fault. Where that is wanted, `errors` shows how far a long import has come.
pub fn import_calls<L: Source, S: Source, W: Sink, E: Write>(
    alloc: Global,
    list: &mut L,
    reader: &mut S,
    out: &mut W,
    errors: &mut E,
    choice: Choice,
    several: bool,
    shows: bool,
) -> Ended
    ensures ends { ImportsReplies choice several (read_from L.Source list.old list.new)
        (read_from S.Source reader.old reader.new) (written_to W.Sink out.old out.new) result.status }
    ensures within { result.status ≤ 3 }
{
    let mut progress = Progress::new(errors, shows);
    let told = import_replies(alloc, list, reader, out, choice, several, &mut progress);
    progress.clear();
    match told {
        Ok(report) => {
            tell_replied(&report, choice, errors);
            Ended {
                status: status_of(report.told.report.ending),
                trouble: Trouble::Nothing,
            }
        }
        Err(fault) => ended_by(fault),
    }
}

/// Makes a trace of each process of a log of strace, prints what became of the log's lines for each on `errors`, and answers how
/// that ended: with 0; 2 where no process has a trace; or 3 for a fault, at which there are no
/// traces. Where that is wanted, `errors` shows how far a long import has come.
pub fn import_each<S: Source, E: Write>(
    alloc: Global,
    reader: &mut S,
    errors: &mut E,
    parts: &mut Vec<ProcessTrace>,
    shows: bool,
) -> Ended
    ensures ends { ImportsEach (read_from S.Source reader.old reader.new) result.status }
    ensures parts { result.status ≢ 3 → Reads (S.stream reader.old) (S.stream reader.new) (λ input unread.
        map parted parts.new.items ≡ parts_of nothing_taken input) }
    ensures none { result.status ≡ 3 → parts.new ≡ parts.old }
    ensures within { result.status ≤ 3 }
{
    let mut progress = Progress::new(errors, shows);
    let told = import_log_each(alloc, reader, &mut progress);
    progress.clear();
    match told {
        Ok(found) => {
            tell_parts(found.as_slice(), errors);
            let status = status_of_parts(found.as_slice());
            *parts = found;
            Ended {
                status,
                trouble: Trouble::Nothing,
            }
        }
        Err(fault) => ended_by(fault),
    }
}

/// Makes a trace of a log of lackey, prints how many of its lines became what on `errors`, and answers how
/// that ended: with 0; 2 where there is no trace, since no request would be in it; or 3 for a
/// fault.
pub fn import_accesses<S: Source, W: Sink, E: Write>(
    alloc: Global,
    reader: &mut S,
    out: &mut W,
    errors: &mut E,
) -> Ended
    ensures ends { ImportsAccesses
        (read_from S.Source reader.old reader.new) (written_to W.Sink out.old out.new) result.status }
    ensures within { result.status ≤ 3 }
{
    match trace_log(alloc, reader, out) {
        Ok(told) => {
            tell_accesses(&told, errors);
            Ended {
                status: status_of(told.ending),
                trouble: Trouble::Nothing,
            }
        }
        Err(fault) => ended_by(fault),
    }
}
