//! What the command `litmus` does.
ghost use Rattle.std.specs.Prelude.{◌≡◌, ◌≤◌, ◌⊎◌, true};
ghost use Rattle.trace_io.specs.Io.{read_from, written_to};
ghost use Rattle.word_runs.specs.Litmus.{TellsBeside, TellsTest, TestEnds, litmus_status, told_status};

use litmus::{LitmusAsk, LiveTestFault, TestFault};
use litmus_text::LitmusFault;
use std::alloc::Global;
use std::io::Write;
use std::sync::Wait;
use std::thread::Threads;
use trace_io::IoFault;
use trace_io::sink::{Sink, write_out};
use trace_io::source::{Source, read_all};
use word_parts::keeping::KeptText;
use word_parts::pointing::Report;

/// What is asked for of a litmus test.
#[derive(Clone, Copy)]
pub struct Test {
    /// What is written of it.
    pub wanted: LitmusAsk,
    /// How many points of orders are looked at, at most.
    pub limit: u64,
}

/// How the word ended: with this status of the program, and, where nothing is told of the test, for this fault.
#[derive(Clone, Copy)]
pub struct TestEnded {
    /// The program's status.
    pub status: u8,
    /// Why nothing is told of the test.
    pub fault: Option<TestFault>,
}

/// The name of a test, by that of its file: without folder and ending. Of standard input it is `litmus`.
pub fn test_name(file: Option<&str>) -> &str {
    let Some(path) = file else {
        return "litmus";
    };
    if path == "-" {
        return "litmus";
    }
    let name = match path.rsplit_once('/') {
        Some((_, name)) => name,
        None => path,
    };
    match name.rsplit_once('.') {
        Some((front, _)) if !front.is_empty() => front,
        _ => name,
    }
}

/// How the command ends where nothing is told of a test: with 2 where the text is at fault, 3 where the system is.
pub fn refuse(fault: TestFault) -> TestEnded
    ensures status { result.status ≡ litmus_status fault }
    ensures within { result.status ≤ 3 }
{
    let status = match fault {
        TestFault::Live(LiveTestFault::NotCertified) => 1,
        TestFault::Text(LitmusFault::Io(_)) | TestFault::Live(_) => 3,
        _ => 2,
    };
    TestEnded {
        status,
        fault: Some(fault),
    }
}

// Says that runs on threads gave an outcome that isn't listed, where they did.
fn tell_outside<E: Write>(wanted: LitmusAsk, status: u8, errors: &mut E) {
    if status == 1
        && let LitmusAsk::Live(_) = wanted
    {
        let _ = writeln!(
            errors,
            "radixvm: an outcome isn't listed, which is an error of radixvm"
        );
    }
}

// The program's status for that of what is told: 4 where a clause is open, or the limit was met.
fn status_told(status: u8) -> u8
    ensures value { result ≡ told_status status }
    ensures within { result ≤ 4 }
{
    if status == 0 {
        0
    } else if status == 1 {
        1
    } else {
        4
    }
}

// Tells of the test with this name and text, beside these counts.
fn tell_test<T: Threads + Wait + Sync, W: Sink, E: Write>(
    rt: &T,
    alloc: Global,
    name: &str,
    counts: &[u8],
    text: &[u8],
    out: &mut W,
    errors: &mut E,
    test: Test,
) -> TestEnded
    ensures ends { TestEnds test counts.now text.now (W.contents out.old) (W.contents out.new) result.status
        ⊎ ((result.status ≡ 3) × (W.failed out.new ≡ true)) }
    ensures within { result.status ≤ 4 }
{
    let told = match litmus::tell(
        rt,
        &alloc,
        name.as_bytes(),
        text,
        counts,
        test.wanted,
        test.limit as usize,
    ) {
        Ok(told) => told,
        Err(fault) => return refuse(fault),
    };
    tell_outside(test.wanted, told.status, errors);
    match write_out(out, told.text.as_slice()) {
        Ok(()) => TestEnded {
            status: status_told(told.status),
            fault: None,
        },
        Err(_) => refuse(TestFault::Text(LitmusFault::Io(IoFault::WriteFailed))),
    }
}

// Tells of the test that is read, beside these counts.
fn litmus_beside<T: Threads + Wait + Sync, S: Source, W: Sink, E: Write>(
    rt: &T,
    alloc: Global,
    name: &str,
    counts: &[u8],
    reader: &mut S,
    out: &mut W,
    errors: &mut E,
    test: Test,
) -> TestEnded
    ensures ends { TellsBeside test counts.now (read_from S.Source reader.old reader.new) (written_to W.Sink out.old out.new) result.status }
    ensures within { result.status ≤ 4 }
{
    match read_all(alloc, reader) {
        Ok(text) => tell_test(rt, alloc, name, counts, text.as_slice(), out, errors, test),
        Err(fault) => refuse(TestFault::Text(LitmusFault::Io(fault))),
    }
}

/// Lists the outcomes of a litmus test with this name, or what else is asked for, and answers how that ended: with 0 where all clauses hold,
/// 1 where one fails, 4 where one is open or the limit was met, or the status of an error. Of the counts that the list names, or of runs on
/// threads: 1 where the outcome of one isn't listed, but 4 where not all outcomes are known.
pub fn litmus<T: Threads + Wait + Sync, L: Source, S: Source, W: Sink, E: Write>(
    rt: &T,
    alloc: Global,
    name: &str,
    list: &mut L,
    reader: &mut S,
    out: &mut W,
    errors: &mut E,
    test: Test,
) -> TestEnded
    ensures does { TellsTest test (read_from L.Source list.old list.new) (read_from S.Source reader.old reader.new)
        (written_to W.Sink out.old out.new) result.status }
    ensures within { result.status ≤ 4 }
{
    match read_all(alloc, list) {
        Ok(counts) => litmus_beside(
            rt,
            alloc,
            name,
            counts.as_slice(),
            reader,
            out,
            errors,
            test,
        ),
        Err(fault) => refuse(TestFault::Text(LitmusFault::Io(fault))),
    }
}

// Shows the line with this number.
fn show_number<E: Write>(number: u64, kept: &KeptText, report: &mut Report<'_, E>) {
    if let Some(line) = kept.line(number) {
        report.show(line);
    }
}

// Says what is known of an error of the text.
fn explain_text<E: Write>(fault: LitmusFault, kept: &KeptText, report: &mut Report<'_, E>) {
    match fault {
        LitmusFault::BadLine(number) => {
            show_number(number, kept, report);
            report.expect(
                "an event in the opening; after together cC! REQ, final ADDR, final maps or a clause",
            );
            report.tell("for example never c1.1 = segv maperr and c1.2 = 2");
        }
        LitmusFault::TooLong(_) => report.expect("at most 256 bytes in a line"),
        LitmusFault::Placed(number) => {
            show_number(number, kept, report);
            report.expect(
                "an mmap at a place that it names, with the flag f: one without it may get many places",
            );
        }
        LitmusFault::NoCall(number) => {
            show_number(number, kept, report);
            report.expect(
                "cC.N with a core C that has N calls or more after together, counted from 1",
            );
        }
        LitmusFault::NoFinal(number) => {
            show_number(number, kept, report);
            report.expect("a line final ADDR for each address of a clause");
        }
        LitmusFault::NoCalls => report.expect("a line cC! REQ after together"),
        LitmusFault::NoVmLine => report.expect("vm CORES FRAMES in front, for example vm 2 16"),
        LitmusFault::Setup(_) | LitmusFault::Io(_) => {}
    }
}

/// Says what is known of an error and its place: its line, and what was expected.
pub fn explain_litmus<E: Write>(fault: TestFault, kept: &KeptText, report: &mut Report<'_, E>) {
    match fault {
        TestFault::Text(fault) => explain_text(fault, kept, report),
        TestFault::Open(_) => report.expect(
            "an opening in which each call is answered: cC finish goes on with one that waits",
        ),
        TestFault::NoOutcome(_) => report.expect(
            "a number of an outcome, from 1, as litmus lists them",
        ),
        TestFault::NoWitness(_) => report.expect("an outcome that isn't (open)"),
        TestFault::NoCall => report.expect(
            "whole calls cC! REQ, flushes and reviews in the opening",
        ),
        TestFault::NoMaps => report.expect("a test without final maps"),
        TestFault::NoTask => report.expect(
            "whole calls cC! REQ, flushes and reviews in the opening",
        ),
        TestFault::Live(LiveTestFault::NotPlain) => report.expect("more frames in the vm line"),
        TestFault::Live(_) => {}
        TestFault::BadCount(_) => {
            report.expect("COUNT: OUTCOME, an empty line, or a comment");
            report.tell("for example 12: c0 done; c1 1, 2");
        }
    }
}
