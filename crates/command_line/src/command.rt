//! The words of the command line, and what each does.
ghost use Rattle.std.specs.Prelude.{◌≡◌, ◌≢◌, ◌⊎◌, ◌≤◌, IsSome, map};
ghost use Rattle.command_line.specs.Done.{Answers, Comes, Did, IsDone, IsLost, IsSilent, Lists, Saves, named};
ghost use Rattle.command_line.specs.Words.{DoesWork};
ghost use Rattle.import_log.specs.Each.{parted, parts_of};
ghost use Rattle.import_steps.specs.Taking.{nothing_taken};
ghost use Rattle.word_runs.specs.Litmus.{TellsTest};
ghost use Rattle.word_runs.specs.Witness.{PicturesWitness};
ghost use Rattle.trace_io.specs.Io.{read_from, written_to};
ghost use Rattle.trace_io.specs.Source.{Reads};

use crate::asks::{Asks, asks_of, greet, name_told};
use crate::errors::tell_end;
use crate::output::{Output, status_seen};
use crate::saving::{gathered, refuse_file, save_order, save_output, save_traces};
use crate::telling::tell;
pub use crate::telling::{WordsFault, refuse_words};
use crate::terminals::Terminals;
use import_log::each::ProcessTrace;
use litmus::TestFault;
use live_script::Runner;
use radix_range::RadixMap;
use slot_lock::SlotMap;
use std::alloc::{Allocator, Global};
use std::env::{Env, FillError};
use std::io::{Read, Write};
use std::sync::Wait;
use std::thread::Threads;
use std::{env, io};
use trace_io::sink::Sink;
use trace_io::source::{Counted, Source};
use word_audit::auditing::{audit, audit_each, audit_overlapping};
use word_audit::obeying::audit_by_kernel;
use word_grammar::{Command, Work, parse};
use word_import::importing::{import, import_accesses, import_calls, import_each};
use word_parts::asked::WitnessPicture;
use word_parts::ended::{Ended, Trouble};
use word_parts::held::Held;
use word_parts::input::{Files, input, list};
use word_parts::keeping::{Keeping, Keeps};
use word_pictures::picturing::picture;
use word_runs::certifying::certify;
use word_runs::job::{run, run_echoing};
use word_runs::litmus_tests::{Test, litmus, test_name};
use word_runs::live::{certify_live, live, live_history, share_live};
use word_runs::witnessing::picture_witness;

// What a word gives beside what it writes.
#[derive(Drop)]
struct Aside {
    // The order that an audit found.
    order: Vec<u8>,
    // The traces of processes.
    parts: Vec<ProcessTrace>,
    // Why nothing is told of a litmus test.
    fault: Option<TestFault>,
}

impl Aside {
    // Nothing yet.
    fn new(alloc: Global) -> Aside {
        Aside {
            order: Vec::new(alloc),
            parts: Vec::new(alloc),
            fault: None,
        }
    }
}

// What more can be told of where nothing is told of a litmus test, for a fault.
fn trouble_of(fault: Option<TestFault>) -> Trouble {
    match fault {
        Some(_) => Trouble::Litmus,
        None => Trouble::Nothing,
    }
}

// Tells of the litmus test of this file.
fn tell_test<T: Threads + Wait + Sync, L: Source, S: Source, W: Sink, E: Write>(
    rt: &T,
    alloc: Global,
    file: Option<&str>,
    list: &mut L,
    reader: &mut S,
    out: &mut W,
    errors: &mut E,
    aside: &mut Aside,
    test: Test,
) -> Ended
    ensures does { TellsTest test (read_from L.Source list.old list.new) (read_from S.Source reader.old reader.new)
        (written_to W.Sink out.old out.new) result.status }
    ensures within { result.status ≤ 4 }
{
    let ended = litmus(rt, alloc, test_name(file), list, reader, out, errors, test);
    aside.fault = ended.fault;
    Ended {
        status: ended.status,
        trouble: trouble_of(ended.fault),
    }
}

// Pictures a witness of the litmus test of this file.
fn draw_witness<S: Source, W: Sink, E: Write>(
    alloc: Global,
    file: Option<&str>,
    reader: &mut S,
    out: &mut W,
    errors: &mut E,
    aside: &mut Aside,
    asked: WitnessPicture,
) -> Ended
    ensures does { PicturesWitness asked
        (read_from S.Source reader.old reader.new) (written_to W.Sink out.old out.new) result.status }
    ensures within { result.status ≤ 4 }
{
    let ended = picture_witness(alloc, test_name(file), reader, out, errors, asked);
    aside.fault = ended.fault;
    Ended {
        status: ended.status,
        trouble: trouble_of(ended.fault),
    }
}

// Does what a task asks for, and answers its status, and what more can be told of. Long work may show how far it has
// come.
fn act<T: Threads + Wait + Sync, R: Runner<Global>, L: Source, S: Source, W: Sink, E: Write>(
    rt: &T,
    runner: &R,
    alloc: Global,
    task: Command<'_>,
    list: &mut L,
    reader: &mut S,
    out: &mut W,
    errors: &mut E,
    aside: &mut Aside,
    shows: bool,
) -> Ended
    ensures does { DoesWork Global
        ⟦<RadixMap<Global> as SlotMap>⟧.parts ⟦<RadixMap<Global> as SlotMap>⟧.can_fold
        ⟦<RadixMap<Global> as SlotMap>⟧.folds task.entry.work
        (read_from L.Source list.old list.new) (read_from S.Source reader.old reader.new)
        (written_to W.Sink out.old out.new) result.status }
    ensures parts { task.entry.work ≡ Work.ImportEach → result.status ≢ 3
        → Reads (S.stream reader.old) (S.stream reader.new) (λ input unread.
        map parted aside.new.parts.items ≡ parts_of nothing_taken input) }
    ensures within { result.status ≤ 5 }
{
    match task.work {
        Work::Replay(shows) => run(alloc, reader, out, errors, shows),
        Work::Echo {
            limit,
            coloured,
            logs,
        } => run_echoing(alloc, reader, out, limit, coloured, logs),
        Work::Certify => certify(alloc, reader, out),
        Work::Live { sums } => live(rt, runner, alloc, reader, out, errors, sums),
        Work::CertifyLive { sums } => { certify_live(rt, runner, alloc, reader, out, errors, sums) }
        Work::LiveHistory { sums } => { live_history(rt, runner, alloc, reader, out, errors, sums) }
        Work::ShareLive => share_live(rt, alloc, reader, out, errors),
        Work::Import(choice) => import(alloc, list, reader, out, errors, choice, shows),
        Work::ImportReplies { choice, several } => {
            import_calls(alloc, list, reader, out, errors, choice, several, shows)
        }
        Work::ImportEach => import_each(alloc, reader, errors, &mut aside.parts, shows),
        Work::ImportAccesses => import_accesses(alloc, reader, out, errors),
        Work::Audit(terms) => audit(alloc, reader, out, terms),
        Work::AuditAll(terms) => audit_each(alloc, reader, out, terms),
        Work::Overlapping { overlaps, is_alone } => audit_overlapping(
            alloc,
            list,
            reader,
            out,
            overlaps,
            is_alone,
            &mut aside.order,
        ),
        Work::ByKernel { any_place, moving } => {
            audit_by_kernel(alloc, reader, out, any_place, moving)
        }
        Work::Picture(drawing) => picture(alloc, reader, out, errors, drawing),
        Work::Litmus { wanted, limit } => {
            let test = Test { wanted, limit };
            tell_test(rt, alloc, task.file, list, reader, out, errors, aside, test)
        }
        Work::PictureWitness(asked) => {
            draw_witness(alloc, task.file, reader, out, errors, aside, asked)
        }
    }
}

// Does a task on this list and this text, saves what it asks for in files, and answers the status.
fn perform_over<
    L: Read,
    I: Read,
    F: Files,
    T: Threads + Wait + Sync,
    R: Runner<Global>,
    W: Output,
    E: Write,
>(
    alloc: Global,
    task: Command<'_>,
    asks: Asks<'_>,
    host: (&F, &T, &R),
    list: &mut Counted<Keeping<L>>,
    reader: &mut Counted<Keeping<I>>,
    out: &mut W,
    errors: &mut E,
    shows: bool,
) -> u8
    requires order { asks.order ≡ task.order }
    requires folder { asks.folder ≡ task.folder }
    ensures { Did (DoesWork Global
        ⟦<RadixMap<Global> as SlotMap>⟧.parts ⟦<RadixMap<Global> as SlotMap>⟧.can_fold
        ⟦<RadixMap<Global> as SlotMap>⟧.folds task.entry.work) (F.saved host.entry.0.now) task.entry
        (read_from ⟦<Counted<Keeping<L>> as Source>⟧ list.old list.new)
        (read_from ⟦<Counted<Keeping<I>> as Source>⟧ reader.old reader.new)
        (written_to W.Sink out.old out.new) result }
{
    let (files, rt, runner) = host;
    let mut aside = Aside::new(alloc);
    let ended = act(
        rt, runner, alloc, task, list, reader, out, errors, &mut aside, shows,
    );
    tell_end(
        alloc,
        asks,
        ended.trouble,
        aside.fault,
        &list.reader,
        &reader.reader,
        out,
        errors,
    );
    let status = status_seen(ended.status, out);
    let status = save_order(files, asks, aside.order.as_slice(), status, errors);
    save_traces(files, alloc, asks, aside.parts.as_slice(), status, errors)
}

// Does a task on this list and this text, of which nothing was read yet, and answers the status.
fn perform_on<
    L: Read + Drop,
    I: Read + Drop,
    F: Files,
    T: Threads + Wait + Sync,
    R: Runner<Global>,
    W: Output,
    E: Write,
>(
    alloc: Global,
    task: Command<'_>,
    asks: Asks<'_>,
    host: (&F, &T, &R),
    list: L,
    input: I,
    out: &mut W,
    errors: &mut E,
    terminals: Terminals,
) -> u8
    requires order { asks.order ≡ task.order }
    requires folder { asks.folder ≡ task.folder }
    ensures does { IsDone (DoesWork Global
        ⟦<RadixMap<Global> as SlotMap>⟧.parts ⟦<RadixMap<Global> as SlotMap>⟧.can_fold
        ⟦<RadixMap<Global> as SlotMap>⟧.folds task.entry.work)
        (λ coming. coming ≡ L.remaining list) (λ coming. coming ≡ I.remaining input)
        (F.saved host.entry.0.now) task.entry (written_to W.Sink out.old out.new) result }
{
    greet(asks, terminals, errors);
    let mut list = Counted::new(Keeping::new(alloc, list, Keeps::Nothing));
    let mut reader = Counted::new(Keeping::new(alloc, input, asks.keeps));
    perform_over(
        alloc,
        task,
        asks,
        host,
        &mut list,
        &mut reader,
        out,
        errors,
        terminals.errors,
    )
}

// Does a task on this text and the list that its words name, and answers the status.
fn perform_listed<
    I: Read + Drop,
    F: Files,
    T: Threads + Wait + Sync,
    R: Runner<Global>,
    W: Output,
    E: Write,
>(
    alloc: Global,
    task: Command<'_>,
    asks: Asks<'_>,
    host: (&F, &T, &R),
    input: I,
    out: &mut W,
    errors: &mut E,
    terminals: Terminals,
) -> u8
    requires order { asks.order ≡ task.order }
    requires folder { asks.folder ≡ task.folder }
    ensures does { IsDone (DoesWork Global
        ⟦<RadixMap<Global> as SlotMap>⟧.parts ⟦<RadixMap<Global> as SlotMap>⟧.can_fold
        ⟦<RadixMap<Global> as SlotMap>⟧.folds task.entry.work)
        (Lists F.Open.remaining (λ path file. F.opens host.entry.0.now path file) (named task.entry.maps))
        (λ coming. coming ≡ I.remaining input) (F.saved host.entry.0.now) task.entry
        (written_to W.Sink out.old out.new) result
        ⊎ ((result ≡ 3) × IsSilent (written_to W.Sink out.old out.new) × IsSome task.entry.maps) }
{
    match list(host.0, task.maps) {
        Ok(list) => perform_on(alloc, task, asks, host, list, input, out, errors, terminals),
        Err(error) => {
            drop(input);
            refuse_file(task.maps.unwrap_or("-"), Some(error.kind()), errors)
        }
    }
}

// Does a task on the one text that its words name, and answers the status.
fn perform_named<
    I: Read + Drop,
    F: Files,
    T: Threads + Wait + Sync,
    R: Runner<Global>,
    W: Output,
    E: Write,
>(
    alloc: Global,
    task: Command<'_>,
    asks: Asks<'_>,
    names: &[&str],
    host: (&F, &T, &R),
    standard: I,
    out: &mut W,
    errors: &mut E,
    terminals: Terminals,
) -> u8
    requires order { asks.order ≡ task.order }
    requires folder { asks.folder ≡ task.folder }
    ensures does { IsDone (DoesWork Global
        ⟦<RadixMap<Global> as SlotMap>⟧.parts ⟦<RadixMap<Global> as SlotMap>⟧.can_fold
        ⟦<RadixMap<Global> as SlotMap>⟧.folds task.entry.work)
        (Lists F.Open.remaining (λ path file. F.opens host.entry.0.now path file) (named task.entry.maps))
        (Comes I.remaining F.Open.remaining standard (λ path file. F.opens host.entry.0.now path file)
        (named task.entry.file) names.now) (F.saved host.entry.0.now) task.entry
        (written_to W.Sink out.old out.new) result
        ⊎ IsLost task.entry names.now (written_to W.Sink out.old out.new) result }
{
    match input(host.0, standard, task.file) {
        Ok(input) => perform_listed(alloc, task, asks, host, input, out, errors, terminals),
        Err(error) => refuse_file(name_told(task.file), Some(error.kind()), errors),
    }
}

// Does a task, on the text that its words name, and answers the status.
fn perform<
    I: Read + Drop,
    F: Files,
    T: Threads + Wait + Sync,
    R: Runner<Global>,
    W: Output,
    E: Write,
>(
    alloc: Global,
    task: Command<'_>,
    names: &[&str],
    host: (&F, &T, &R),
    standard: I,
    out: &mut W,
    errors: &mut E,
    at: (Terminals, bool),
) -> u8
    ensures does { IsDone (DoesWork Global
        ⟦<RadixMap<Global> as SlotMap>⟧.parts ⟦<RadixMap<Global> as SlotMap>⟧.can_fold
        ⟦<RadixMap<Global> as SlotMap>⟧.folds task.entry.work)
        (Lists F.Open.remaining (λ path file. F.opens host.entry.0.now path file) (named task.entry.maps))
        (Comes I.remaining F.Open.remaining standard (λ path file. F.opens host.entry.0.now path file)
        (named task.entry.file) names.now) (F.saved host.entry.0.now) task.entry
        (written_to W.Sink out.old out.new) result
        ⊎ IsLost task.entry names.now (written_to W.Sink out.old out.new) result }
{
    let (terminals, coloured) = at;
    let asks = asks_of(task, task.colours.unwrap_or(coloured && terminals.errors));
    match gathered(host.0, alloc, task.work, names, errors) {
        Ok(None) => perform_named(
            alloc, task, asks, names, host, standard, out, errors, terminals,
        ),
        Ok(Some(text)) => {
            drop(standard);
            perform_listed(
                alloc,
                task,
                asks,
                host,
                text.as_slice(),
                out,
                errors,
                terminals,
            )
        }
        Err(status) => {
            drop(standard);
            status
        }
    }
}

// Does a task whose output goes to the file with this name, and answers the status.
fn perform_saving<I: Read + Drop, F: Files, T: Threads + Wait + Sync, R: Runner<Global>, E: Write>(
    alloc: Global,
    task: Command<'_>,
    name: &str,
    names: &[&str],
    host: (&F, &T, &R),
    standard: I,
    errors: &mut E,
    at: (Terminals, bool),
) -> u8
    ensures does { Saves (λ out n. IsDone (DoesWork Global
        ⟦<RadixMap<Global> as SlotMap>⟧.parts ⟦<RadixMap<Global> as SlotMap>⟧.can_fold
        ⟦<RadixMap<Global> as SlotMap>⟧.folds task.entry.work)
        (Lists F.Open.remaining (λ path file. F.opens host.entry.0.now path file) (named task.entry.maps))
        (Comes I.remaining F.Open.remaining standard (λ path file. F.opens host.entry.0.now path file)
        (named task.entry.file) names.now) (F.saved host.entry.0.now) task.entry out n
        ⊎ IsLost task.entry names.now out n) (λ text. F.saved host.entry.0.now name.now text) result }
{
    let (files, _, _) = host;
    let mut held = Held::new(Vec::new(alloc));
    let status = perform(alloc, task, names, host, standard, &mut held, errors, at);
    save_output(files, name, held.bytes.as_slice(), status, errors)
}

/// Does what the words say, the program's name first, and answers the status: 0, yes; 1, no, as of notes that are
/// refused or a reply that is illegal; 2 for an error in the words or in the text; 3 where the system failed: reading,
/// writing, memory or a thread; 4, undecided; 5, no order, but legal by the rule that kernels keep; and 141 where the
/// reader of the output has gone. An error is printed on
/// `errors`, as `radixvm: NAME:LINE:COLUMN: ` and what it is, and below that the line and what was expected. The text
/// is what the named file gives, or `standard` where none is named, or `-`, and of several files that an import names
/// their lines in the order of their times. The host is where files are opened, what has threads, and how scripts are
/// run. At terminals colours are shown, where these are asked for.
pub fn command<
    A: Allocator,
    I: Read + Drop,
    F: Files,
    T: Threads + Wait + Sync,
    R: Runner<Global>,
    W: Output,
    E: Write,
>(
    alloc: Global,
    words: &[String<A>],
    host: (&F, &T, &R),
    standard: I,
    out: &mut W,
    errors: &mut E,
    at: (Terminals, bool),
) -> u8
    ensures does { Answers (λ work. DoesWork Global
        ⟦<RadixMap<Global> as SlotMap>⟧.parts ⟦<RadixMap<Global> as SlotMap>⟧.can_fold
        ⟦<RadixMap<Global> as SlotMap>⟧.folds work)
        (Lists F.Open.remaining (λ path file. F.opens host.entry.0.now path file))
        (Comes I.remaining F.Open.remaining standard (λ path file. F.opens host.entry.0.now path file))
        (F.saved host.entry.0.now) (written_to W.Sink out.old out.new) result }
{
    let (terminals, coloured) = at;
    let mut names = Vec::new(alloc);
    match parse(alloc, words, coloured && terminals.output, &mut names) {
        Ok(task) => match task.output {
            None => perform(
                alloc,
                task,
                names.as_slice(),
                host,
                standard,
                out,
                errors,
                at,
            ),
            Some(name) => perform_saving(
                alloc,
                task,
                name,
                names.as_slice(),
                host,
                standard,
                errors,
                at,
            ),
        },
        Err(told) => {
            drop(standard);
            tell(alloc, &told, out, errors)
        }
    }
}

// Whether the environment lets colours be shown: `NO_COLOR` isn't there, or empty.
fn lets_colours<V: Env>(environment: &V) -> bool {
    let mut first = [0u8; 1];
    matches!(
        environment.var("NO_COLOR", &mut first),
        Err(FillError::NotPresent) | Ok(0)
    )
}

/// Reads the program's words, and does what they say, as `command`.
pub fn program<
    V: Env + Drop,
    A: Allocator,
    I: Read + Drop,
    F: Files,
    T: Threads + Wait + Sync,
    R: Runner<Global>,
    W: Output,
    E: Write,
>(
    environment: V,
    for_words: &A,
    alloc: Global,
    host: (&F, &T, &R),
    standard: I,
    out: &mut W,
    errors: &mut E,
    terminals: Terminals,
) -> u8
    ensures does { Answers (λ work. DoesWork Global
        ⟦<RadixMap<Global> as SlotMap>⟧.parts ⟦<RadixMap<Global> as SlotMap>⟧.can_fold
        ⟦<RadixMap<Global> as SlotMap>⟧.folds work)
        (Lists F.Open.remaining (λ path file. F.opens host.entry.0.now path file))
        (Comes I.remaining F.Open.remaining standard (λ path file. F.opens host.entry.0.now path file))
        (F.saved host.entry.0.now) (written_to W.Sink out.old out.new) result
        ⊎ (IsSilent (written_to W.Sink out.old out.new) × ((result ≡ 2) ⊎ (result ≡ 3))) }
{
    let coloured = lets_colours(&environment);
    let arguments = match env::args(&(environment, for_words)) {
        Ok(arguments) => arguments,
        Err(error) if error.kind() == io::ErrorKind::OutOfMemory => {
            return refuse_words(WordsFault::NoMemory, errors);
        }
        Err(_) => return refuse_words(WordsFault::NotUtf8, errors),
    };
    let Ok(words) = arguments.collect::<Vec<String<&A>, &A>>(for_words) else {
        return refuse_words(WordsFault::NoMemory, errors);
    };
    command(
        alloc,
        &words,
        host,
        standard,
        out,
        errors,
        (terminals, coloured),
    )
}
