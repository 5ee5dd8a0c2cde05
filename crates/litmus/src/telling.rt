//! What is told of a litmus test.
ghost use Rattle.std.specs.Prelude.{◌≡◌, IfErr, IfOk};
ghost use Rattle.trace_io.specs.Lines.{lines_of};
ghost use Rattle.litmus_text.specs.Scripts.{read_of};
ghost use Rattle.litmus_report.specs.Reports.{AreSorted, texts_of};
ghost use Rattle.litmus.specs.Lacking.{frames_of};
ghost use Rattle.litmus.specs.Tells.{Fails, IsLate, IsUnshown, Lists, Reports, Shows, Tells, Witnesses, known_of, searched_by, status_at};
ghost use Rattle.litmus.specs.Asked.{FailsAs, TellsAs};
ghost use Rattle.litmus.specs.Kernels.{FailsObserved, FailsProgram, IsUncalled, IsUncounted, IsWant, Judges, MakesCalls, TellsObserved, TellsProgram};
ghost use Rattle.litmus.specs.Live.{CountsLive, FailsLive, IsUnrun, TellsLive};
ghost use Rattle.std.specs.declared.alloc.Global.{Global as GlobalOf};
ghost use Rattle.litmus.specs.declared.telling.Listing.TheVariants as ViewOf;

use crate::faults::{NO_MEMORY, TestFault, fault_by};
use crate::lacking::may_lack;
use crate::lists::list_text;
use crate::opening::{are_called, calls_of, loads_of, opening_of, tasks_of};
use crate::{TestRun, count_runs};
use litmus_outcomes::{LitmusOutcome, Outcomes, list_outcomes};
use litmus_report::{
    Named, Program, Row, Searched, bad_count, in_order, judge_counts, program_of, report,
    status_of, trace_of,
};
use litmus_text::{LitmusFault, LitmusTest, read_litmus};
use std::alloc::{Allocator, Global};
use std::sync::Wait;
use std::thread::Threads;
use vm_base::NoMemory;

/// What is written of a litmus test.
#[derive(Clone, Copy)]
pub enum Listing {
    /// Its outcomes, and what its clauses come to.
    Report,
    /// The outcomes, one in a line, divided by tabs.
    List,
    /// A trace that is a witness of the outcome with this number, from 1.
    Witness(u64),
}

/// What is asked for of a litmus test.
#[derive(Clone, Copy)]
pub enum LitmusAsk {
    /// Its outcomes, or a witness of one.
    Outcomes(Listing),
    /// A program that makes its calls to a kernel, as C.
    Program,
    /// Whether the outcomes that another system gave are among its outcomes.
    Observed,
    /// How often each outcome comes in so many runs on threads.
    Live(u64),
}

/// What is written, and the status that tells what the clauses come to.
#[derive(Drop)]
pub struct Output<A: Allocator> {
    pub text: Vec<u8, A>,
    pub status: u8,
}

// The outcomes of a test.
fn outcomes_of<A: Allocator + Clone + Drop>(
    alloc: &A,
    script: &LitmusTest<A>,
    limit: usize,
) -> Result<Outcomes<A>, TestFault>
    ensures ok { IfOk result (λ found. Lists (read_of script.now) found) }
    ensures err { IfErr result IsLate }
{
    // A test that was read has a declaration.
    let Some(declaration) = &script.declaration else {
        return Err(NO_MEMORY);
    };
    let Ok(for_opening) = alloc.clone() else {
        return Err(NO_MEMORY);
    };
    let Ok(opening) = opening_of(for_opening, script.opening.as_slice()) else {
        return Err(NO_MEMORY);
    };
    let Ok(for_all) = alloc.clone() else {
        return Err(NO_MEMORY);
    };
    match list_outcomes(
        for_all,
        declaration,
        opening.as_slice(),
        script.calls.as_slice(),
        script.finals.as_slice(),
        script.maps,
        limit,
    ) {
        Ok(found) => Ok(found),
        Err(fault) => Err(fault_by(fault)),
    }
}

// How many frames are declared.
fn frames_of<A: Allocator>(script: &LitmusTest<A>) -> u64
    ensures { result ≡ frames_of (read_of script.now).asked }
{
    match &script.declaration {
        Some(declaration) => declaration.frames(),
        None => 0,
    }
}

// The trace that is a witness of the outcome with this number.
fn witness_text<A: Allocator + Clone>(
    alloc: &A,
    script: &LitmusTest<A>,
    found: &Outcomes<A>,
    rows: &[Row<A>],
    number: u64,
) -> Result<Vec<u8, A>, TestFault>
    requires order { AreSorted (texts_of (known_of (read_of script.now) found.now)) rows.now }
    ensures ok { IfOk result (λ text. Witnesses (read_of script.now) found.now number text.items) }
    ensures err { IfErr result (IsUnshown (ViewOf.Witness number) (read_of script.now) found.now) }
{
    if number == 0 {
        return Err(TestFault::NoOutcome(number));
    }
    let Some(row) = rows.get((number - 1) as usize) else {
        return Err(TestFault::NoOutcome(number));
    };
    let Some(outcome) = found.list.as_slice().get(row.1) else {
        return Err(TestFault::NoOutcome(number));
    };
    let Some(events) = &outcome.witness else {
        return Err(TestFault::NoWitness(number));
    };
    match trace_of(
        alloc,
        row.0.as_slice(),
        script.front.as_slice(),
        events.as_slice(),
    ) {
        Ok(text) => Ok(text),
        Err(_) => Err(NO_MEMORY),
    }
}

// How the search for outcomes ended, which are told with the mappings or without.
fn searched_of<A: Allocator>(
    script: &LitmusTest<A>,
    found: &Outcomes<A>,
    maps: bool,
    limit: usize,
) -> Searched
    ensures { result ≡ searched_by (read_of script.now) maps found.now limit }
{
    let lacks_frames = may_lack(
        frames_of(script),
        script.opening.as_slice(),
        script.calls.as_slice(),
    );
    Searched {
        whole: found.whole,
        lacks_frames,
        lacks_maps: script.maps && !maps,
        limit: limit as u64,
    }
}

// The report of a test.
fn report_text<A: Allocator + Clone>(
    alloc: &A,
    name: &[u8],
    script: &LitmusTest<A>,
    found: &Outcomes<A>,
    rows: &[Row<A>],
    limit: usize,
) -> Result<Vec<u8, A>, NoMemory>
    requires order { AreSorted (texts_of (known_of (read_of script.now) found.now)) rows.now }
    ensures { IfOk result (λ text. Reports name.now (read_of script.now) found.now limit text.items) }
{
    let named = Named {
        calls: script.calls.as_slice(),
        addrs: script.finals.as_slice(),
        maps: script.maps,
    };
    let searched = searched_of(script, found, script.maps, limit);
    let text = report(
        alloc,
        name,
        &named,
        found.list.as_slice(),
        rows,
        searched,
        script.clauses.as_slice(),
    )?;
    Ok(text)
}

// The program that makes the calls of a test to a kernel.
fn program_text<A: Allocator + Clone>(
    alloc: &A,
    script: &LitmusTest<A>,
) -> Result<Vec<u8, A>, TestFault>
    ensures ok { IfOk result (λ text. MakesCalls (read_of script.now) text.items) }
    ensures err { IfErr result (IsUncalled (read_of script.now)) }
{
    // A test that was read has a declaration.
    let Some(declaration) = &script.declaration else {
        return Err(NO_MEMORY);
    };
    if script.maps {
        return Err(TestFault::NoMaps);
    }
    if !are_called(script.opening.as_slice()) {
        return Err(TestFault::NoCall);
    }
    let Ok(for_opening) = alloc.clone() else {
        return Err(NO_MEMORY);
    };
    let Ok(opening) = calls_of(for_opening, script.opening.as_slice()) else {
        return Err(NO_MEMORY);
    };
    let Ok(for_text) = alloc.clone() else {
        return Err(NO_MEMORY);
    };
    let program = Program {
        files: declaration.files(),
        opening: opening.as_slice(),
        calls: script.calls.as_slice(),
        addrs: script.finals.as_slice(),
    };
    match program_of(for_text, &program) {
        Ok(text) => Ok(text),
        Err(_) => Err(NO_MEMORY),
    }
}

// What counts come to beside the outcomes of a test, with the mappings or without.
fn judged<A: Allocator + Clone>(
    alloc: &A,
    script: &LitmusTest<A>,
    found: &Outcomes<A>,
    counts: &[u8],
    maps: bool,
    limit: usize,
) -> Result<Output<A>, TestFault>
    ensures ok { IfOk result (λ told. Judges (read_of script.now) maps found.now limit (lines_of counts.now) told.text.items
        told.status) }
    ensures err { IfErr result IsWant }
{
    let named = Named {
        calls: script.calls.as_slice(),
        addrs: script.finals.as_slice(),
        maps,
    };
    let searched = searched_of(script, found, maps, limit);
    match judge_counts(alloc, &named, found.list.as_slice(), searched, counts) {
        Ok(judged) => Ok(Output {
            text: judged.text,
            status: judged.status,
        }),
        Err(_) => Err(NO_MEMORY),
    }
}

// The same of counts that were read, whose lines may be bad.
fn counts_told<A: Allocator + Clone>(
    alloc: &A,
    script: &LitmusTest<A>,
    found: &Outcomes<A>,
    counts: &[u8],
    limit: usize,
) -> Result<Output<A>, TestFault>
    ensures ok { IfOk result (λ told. Judges (read_of script.now) (read_of script.now).maps found.now limit (lines_of counts.now)
        told.text.items told.status) }
    ensures err { IfErr result (IsUncounted (lines_of counts.now)) }
{
    if let Some(number) = bad_count(counts) {
        return Err(TestFault::BadCount(number));
    }
    match judged(alloc, script, found, counts, script.maps, limit) {
        Ok(told) => Ok(told),
        Err(fault) => Err(fault),
    }
}

// How often each outcome came in so many runs on threads.
fn live_counts<R: Threads + Wait + Sync>(
    rt: &R,
    alloc: Global,
    script: &LitmusTest<Global>,
    runs: u64,
) -> Result<Vec<u8>, TestFault>
    ensures ok { IfOk result (λ counts. CountsLive (read_of script.now) runs counts.items) }
    ensures err { IfErr result (IsUnrun (read_of script.now)) }
{
    // A test that was read has a declaration.
    let Some(declared) = &script.declaration else {
        return Err(NO_MEMORY);
    };
    let lines = script.opening.as_slice();
    if !are_called(lines) {
        return Err(TestFault::NoTask);
    }
    let Ok(opening) = tasks_of(alloc, lines) else {
        return Err(NO_MEMORY);
    };
    let Ok(before) = calls_of(alloc, lines) else {
        return Err(NO_MEMORY);
    };
    let Ok(loads) = loads_of(alloc, script.finals.as_slice()) else {
        return Err(NO_MEMORY);
    };
    let test = TestRun {
        declared,
        opening: opening.as_slice(),
        before: before.as_slice(),
        calls: script.calls.as_slice(),
        loads: loads.as_slice(),
    };
    match count_runs(rt, alloc, &test, script.finals.as_slice(), runs) {
        Ok(counts) => Ok(counts),
        Err(fault) => Err(TestFault::Live(fault)),
    }
}

// What is shown of a test and its outcomes.
fn show_test<A: Allocator + Clone + Drop>(
    alloc: &A,
    name: &[u8],
    script: &LitmusTest<A>,
    found: &Outcomes<A>,
    view: Listing,
    limit: usize,
) -> Result<Vec<u8, A>, TestFault>
    ensures ok { IfOk result (λ text. Shows view name.now (read_of script.now) found.now limit text.items) }
    ensures err { IfErr result (IsUnshown view (read_of script.now) found.now) }
{
    let named = Named {
        calls: script.calls.as_slice(),
        addrs: script.finals.as_slice(),
        maps: script.maps,
    };
    let outcomes = found.list.as_slice();
    let Ok(rows) = in_order(alloc, &named, outcomes) else {
        return Err(NO_MEMORY);
    };
    match view {
        Listing::Report => match report_text(alloc, name, script, found, rows.as_slice(), limit) {
            Ok(text) => Ok(text),
            Err(_) => Err(NO_MEMORY),
        },
        Listing::List => match list_text(alloc, script.maps, outcomes, rows.as_slice()) {
            Ok(text) => Ok(text),
            Err(_) => Err(NO_MEMORY),
        },
        Listing::Witness(number) => witness_text(alloc, script, found, rows.as_slice(), number),
    }
}

// The status of what is shown: of a witness 0.
fn status_at<A: Allocator>(
    script: &LitmusTest<A>,
    found: &Outcomes<A>,
    view: Listing,
    limit: usize,
) -> u8
    ensures { result ≡ status_at view (read_of script.now) found.now limit }
{
    let named = Named {
        calls: script.calls.as_slice(),
        addrs: script.finals.as_slice(),
        maps: script.maps,
    };
    match view {
        Listing::Report | Listing::List => status_of(
            &named,
            found.list.as_slice(),
            searched_of(script, found, script.maps, limit),
            script.clauses.as_slice(),
        ),
        Listing::Witness(_) => 0,
    }
}

/// Reads the text of a litmus test with this name, lists its outcomes, of at most `limit` points of merges, and answers what is written of
/// it, and the status: 0 where all clauses hold, 1 where one fails, 3 where one is open or the limit was reached; of a witness 0. `Err`
/// tells the text's first fault, an opening that leaves a call open, an outcome that isn't there, or want of memory.
pub fn tell_litmus<A: Allocator + Clone + Drop>(
    alloc: &A,
    name: &[u8],
    text: &[u8],
    view: Listing,
    limit: usize,
) -> Result<Output<A>, TestFault>
    ensures ok { IfOk result (λ told. Tells A name.now view limit (lines_of text.now) told.text.items told.status) }
    ensures err { IfErr result (Fails A view (lines_of text.now)) }
{
    let script = match read_litmus(alloc, text) {
        Ok(script) => script,
        Err(fault) => return Err(TestFault::Text(fault)),
    };
    let found = match outcomes_of(alloc, &script, limit) {
        Ok(found) => found,
        Err(fault) => return Err(fault),
    };
    let text = match show_test(alloc, name, &script, &found, view, limit) {
        Ok(text) => text,
        Err(fault) => return Err(fault),
    };
    let status = status_at(&script, &found, view, limit);
    Ok(Output { text, status })
}

/// Reads the text of a litmus test, and answers a program that makes its calls to a kernel, as C; the status is 0. `Err` tells the text's
/// first fault, that it asks for the mappings, an opening with a step that no call to a kernel makes, or want of memory.
pub fn tell_program<A: Allocator + Clone + Drop>(
    alloc: &A,
    text: &[u8],
) -> Result<Output<A>, TestFault>
    ensures ok { IfOk result (λ told. TellsProgram (lines_of text.now) told.text.items told.status) }
    ensures err { IfErr result (FailsProgram (lines_of text.now)) }
{
    let script = match read_litmus(alloc, text) {
        Ok(script) => script,
        Err(fault) => return Err(TestFault::Text(fault)),
    };
    match program_text(alloc, &script) {
        Ok(text) => Ok(Output { text, status: 0 }),
        Err(fault) => Err(fault),
    }
}

/// Reads the text of a litmus test, lists its outcomes, of at most `limit` points of merges, and answers the counts again that another
/// system gave, each marked where its outcome, with its mappings where they are asked for, isn't listed; the status is 1 where one
/// isn't, but 3 where not all outcomes are known. `Err` tells the first line of the counts that is bad, or a fault as `tell_litmus` does.
pub fn tell_observed<A: Allocator + Clone + Drop>(
    alloc: &A,
    text: &[u8],
    counts: &[u8],
    limit: usize,
) -> Result<Output<A>, TestFault>
    ensures ok { IfOk result (λ told. TellsObserved A limit (lines_of counts.now) (lines_of text.now) told.text.items told.status) }
    ensures err { IfErr result (FailsObserved (lines_of counts.now) (lines_of text.now)) }
{
    let script = match read_litmus(alloc, text) {
        Ok(script) => script,
        Err(fault) => return Err(TestFault::Text(fault)),
    };
    let found = match outcomes_of(alloc, &script, limit) {
        Ok(found) => found,
        Err(fault) => return Err(fault),
    };
    match counts_told(alloc, &script, &found, counts, limit) {
        Ok(told) => Ok(told),
        Err(fault) => Err(fault),
    }
}

/// Reads the text of a litmus test, lists its outcomes, of at most `limit` points of merges, runs it so often on threads, certifies each
/// run, and answers how often each outcome came, without the mappings, marked where none such is listed; the status is 1 where one isn't, but 3 where not all
/// outcomes are known. `Err` tells the text's first fault, an opening with a step that no thread can be told to take or that leaves a
/// call open, why a run came to no outcome, or want of memory.
pub fn tell_live<R: Threads + Wait + Sync>(
    rt: &R,
    alloc: &Global,
    text: &[u8],
    runs: u64,
    limit: usize,
) -> Result<Output<Global>, TestFault>
    ensures ok { IfOk result (λ told. TellsLive limit runs (lines_of text.now) told.text.items told.status) }
    ensures err { IfErr result (FailsLive (lines_of text.now)) }
{
    let script = match read_litmus(alloc, text) {
        Ok(script) => script,
        Err(fault) => return Err(TestFault::Text(fault)),
    };
    let found = match outcomes_of(alloc, &script, limit) {
        Ok(found) => found,
        Err(fault) => return Err(fault),
    };
    let counts = match live_counts(rt, *alloc, &script, runs) {
        Ok(counts) => counts,
        Err(fault) => return Err(fault),
    };
    match judged(alloc, &script, &found, counts.as_slice(), false, limit) {
        Ok(told) => Ok(told),
        Err(fault) => Err(fault),
    }
}

/// Does what is asked for of the litmus test with this name and text: `tell_litmus`, `tell_program`, `tell_observed` of these counts, or
/// `tell_live`.
pub fn tell<R: Threads + Wait + Sync>(
    rt: &R,
    alloc: &Global,
    name: &[u8],
    text: &[u8],
    counts: &[u8],
    wanted: LitmusAsk,
    limit: usize,
) -> Result<Output<Global>, TestFault>
    ensures ok { IfOk result (λ told. TellsAs GlobalOf name.now wanted limit (lines_of counts.now) (lines_of text.now) told.text.items told.status) }
    ensures err { IfErr result (FailsAs GlobalOf wanted (lines_of counts.now) (lines_of text.now)) }
{
    match wanted {
        LitmusAsk::Outcomes(view) => tell_litmus(alloc, name, text, view, limit),
        LitmusAsk::Program => tell_program(alloc, text),
        LitmusAsk::Observed => tell_observed(alloc, text, counts, limit),
        LitmusAsk::Live(runs) => tell_live(rt, alloc, text, runs, limit),
    }
}
