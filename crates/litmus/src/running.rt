//! Runs of a litmus test on threads, and how often each outcome came.
ghost use Rattle.std.specs.Prelude.{◌≡◌, All, IfOk, None, OnOk, length, map};
ghost use Rattle.seats.specs.Packing.{shown};
ghost use Rattle.certifier.specs.Order.{all_notes};
ghost use Rattle.certifier.specs.Standings.{AreStandings};
ghost use Rattle.machine_model.specs.Setups.{fault_of, made_of};
ghost use Rattle.live_space.specs.Space.{IsOf};
ghost use Rattle.trace_words.specs.Declarations.{asked_fault, made_by};
ghost use Rattle.litmus_report.specs.Counts.{bytes_of};
ghost use Rattle.litmus.specs.Runs.{ComeTo, ComesOut, CountsRuns, IsRunOf, ReadsAs};

use crate::calling::{Lane, count_notes, do_lines, first_fault, make_calls, run_side_by_side};
use crate::came::{Came, TestRun};
use crate::counts::counts_of;
use crate::fault::LiveTestFault;
use crate::following::steps_of;
use crate::in_order::perform_in_order;
use crate::reading::{are_plain, replies_of};
use certifier::certify_standing;
use certifier::order::{Standing, standings};
use litmus_report::{Named, outcome_text};
use live_space::space::Live;
use live_tree::histories::Histories;
use machine_model::{Event, Outcome, Setup};
use seats::{Notes, Seat};
use std::alloc::Global;
use std::sync::Wait;
use std::thread::Threads;
use trace_words::declaration::Declaration;
use vm_base::NoMemory;

/// How many notes there were behind the opening, and behind the lists.
#[derive(Clone, Copy)]
struct Marks {
    opened: usize,
    ran: usize,
}

// The setup that is declared. (A test that was read has a declaration without fault.)
fn setup_of(alloc: Global, declared: &Declaration) -> Result<Setup<Global>, NoMemory>
    ensures sound { IfOk result (λ setup. fault_of setup ≡ None) }
    ensures made { IfOk result (λ setup. made_of setup ≡ made_by declared.now) }
{
    if declared.fault().is_some() {
        return Err(NoMemory);
    }
    match declared.setup(alloc) {
        Ok(setup) => Ok(setup),
        Err(_) => Err(NoMemory),
    }
}

// A lane for each seat.
fn lanes_of(alloc: Global, seats: Vec<Seat<Global>>) -> Result<Vec<Lane>, NoMemory>
    ensures { IfOk result (λ lanes. map (λ lane. lane.seat) lanes.items ≡ seats.items) }
{
    let mut lanes = Vec::with_capacity(alloc, seats.len())?;
    'seats: for seat in seats {
        lanes.push(Lane { seat, fault: None })?;
    }
    Ok(lanes)
}

// Core 0 makes the loads.
fn load_finals<R: Wait>(
    rt: &R,
    live: &Live<Global>,
    lanes: &mut [Lane],
    test: &TestRun<'_>,
) -> Result<(), LiveTestFault>
    requires { All (λ lane. IsOf live.now lane.seat) lanes.old }
{
    if lanes.is_empty() {
        return Ok(());
    }
    match make_calls(rt, live, &mut lanes[0].seat, test.loads) {
        Ok(()) => Ok(()),
        Err(fault) => Err(LiveTestFault::Live(fault)),
    }
}

// The opening in order, then each core's list on a thread of its own, and then the loads.
fn play<R: Threads + Wait + Sync>(
    rt: &R,
    live: &Live<Global>,
    lanes: &mut [Lane],
    test: &TestRun<'_>,
) -> Result<Marks, LiveTestFault>
    requires { All (λ lane. IsOf live.now lane.seat) lanes.old }
{
    if let Err(fault) = do_lines(rt, live, lanes, test.opening) {
        return Err(LiveTestFault::Live(fault));
    }
    let opened = count_notes(lanes);
    run_side_by_side(rt, live, test.calls, lanes);
    if let Some(fault) = first_fault(lanes) {
        return Err(LiveTestFault::Live(fault));
    }
    let ran = count_notes(lanes);
    load_finals(rt, live, lanes, test)?;
    Ok(Marks { opened, ran })
}

// What the seat of each lane noted.
fn notes_of(alloc: Global, lanes: &[Lane]) -> Result<Vec<Notes<'_>>, NoMemory> {
    let mut all = Vec::with_capacity(alloc, lanes.len())?;
    'lanes: for at in 0..lanes.len() {
        all.push(lanes[at].seat.noted())?;
    }
    Ok(all)
}

// Certifies the notes beside the histories of their space.
fn certified(
    alloc: Global,
    declared: &Declaration,
    notes: &[Notes<'_>],
    stand: &[Standing],
    histories: &Histories<Global>,
) -> Result<(), LiveTestFault>
    requires { AreStandings (map shown notes.now) stand.now }
    ensures { OnOk result (IsRunOf declared.now (all_notes (map shown notes.now))) }
{
    let Ok(setup) = setup_of(alloc, declared) else {
        return Err(LiveTestFault::NoMemory);
    };
    match certify_standing(alloc, setup, notes, stand, Some(histories)) {
        Ok(_) => Ok(()),
        Err(certifier::CertifyFault::NoMemory) => Err(LiveTestFault::NoMemory),
        Err(_) => Err(LiveTestFault::NotCertified),
    }
}

// What the events, which came to these outcomes, show of the test.
fn read_steps(
    alloc: Global,
    test: &TestRun<'_>,
    events: &[Event],
    outcomes: &[Outcome],
    marks: Marks,
) -> Result<Came, LiveTestFault>
    ensures { IfOk result (λ came. ReadsAs test.now.before.now test.now.calls.now test.now.loads.now
        came.replies.items came.finals.items events.now outcomes.now) }
{
    if marks.opened > marks.ran || marks.ran > events.len() || marks.ran > outcomes.len() {
        return Err(LiveTestFault::NotCertified);
    }
    let (first, rest) = events.split_at(marks.opened);
    let (middle, last) = rest.split_at(marks.ran - marks.opened);
    let (firsts, others) = outcomes.split_at(marks.opened);
    let (middles, lasts) = others.split_at(marks.ran - marks.opened);
    let opens = perform_in_order(alloc, test.before, first, firsts)?;
    if !opens {
        return Err(LiveTestFault::NotCertified);
    }
    let Some(replies) = replies_of(alloc, test.calls, middle, middles)? else {
        return Err(LiveTestFault::NotCertified);
    };
    let Some(finals) = replies_of(alloc, test.loads, last, lasts)? else {
        return Err(LiveTestFault::NotCertified);
    };
    Ok(Came { replies, finals })
}

// What the notes in the lanes show of the test.
fn judge(
    alloc: Global,
    test: &TestRun<'_>,
    lanes: &[Lane],
    histories: &Histories<Global>,
    marks: Marks,
) -> Result<Came, LiveTestFault>
    ensures { IfOk result (λ came. ComesOut test.now.declared.now test.now.before.now test.now.calls.now test.now.loads.now
        came.replies.items came.finals.items) }
{
    let notes = notes_of(alloc, lanes)?;
    let stand = standings(alloc, notes.as_slice())?;
    certified(
        alloc,
        test.declared,
        notes.as_slice(),
        stand.as_slice(),
        histories,
    )?;
    let steps = steps_of(alloc, notes.as_slice(), stand.as_slice())?;
    let came = read_steps(
        alloc,
        test,
        steps.events.as_slice(),
        steps.outcomes.as_slice(),
        marks,
    )?;
    if !are_plain(came.replies.as_slice()) || !are_plain(came.finals.as_slice()) {
        return Err(LiveTestFault::NotPlain);
    }
    Ok(came)
}

// One run of the test in a space of its own.
fn run_once<R: Threads + Wait + Sync>(
    rt: &R,
    alloc: Global,
    test: &TestRun<'_>,
) -> Result<Came, LiveTestFault>
    ensures { IfOk result (λ came. ComesOut test.now.declared.now test.now.before.now test.now.calls.now test.now.loads.now
        came.replies.items came.finals.items) }
{
    let setup = setup_of(alloc, test.declared)?;
    let Ok((live, seats)) = Live::new(alloc, setup) else {
        return Err(LiveTestFault::NoMemory);
    };
    let mut lanes = lanes_of(alloc, seats)?;
    let marks = play(rt, &live, lanes.as_mut_slice(), test)?;
    let Ok(histories) = live.close() else {
        return Err(LiveTestFault::NoMemory);
    };
    judge(alloc, test, lanes.as_slice(), &histories, marks)
}

// The texts of the outcomes of so many runs.
fn run_often<R: Threads + Wait + Sync>(
    rt: &R,
    alloc: Global,
    test: &TestRun<'_>,
    addrs: &[u64],
    runs: u64,
) -> Result<Vec<Vec<u8>>, LiveTestFault>
    ensures { IfOk result (λ texts. ComeTo test.now.declared.now test.now.before.now test.now.calls.now test.now.loads.now
        addrs.now runs (map bytes_of texts.items)) }
{
    let named = Named {
        calls: test.calls,
        addrs,
        maps: false,
    };
    let mut texts = Vec::new(alloc);
    'runs: for _run in 0..runs {
        let came = run_once(rt, alloc, test)?;
        let text = outcome_text(alloc, &named, &came)?;
        let Ok(()) = texts.push(text) else {
            return Err(LiveTestFault::NoMemory);
        };
    }
    Ok(texts)
}

/// Runs the test so often, each time in a new space: its opening in order, then each core's list on a thread of the core's own, or
/// one core after another where no thread can be made, and then loads of these addresses by core 0. Each run is certified, and read
/// again in the order of its tickets. Mappings aren't looked at. Answers lines `COUNT: OUTCOME`, each outcome once, in the order in which they came. `Err` says
/// why a run came to none.
pub fn count_runs<R: Threads + Wait + Sync>(
    rt: &R,
    alloc: Global,
    test: &TestRun<'_>,
    addrs: &[u64],
    runs: u64,
) -> Result<Vec<u8>, LiveTestFault>
    ensures { IfOk result (λ text. CountsRuns test.now.declared.now test.now.before.now test.now.calls.now test.now.loads.now addrs.now runs
        text.items) }
{
    let texts = run_often(rt, alloc, test, addrs, runs)?;
    let text = counts_of(alloc, texts.as_slice())?;
    Ok(text)
}
