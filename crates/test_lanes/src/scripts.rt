//! Scripts that look random, each of whose cores runs on a thread of its own: what was noted is certified, no call was given up, and the
//! replies of a core that is alone are those of a plain page map, which lets mappings have any place.
use crate::script::setup_of;
use audit::{Auditor, Call};
use certifier::CertifyFault;
use live_script::{OnThreads, RunSpace, Runner, begin, certify_ran, run_in_turn};
use machine_model::{Event, Outcome, Setup};
use radix_range::RadixMap;
use seats::{Noted, Notes};
use std::alloc::{Allocator, Global};
use std::sync::Wait;
use std::thread::Threads;
use test_support::random::Random;
use test_support::setups::declared;
use trace_io::source::Counted;
use trace_text::address_text;
use trace_words::{Script, read_script};
use vm_base::{NoMemory, Reply};

/// What the cores of a space are asked for.
#[derive(Clone, Copy)]
pub struct Asked<'a> {
    /// Each core begins with the first of these lines, after its number, and goes on with some of the others. In them `P` begins the
    /// address of one of eight pages around the border of two nodes of 512 pages, of which the last three digits follow, and `W` that
    /// of its window, of which the last eight do.
    pub lines: &'a str,
    /// How many lines that look random each core goes on with.
    pub count: u64,
}

/// The script of a text, with a newline between two lines; one that can't be read is want of memory.
pub fn script_of<A: Allocator + Clone + Drop>(alloc: A, text: &str) -> Result<Script<A>, NoMemory> {
    let mut reader = Counted::new(text.as_bytes());
    match read_script(alloc, &mut reader) {
        Ok(script) => Ok(script),
        Err(_) => Err(NoMemory),
    }
}

/// Appends a line of a core.
fn push_asked(
    alloc: Global,
    random: &mut Random,
    core: u64,
    line: &str,
    out: &mut String<Global>,
) -> Result<(), NoMemory> {
    let page = address_text(0x1fc + random.next() % 8);
    let window = address_text(core.wrapping_add(1).wrapping_mul(0x80));
    let text = if let Some((head, tail)) = line.split_once('P') {
        format!(in alloc; "c{core}{head}{}{tail}\n", page.as_str())?
    } else if let Some((head, tail)) = line.split_once('W') {
        format!(in alloc; "c{core}{head}{}{tail}\n", window.as_str())?
    } else {
        format!(in alloc; "c{core}{line}\n")?
    };
    out.push_str(text.as_str())?;
    Ok(())
}

/// Appends so many of these lines, which look random.
fn push_drawn(
    alloc: Global,
    random: &mut Random,
    core: u64,
    lines: &[&str],
    count: u64,
    out: &mut String<Global>,
) -> Result<(), NoMemory> {
    if lines.is_empty() {
        return Ok(());
    }
    for _line in 0..count {
        let drawn = (random.next() % lines.len() as u64) as usize;
        push_asked(alloc, random, core, lines[drawn], out)?;
    }
    Ok(())
}

fn lines_of(alloc: Global, text: &str) -> Result<Vec<&str, Global>, NoMemory> {
    let mut lines = Vec::new(alloc);
    for line in text.lines() {
        lines.push(line)?;
    }
    Ok(lines)
}

/// A script of this space that looks random.
fn random_text(
    alloc: Global,
    space: &str,
    asked: Asked<'_>,
    seed: u64,
) -> Result<String<Global>, NoMemory> {
    let mut out = space.replace(alloc, "; ", "\n")?;
    let cores = declared(out.as_str()).cores();
    out.push_str("\n")?;
    let Some((first, rest)) = asked.lines.split_once('\n') else {
        return Ok(out);
    };
    let lines = lines_of(alloc, rest)?;
    let mut random = Random::new(seed);
    for core in 0..cores {
        push_asked(alloc, &mut random, core, first, &mut out)?;
        push_drawn(
            alloc,
            &mut random,
            core,
            lines.as_slice(),
            asked.count,
            &mut out,
        )?;
    }
    Ok(out)
}

/// The last call has this reply.
fn answer(calls: &mut [Call], reply: Reply) {
    if let Some(call) = calls.last_mut() {
        call.reply = reply;
    }
}

/// Appends the call that the note begins, or its reply.
fn push_noted(note: &Noted, calls: &mut Vec<Call, Global>) -> Result<(), NoMemory> {
    if let Event::Call(core, request) = note.event {
        let reply = Reply::Done;
        calls.push(Call {
            core,
            request,
            reply,
        })?;
    }
    if let Outcome::Answered(reply) = note.outcome {
        answer(calls.as_mut_slice(), reply);
    }
    Ok(())
}

/// Appends the calls of a seat, each with its reply.
fn push_calls(notes: Notes<'_>, calls: &mut Vec<Call, Global>) -> Result<(), NoMemory> {
    for at in 0..notes.len() {
        let note = notes.get(at);
        push_noted(&note, calls)?;
    }
    Ok(())
}

/// The calls of all cores, one core after another.
fn calls_of(alloc: Global, ran: &RunSpace<Global>) -> Result<Vec<Call, Global>, NoMemory> {
    let notes = ran.notes(alloc)?;
    let mut calls = Vec::new(alloc);
    for core in 0..notes.len() {
        push_calls(notes[core], &mut calls)?;
    }
    Ok(calls)
}

fn is_none_given_up(calls: &[Call]) -> bool {
    for call in calls {
        if call.reply == Reply::NoMemory {
            return false;
        }
    }
    true
}

/// Whether these are the calls of more cores than one, or the plain page map's.
fn are_plain(alloc: Global, space: &str, calls: &[Call]) -> Result<bool, NoMemory> {
    if !space.starts_with("vm 1 ") {
        return Ok(true);
    }
    let Setup { files, .. } = setup_of(alloc, space)?;
    if files.len() > 16 {
        return Err(NoMemory);
    }
    let mut auditor = Auditor::new(alloc, RadixMap::new(alloc)?, files, true)?;
    Ok(auditor.judge_all(calls)?.is_none())
}

/// Whether all went well in a space in which a script was run.
fn is_certified(
    alloc: Global,
    space: &str,
    script: &Script<Global>,
    ran: RunSpace<Global>,
) -> Result<bool, NoMemory> {
    let calls = calls_of(alloc, &ran)?;
    let are_plain = are_plain(alloc, space, calls.as_slice())?;
    let is_right = are_plain && is_none_given_up(calls.as_slice());
    let ended = ran.end(alloc)?;
    let notes = ended.notes(alloc)?;
    Ok(is_right && certify_ran(alloc, script, notes.as_slice(), &ended.histories).is_ok())
}

/// The page of the slot that is refused where the notes of a script are certified beside the histories of another space of
/// it, in which nothing was done; none where they are certified, or something else is refused.
pub fn astray_beside_unused<R: Wait>(
    rt: &R,
    alloc: Global,
    text: &str,
) -> Result<Option<u64>, NoMemory> {
    let script = script_of(alloc, text)?;
    let Ok(ran) = run_in_turn(rt, alloc, &script) else {
        return Err(NoMemory);
    };
    let Ok(unused) = begin(alloc, &script) else {
        return Err(NoMemory);
    };
    let ended = ran.end(alloc)?;
    let unused = unused.end(alloc)?;
    let notes = ended.notes(alloc)?;
    match certify_ran(alloc, &script, notes.as_slice(), &unused.histories) {
        Err(CertifyFault::Slot { page }) => Ok(Some(page)),
        _ => Ok(None),
    }
}

/// The same of a script that looks random.
fn is_run<R: Threads + Wait + Sync>(
    rt: &R,
    alloc: Global,
    space: &str,
    asked: Asked<'_>,
    seed: u64,
) -> Result<bool, NoMemory> {
    let text = random_text(alloc, space, asked, seed)?;
    let script = script_of(alloc, text.as_str())?;
    match OnThreads.run(rt, alloc, &script) {
        Ok(ran) => is_certified(alloc, space, &script, ran),
        Err(_) => Ok(false),
    }
}

/// How many of so many scripts went well.
fn well_run<R: Threads + Wait + Sync>(
    rt: &R,
    alloc: Global,
    space: &str,
    asked: Asked<'_>,
    seeds: u64,
) -> Result<u64, NoMemory> {
    let mut count = 0u64;
    for seed in 0..seeds {
        if is_run(rt, alloc, space, asked, seed)? {
            count = count.saturating_add(1);
        }
    }
    Ok(count)
}

/// The spaces of which a line declares each, with how many of so many scripts went well, where not all did.
pub fn wrong_runs<R: Threads + Wait + Sync>(
    rt: &R,
    alloc: Global,
    spaces: &str,
    asked: Asked<'_>,
    seeds: u64,
) -> Result<String<Global>, NoMemory> {
    let mut wrong = String::new(alloc);
    for space in spaces.lines() {
        let count = well_run(rt, alloc, space, asked, seeds)?;
        if count != seeds {
            wrong.push_str(&format!(in alloc; "{space}: {count}\n")?)?;
        }
    }
    Ok(wrong)
}
