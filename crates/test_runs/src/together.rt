//! Scripts that look random, whose cores share a machine, each on a thread of its own.
use crate::logged::machine;
use shared::{Answer, SharedMachine};
use shared_script::texts::run_script;
use shared_script::{RunMachine, Tree};
use std::alloc::Global;
use std::sync::Wait;
use std::thread::Threads;
use test_support::random::Random;
use trace_io::source::Counted;
use trace_text::address_text;
use trace_words::read_script;
use vm_base::{Entry, NoMemory, Reply, Request};

/// How many cores there are: more threads than most machines have processors.
const CORES: u64 = 24;

/// How many frames: more than pages that are mapped at once.
const FRAMES: u64 = 4096;

/// What a core does, behind its number; `P` begins the address of one of eight pages. All mappings have their place, so that another
/// core would be replied the same.
const TASKS: [&str; 12] = [
    "! mmap P000 8192 rw- pfa",
    "! mmap P000 4096 r-- pfa",
    "! munmap P000 4096",
    "! munmap P000 12288",
    "! mprotect P000 4096 r--",
    "! mprotect P000 8192 rw-",
    "! load P007",
    "! load P008",
    "! store P007 41",
    "! fetch P009",
    " flush",
    " review",
];

/// A script of so many lines.
fn random_text(alloc: Global, seed: u64, lines: u64) -> Result<String<Global>, NoMemory> {
    let mut out = format!(in alloc; "vm {CORES} {FRAMES}\n")?;
    let mut random = Random::new(seed);
    for _line in 0..lines {
        let core = random.next() % CORES;
        let task = TASKS[(random.next() % TASKS.len() as u64) as usize];
        let page = address_text(0x1fc + random.next() % 8);
        let line = match task.split_once('P') {
            Some((head, tail)) => format!(in alloc; "c{core}{head}{}{tail}\n", page.as_str())?,
            None => format!(in alloc; "c{core}{task}\n")?,
        };
        out.push_str(line.as_str())?;
    }
    Ok(out)
}

/// The request and the reply of a call of this core, if the entry answers one.
fn call_of(entry: &Entry, requests: &[Request]) -> Option<(u8, Request, Reply)> {
    let Entry::Answer {
        call,
        core,
        reply,
        ..
    } = *entry
    else {
        return None;
    };
    let at = usize::try_from(call.checked_sub(1)?).ok()?;
    Some((core.index(), *requests.get(at)?, reply))
}

/// Whether the log has of each core just the calls that its thread was told, in order.
fn is_logged(alloc: Global, ran: &RunMachine<Tree>) -> Result<bool, NoMemory> {
    let mut seen = vec![in alloc; 0usize; ran.told.len()]?;
    for entry in ran.machine.machine.log() {
        let Some((core, request, reply)) = call_of(entry, ran.machine.machine.requests()) else {
            continue;
        };
        let core = core as usize;
        if core >= seen.len() || core >= ran.told.len() {
            return Ok(false);
        }
        let told = &ran.told[core];
        let at = seen[core];
        if at >= told.len() || told[at].request != request || told[at].reply != reply {
            return Ok(false);
        }
        seen[core] = at + 1;
    }
    for core in 0..ran.told.len().min(seen.len()) {
        if seen[core] != ran.told[core].len() {
            return Ok(false);
        }
    }
    Ok(true)
}

/// Whether one core of a new machine is replied the same to the log's calls, in their order.
fn is_replied_again(alloc: Global, ran: &RunMachine<Tree>) -> Result<bool, NoMemory> {
    let Some(machine) = machine(alloc, 1, FRAMES, 4096) else {
        return Err(NoMemory);
    };
    let Ok((space, mut one)) = SharedMachine::new(alloc, machine) else {
        return Err(NoMemory);
    };
    for entry in ran.machine.machine.log() {
        if let Some((_core, request, reply)) = call_of(entry, ran.machine.machine.requests()) {
            if space.call(&mut one, request) != Answer::Reply(reply) {
                return Ok(false);
            }
        }
    }
    Ok(true)
}

/// Whether a script of so many lines goes well.
pub fn goes_well<R: Threads + Wait + Sync>(
    rt: &R,
    alloc: Global,
    seed: u64,
    lines: u64,
) -> Result<bool, NoMemory> {
    let text = random_text(alloc, seed, lines)?;
    let mut reader = Counted::new(text.as_str().as_bytes());
    let Ok(script) = read_script(alloc, &mut reader) else {
        return Err(NoMemory);
    };
    match run_script(rt, alloc, &script) {
        Ok(ran) => Ok(is_logged(alloc, &ran)? && is_replied_again(alloc, &ran)?),
        Err(_) => Ok(false),
    }
}
