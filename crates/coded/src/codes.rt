//! What C writes for an event, and what it reads for an outcome.
ghost use Rattle.std.specs.Prelude.{◌≡◌, ◌<◌};
ghost use Rattle.coded.specs.Codes.{kind_of, core_of, request_at, event_at, event_with, event_of};
ghost use Rattle.coded.specs.Codes.{item_of_event, item_at, item_with, item_of};
ghost use Rattle.coded.specs.Codes.{call_code, nothing, errno_code, reply_code, outcome_code, finished_code};

use crate::bits::{bits_of, bits_of_flags, bits_of_prot, flags_of, prot_of};
use core_steps::Finished;
use machine_model::{Blocker, Event, Outcome};
use vm_base::{CoreId, Errno, Reply, Request, SegvCode};

/// What an event is. In a batch its code is its place here, from 1 on.
#[derive(Clone, Copy)]
pub enum EventCode {
    /// The core calls `mmap`: `at`, `len`, `prot`, `flags`, `file` and `off` are read.
    Mmap,
    /// The core calls `munmap`: `at` and `len`.
    Munmap,
    /// The core calls `mprotect`: `at`, `len` and `prot`.
    Mprotect,
    /// The core loads the byte at the address `at`.
    Load,
    /// The core stores `byte` at the address `at`.
    Store,
    /// The core fetches the byte at the address `at`.
    Fetch,
    /// The core's call goes one step on.
    Go,
    /// The core's call takes the frame `at`.
    Frame,
    /// The core's call guesses the page `at`.
    Guess,
    /// The core's call takes its whole window.
    Whole,
    /// The core acts on the oldest message of its inbox.
    Take,
    /// The core's TLB gets the translation of the page `at`.
    Walk,
    /// The core's TLB drops its translation of the page `at`.
    Evict,
    /// The core flushes one of its counts.
    Flush,
    /// The core reviews the front of its queue.
    Review,
    /// Slots are joined at the page `at`, whichever the core is.
    Fold,
    /// The core's call is given up.
    GiveUp,
    /// The core's call goes on until a step isn't `Stepped`. Only a batch of calls has it.
    Finish,
}

/// An event, as C writes it.
#[repr(C)]
#[derive(Clone, Copy, Drop)]
pub struct RawEvent {
    /// The code of its kind.
    pub kind: u32,
    /// The number of the core that takes it.
    pub core: u32,
    /// An address in bytes, or a page or a frame by its number.
    pub at: u64,
    /// A length in bytes.
    pub len: u64,
    /// The number of an open file.
    pub file: u64,
    /// An offset in bytes.
    pub off: u64,
    /// Rights, by bits.
    pub prot: u32,
    /// Flags, by bits.
    pub flags: u32,
    /// A byte.
    pub byte: u32,
}

/// An outcome, as C reads it.
#[repr(C)]
#[derive(Clone, Copy, Drop)]
pub struct RawOutcome {
    /// Its code.
    pub kind: u32,
    /// What it says besides: an address in bytes, a byte, an errno, a core, or a set of cores, whose
    /// bit `c` is core `c`; else 0.
    pub value: u64,
}

/// What an event of a batch of calls asks for.
#[derive(Clone, Copy)]
pub enum BatchItem {
    /// A whole call.
    Call(CoreId, Request),
    /// The rest of the core's call.
    Finish(CoreId),
    /// One event; a call is begun, and no step of it is made.
    Step(Event),
}

/// The kind that has the code.
#[inline(always)]
pub fn kind_of(code: u32) -> Option<EventCode>
    ensures { result ≡ kind_of code }
{
    match code {
        1 => Some(EventCode::Mmap),
        2 => Some(EventCode::Munmap),
        3 => Some(EventCode::Mprotect),
        4 => Some(EventCode::Load),
        5 => Some(EventCode::Store),
        6 => Some(EventCode::Fetch),
        7 => Some(EventCode::Go),
        8 => Some(EventCode::Frame),
        9 => Some(EventCode::Guess),
        10 => Some(EventCode::Whole),
        11 => Some(EventCode::Take),
        12 => Some(EventCode::Walk),
        13 => Some(EventCode::Evict),
        14 => Some(EventCode::Flush),
        15 => Some(EventCode::Review),
        16 => Some(EventCode::Fold),
        17 => Some(EventCode::GiveUp),
        18 => Some(EventCode::Finish),
        _ => None,
    }
}

/// The core of this number, if it is below 64.
#[inline(always)]
pub fn core_of(number: u32) -> Option<CoreId>
    ensures { result ≡ core_of number }
{
    if number >= 64 {
        return None;
    }
    Some(CoreId::new(number as u8))
}

fn mmap_of(raw: &RawEvent) -> Option<Request>
    ensures { result ≡ request_at EventCode.Mmap raw.now }
{
    let prot = prot_of(raw.prot)?;
    let flags = flags_of(raw.flags)?;
    Some(Request::Mmap {
        addr: raw.at,
        len: raw.len,
        prot,
        flags,
        file: raw.file,
        off: raw.off,
    })
}

fn mprotect_of(raw: &RawEvent) -> Option<Request>
    ensures { result ≡ request_at EventCode.Mprotect raw.now }
{
    let prot = prot_of(raw.prot)?;
    Some(Request::Mprotect {
        addr: raw.at,
        len: raw.len,
        prot,
    })
}

/// The request of a store, if its byte is one.
#[inline(always)]
pub fn store_of(raw: &RawEvent) -> Option<Request>
    ensures { result ≡ request_at EventCode.Store raw.now }
{
    if raw.byte >= 256 {
        return None;
    }
    Some(Request::Store {
        addr: raw.at,
        byte: raw.byte as u8,
    })
}

/// The request of an event of this kind, if it is a call whose bits and byte are in range.
#[inline(always)]
pub fn request_at(kind: EventCode, raw: &RawEvent) -> Option<Request>
    ensures { result ≡ request_at kind raw.now }
{
    match kind {
        EventCode::Mmap => mmap_of(raw),
        EventCode::Munmap => Some(Request::Munmap {
            addr: raw.at,
            len: raw.len,
        }),
        EventCode::Mprotect => mprotect_of(raw),
        EventCode::Load => Some(Request::Load { addr: raw.at }),
        EventCode::Store => store_of(raw),
        EventCode::Fetch => Some(Request::Fetch { addr: raw.at }),
        _ => None,
    }
}

/// The event of this kind that the core is to take.
#[inline(always)]
pub fn event_at(kind: EventCode, core: CoreId, raw: &RawEvent) -> Option<Event>
    ensures { result ≡ event_at kind core raw.now }
{
    match kind {
        EventCode::Go => Some(Event::Go(core)),
        EventCode::Frame => Some(Event::Frame(core, raw.at)),
        EventCode::Guess => Some(Event::Guess(core, raw.at)),
        EventCode::Whole => Some(Event::Whole(core)),
        EventCode::Take => Some(Event::Take(core)),
        EventCode::Walk => Some(Event::Walk(core, raw.at)),
        EventCode::Evict => Some(Event::Evict(core, raw.at)),
        EventCode::Flush => Some(Event::Flush(core)),
        EventCode::Review => Some(Event::Review(core)),
        EventCode::Fold => Some(Event::Fold(raw.at)),
        EventCode::GiveUp => Some(Event::GiveUp(core)),
        EventCode::Finish => None,
        _ => request_at(kind, raw).map(|request| Event::Call(core, request)),
    }
}

// The event with this code of a kind.
#[inline(always)]
fn event_with(code: u32, raw: &RawEvent) -> Option<Event>
    ensures { result ≡ event_with raw.now (kind_of code) (core_of raw.now.core) }
{
    let kind = kind_of(code)?;
    let core = core_of(raw.core)?;
    event_at(kind, core, raw)
}

/// The event that C wrote, if it is one.
pub fn event_of(raw: &RawEvent) -> Option<Event>
    ensures { result ≡ event_of raw.now }
{
    event_with(raw.kind, raw)
}

/// What is added to the code of an event that a batch of calls is to take as one of events does.
const BEGIN: u32 = 64;

#[inline(always)]
fn item_of_event(event: Event) -> BatchItem
    ensures { result ≡ item_of_event event }
{
    match event {
        Event::Call(core, request) => BatchItem::Call(core, request),
        _ => BatchItem::Step(event),
    }
}

#[inline(always)]
fn item_at(kind: EventCode, core: CoreId, raw: &RawEvent) -> Option<BatchItem>
    ensures { result ≡ item_at kind core raw.now }
{
    if kind == EventCode::Finish {
        return Some(BatchItem::Finish(core));
    }
    let event = event_at(kind, core, raw)?;
    Some(item_of_event(event))
}

#[inline(always)]
fn whole_item(raw: &RawEvent) -> Option<BatchItem>
    ensures { result ≡ item_with raw.now (kind_of raw.now.kind) (core_of raw.now.core) }
{
    let kind = kind_of(raw.kind)?;
    let core = core_of(raw.core)?;
    item_at(kind, core, raw)
}

/// What the event that C wrote asks for in a batch of calls, if it is one.
#[inline(always)]
pub fn item_of(raw: &RawEvent) -> Option<BatchItem>
    ensures { result ≡ item_of raw.now }
{
    if raw.kind >= BEGIN {
        let event = event_with(raw.kind - BEGIN, raw)?;
        return Some(BatchItem::Step(event));
    }
    whole_item(raw)
}

/// What C writes for no event.
pub fn nothing() -> RawEvent
    ensures { result ≡ nothing }
{
    RawEvent {
        kind: 0,
        core: 0,
        at: 0,
        len: 0,
        file: 0,
        off: 0,
        prot: 0,
        flags: 0,
        byte: 0,
    }
}

/// What C writes for a call of the core.
pub fn call_code(core: CoreId, request: Request) -> RawEvent
    ensures { result ≡ call_code core request }
{
    let none = RawEvent {
        core: u32::from(core.index()),
        ..nothing()
    };
    match request {
        Request::Mmap {
            addr,
            len,
            prot,
            flags,
            file,
            off,
        } => RawEvent {
            kind: 1,
            at: addr,
            len,
            file,
            off,
            prot: bits_of_prot(prot),
            flags: bits_of_flags(flags),
            ..none
        },
        Request::Munmap { addr, len } => RawEvent {
            kind: 2,
            at: addr,
            len,
            ..none
        },
        Request::Mprotect { addr, len, prot } => RawEvent {
            kind: 3,
            at: addr,
            len,
            prot: bits_of_prot(prot),
            ..none
        },
        Request::Load { addr } => RawEvent {
            kind: 4,
            at: addr,
            ..none
        },
        Request::Store { addr, byte } => RawEvent {
            kind: 5,
            at: addr,
            byte: u32::from(byte),
            ..none
        },
        Request::Fetch { addr } => RawEvent {
            kind: 6,
            at: addr,
            ..none
        },
    }
}

fn errno_code(errno: Errno) -> u64
    ensures { result ≡ errno_code errno }
{
    match errno {
        Errno::EBADF => 9,
        Errno::ENOMEM => 12,
        Errno::EACCES => 13,
        Errno::EINVAL => 22,
        Errno::EOVERFLOW => 75,
    }
}

/// What C reads for the reply.
#[inline(always)]
pub fn reply_code(reply: Reply) -> RawOutcome
    ensures { result ≡ reply_code reply }
{
    match reply {
        Reply::Mapped(at) => RawOutcome { kind: 6, value: at },
        Reply::Done => RawOutcome { kind: 7, value: 0 },
        Reply::Byte(byte) => RawOutcome {
            kind: 8,
            value: u64::from(byte),
        },
        Reply::Refused(errno) => RawOutcome {
            kind: 9,
            value: errno_code(errno),
        },
        Reply::Segv(SegvCode::MapErr) => RawOutcome { kind: 10, value: 0 },
        Reply::Segv(SegvCode::AccErr) => RawOutcome { kind: 11, value: 0 },
        Reply::Bus => RawOutcome { kind: 12, value: 0 },
        Reply::NoFrame => RawOutcome { kind: 13, value: 0 },
        Reply::NoMemory => RawOutcome { kind: 14, value: 0 },
    }
}

fn wait_code(blocker: Blocker) -> RawOutcome
    ensures { result ≡ outcome_code (Outcome.Wait blocker) }
{
    match blocker {
        Blocker::Slot(core) => RawOutcome {
            kind: 2,
            value: u64::from(core.index()),
        },
        Blocker::Acks(cores) => RawOutcome {
            kind: 3,
            value: bits_of(cores),
        },
    }
}

/// What C reads for the outcome.
#[inline(always)]
pub fn outcome_code(outcome: Outcome) -> RawOutcome
    ensures { result ≡ outcome_code outcome }
{
    match outcome {
        Outcome::Stepped => RawOutcome { kind: 1, value: 0 },
        Outcome::Wait(blocker) => wait_code(blocker),
        Outcome::Idle => RawOutcome { kind: 4, value: 0 },
        Outcome::Full => RawOutcome { kind: 5, value: 0 },
        Outcome::Answered(reply) => reply_code(reply),
    }
}

/// What C reads as the result of a whole call.
#[inline(always)]
pub fn finished_code(finished: Finished) -> RawOutcome
    ensures { result ≡ finished_code finished }
{
    match finished {
        Finished::Last(outcome) => outcome_code(outcome),
        Finished::Stuck => RawOutcome { kind: 15, value: 0 },
    }
}
