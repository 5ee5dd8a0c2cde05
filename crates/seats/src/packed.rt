//! Packed notes: most steps in sixteen bytes, a ticket, a kind, a core, a byte and a word.
ghost use Rattle.std.specs.Prelude.{◌≡◌, ◌+◌, ◌*◌, ◌^◌, false, IfSome, List, get_or};
ghost use Rattle.machine_model.specs.declared.event.Event.TheVariants.{Call, Go};
ghost use Rattle.machine_model.specs.declared.event.Outcome.TheVariants.{Answered, Stepped};
ghost use Rattle.seats.specs.Packing.{Says, event_said, is_in_full, note_of, nothing, outcome_said};
ghost use Rattle.seats.specs.declared.noted.Noted.{Noted};

use crate::noted::Noted;
use machine_model::{Event, Outcome};
use vm_base::{CoreId, Errno, Reply, Request, SegvCode};

/// What a packed note is of.
#[derive(Clone, Copy)]
pub enum NoteKind {
    /// The core begins a load, a store or a fetch.
    Load,
    Store,
    Fetch,
    /// A step of another kind than the beginning of a call, which answers none.
    Go,
    Frame,
    Guess,
    Whole,
    Take,
    Walk,
    Evict,
    Flush,
    Review,
    Fold,
    GiveUp,
    /// The core's call goes one step on, and is answered.
    Mapped,
    Done,
    Byte,
    Einval,
    Enomem,
    Eacces,
    Ebadf,
    Eoverflow,
    MapErr,
    AccErr,
    Bus,
    NoFrame,
    NoMemory,
    /// Any other step. It stands in full in a list of its own.
    InFull,
}

/// What a packed note says except for its ticket.
#[derive(Clone, Copy)]
pub struct Brief {
    pub kind: NoteKind,
    pub core: CoreId,
    pub byte: u8,
    pub word: u64,
}

/// A note in sixteen bytes. Where its kind is `InFull` the word is a place in the list of notes that stand in full.
#[derive(Clone, Copy)]
pub struct PackedNote {
    pub word: u64,
    /// The ticket, by its lower 32 bits and the 8 above.
    pub low: u32,
    pub high: u8,
    pub kind: NoteKind,
    pub core: CoreId,
    pub byte: u8,
}

// What says this of the core.
fn say(kind: NoteKind, core: CoreId, byte: u8, word: u64) -> Brief
    ensures { result ≡ record { kind = kind; core = core; byte = byte; word = word } }
{
    Brief {
        kind,
        core,
        byte,
        word,
    }
}

// The beginning of an access.
#[inline(always)]
fn brief_call(core: CoreId, request: &Request) -> Option<Brief>
    ensures { IfSome result (λ b. Says b (Call core request.now) Stepped) }
{
    match request {
        Request::Load { addr } => Some(say(NoteKind::Load, core, 0, *addr)),
        Request::Store { addr, byte } => Some(say(NoteKind::Store, core, *byte, *addr)),
        Request::Fetch { addr } => Some(say(NoteKind::Fetch, core, 0, *addr)),
        Request::Mmap { .. } | Request::Munmap { .. } | Request::Mprotect { .. } => None,
    }
}

// An event whose step has this outcome alone.
#[inline(always)]
fn brief_step(event: &Event) -> Option<Brief>
    ensures { IfSome result (λ b. Says b event.now Stepped) }
{
    match event {
        Event::Call(core, request) => brief_call(*core, request),
        Event::Go(core) => Some(say(NoteKind::Go, *core, 0, 0)),
        Event::Frame(core, frame) => Some(say(NoteKind::Frame, *core, 0, *frame)),
        Event::Guess(core, page) => Some(say(NoteKind::Guess, *core, 0, *page)),
        Event::Whole(core) => Some(say(NoteKind::Whole, *core, 0, 0)),
        Event::Take(core) => Some(say(NoteKind::Take, *core, 0, 0)),
        Event::Walk(core, page) => Some(say(NoteKind::Walk, *core, 0, *page)),
        Event::Evict(core, page) => Some(say(NoteKind::Evict, *core, 0, *page)),
        Event::Flush(core) => Some(say(NoteKind::Flush, *core, 0, 0)),
        Event::Review(core) => Some(say(NoteKind::Review, *core, 0, 0)),
        Event::Fold(page) => Some(say(NoteKind::Fold, CoreId::new(0), 0, *page)),
        Event::GiveUp(core) => Some(say(NoteKind::GiveUp, *core, 0, 0)),
    }
}

// The kind of a refusal.
fn refusal(errno: &Errno) -> NoteKind
    ensures { outcome_said result 0 0 ≡ Answered (Reply.Refused errno.now) }
{
    match errno {
        Errno::EINVAL => NoteKind::Einval,
        Errno::ENOMEM => NoteKind::Enomem,
        Errno::EACCES => NoteKind::Eacces,
        Errno::EBADF => NoteKind::Ebadf,
        Errno::EOVERFLOW => NoteKind::Eoverflow,
    }
}

// A step by which the core's call is answered.
#[inline(always)]
fn brief_answer(core: CoreId, reply: &Reply) -> Brief
    ensures { Says result (Go core) (Answered reply.now) }
{
    match reply {
        Reply::Mapped(addr) => say(NoteKind::Mapped, core, 0, *addr),
        Reply::Done => say(NoteKind::Done, core, 0, 0),
        Reply::Byte(byte) => say(NoteKind::Byte, core, *byte, 0),
        Reply::Refused(errno) => say(refusal(errno), core, 0, 0),
        Reply::Segv(SegvCode::MapErr) => say(NoteKind::MapErr, core, 0, 0),
        Reply::Segv(SegvCode::AccErr) => say(NoteKind::AccErr, core, 0, 0),
        Reply::Bus => say(NoteKind::Bus, core, 0, 0),
        Reply::NoFrame => say(NoteKind::NoFrame, core, 0, 0),
        Reply::NoMemory => say(NoteKind::NoMemory, core, 0, 0),
    }
}

// What says that the event has the outcome, where something does.
#[inline(always)]
fn brief_of(event: &Event, outcome: &Outcome) -> Option<Brief>
    ensures { IfSome result (λ b. Says b event.now outcome.now) }
{
    match outcome {
        Outcome::Stepped => brief_step(event),
        Outcome::Answered(reply) => match event {
            Event::Go(core) => Some(brief_answer(*core, reply)),
            _ => None,
        },
        Outcome::Wait(_) | Outcome::Idle | Outcome::Full => None,
    }
}

/// The note in sixteen bytes, where it goes into them: `None` where its step has no kind of its own, or its ticket
/// isn't below 2^40.
#[inline(always)]
pub(crate) fn pack(note: &Noted) -> Option<PackedNote>
    ensures says { IfSome result (λ p. (in_full : List Noted) → note_of in_full p ≡ note.now) }
    ensures short { IfSome result (λ p. is_in_full p.kind ≡ false) }
{
    if 1 << 40 <= note.ticket {
        return None;
    }
    let brief = brief_of(&note.event, &note.outcome)?;
    Some(PackedNote {
        word: brief.word,
        low: (note.ticket % (1 << 32)) as u32,
        high: (note.ticket / (1 << 32)) as u8,
        kind: brief.kind,
        core: brief.core,
        byte: brief.byte,
    })
}

/// What stands for a note that stands in full, at this place of its list.
pub(crate) fn placed(place: u64) -> PackedNote
    ensures kind { result.kind ≡ NoteKind.InFull }
    ensures word { result.word ≡ place }
{
    PackedNote {
        word: place,
        low: 0,
        high: 0,
        kind: NoteKind::InFull,
        core: CoreId::new(0),
        byte: 0,
    }
}

// The event of a note of this kind.
#[inline(always)]
fn event_of(packed: &PackedNote) -> Event
    ensures { result ≡ event_said packed.now.kind packed.now.core packed.now.byte packed.now.word }
{
    let core = packed.core;
    match packed.kind {
        NoteKind::Load => Event::Call(core, Request::Load { addr: packed.word }),
        NoteKind::Store => Event::Call(
            core,
            Request::Store {
                addr: packed.word,
                byte: packed.byte,
            },
        ),
        NoteKind::Fetch => Event::Call(core, Request::Fetch { addr: packed.word }),
        NoteKind::Frame => Event::Frame(core, packed.word),
        NoteKind::Guess => Event::Guess(core, packed.word),
        NoteKind::Whole => Event::Whole(core),
        NoteKind::Take => Event::Take(core),
        NoteKind::Walk => Event::Walk(core, packed.word),
        NoteKind::Evict => Event::Evict(core, packed.word),
        NoteKind::Flush => Event::Flush(core),
        NoteKind::Review => Event::Review(core),
        NoteKind::Fold => Event::Fold(packed.word),
        NoteKind::GiveUp => Event::GiveUp(core),
        _ => Event::Go(core),
    }
}

// The result of a note of this kind.
#[inline(always)]
fn outcome_of(packed: &PackedNote) -> Outcome
    ensures { result ≡ outcome_said packed.now.kind packed.now.byte packed.now.word }
{
    match packed.kind {
        NoteKind::Mapped => Outcome::Answered(Reply::Mapped(packed.word)),
        NoteKind::Done => Outcome::Answered(Reply::Done),
        NoteKind::Byte => Outcome::Answered(Reply::Byte(packed.byte)),
        NoteKind::Einval => Outcome::Answered(Reply::Refused(Errno::EINVAL)),
        NoteKind::Enomem => Outcome::Answered(Reply::Refused(Errno::ENOMEM)),
        NoteKind::Eacces => Outcome::Answered(Reply::Refused(Errno::EACCES)),
        NoteKind::Ebadf => Outcome::Answered(Reply::Refused(Errno::EBADF)),
        NoteKind::Eoverflow => Outcome::Answered(Reply::Refused(Errno::EOVERFLOW)),
        NoteKind::MapErr => Outcome::Answered(Reply::Segv(SegvCode::MapErr)),
        NoteKind::AccErr => Outcome::Answered(Reply::Segv(SegvCode::AccErr)),
        NoteKind::Bus => Outcome::Answered(Reply::Bus),
        NoteKind::NoFrame => Outcome::Answered(Reply::NoFrame),
        NoteKind::NoMemory => Outcome::Answered(Reply::NoMemory),
        _ => Outcome::Stepped,
    }
}

// The ticket of which these are the lower 32 bits and the 8 above.
fn ticket_of(low: u32, high: u8) -> u64
    ensures { result ≡ low + 2 ^ 32 * high }
{
    u64::from(low) + (1 << 32) * u64::from(high)
}

// The note that stands in full at the place; there is one.
fn full_note(place: u64, in_full: &[Noted]) -> Noted
    ensures { result ≡ get_or in_full.now place nothing }
{
    match in_full.get(place as usize) {
        Some(note) => *note,
        None => Noted {
            ticket: 0,
            event: Event::Fold(0),
            outcome: Outcome::Stepped,
        },
    }
}

/// The ticket of the note, beside those that stand in full.
pub(crate) fn ticket_beside(packed: &PackedNote, in_full: &[Noted]) -> u64
    ensures { result ≡ (note_of in_full.now packed.now).ticket }
{
    if let NoteKind::InFull = packed.kind {
        return full_note(packed.word, in_full).ticket;
    }
    ticket_of(packed.low, packed.high)
}

/// The note, beside those that stand in full.
#[inline(always)]
pub(crate) fn unpacked(packed: &PackedNote, in_full: &[Noted]) -> Noted
    ensures { result ≡ note_of in_full.now packed.now }
{
    if let NoteKind::InFull = packed.kind {
        return full_note(packed.word, in_full);
    }
    Noted {
        ticket: ticket_of(packed.low, packed.high),
        event: event_of(packed),
        outcome: outcome_of(packed),
    }
}
