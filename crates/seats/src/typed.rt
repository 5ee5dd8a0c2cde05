//! What numbers a note has by its types. None of these functions does anything.
ghost use Rattle.std.specs.Prelude.{◌<◌, ◌≤◌, ◌^◌};
ghost use Rattle.seats.specs.Fitting.{FitsAnswer, FitsBelow, FitsReply, FitsRequest, FitsTypes};

use crate::noted::Noted;
use machine_model::{Event, Outcome};
use vm_base::{CoreId, Reply, Request};

fn word_fits(word: u64)
    ensures { word < 2 ^ 64 }
{
    let _word = word;
}

fn byte_fits(byte: u8)
    ensures { byte ≤ 255 }
{
    let _byte = byte;
}

fn core_fits(core: CoreId)
    ensures { core < 64 }
{
    let _index = core.index();
}

fn request_fits(request: &Request)
    ensures { FitsRequest request.now }
{
    match request {
        Request::Mmap {
            addr,
            len,
            prot: _,
            flags: _,
            file,
            off,
        } => {
            word_fits(*addr);
            word_fits(*len);
            word_fits(*file);
            word_fits(*off);
        }
        Request::Munmap { addr, len } => {
            word_fits(*addr);
            word_fits(*len);
        }
        Request::Mprotect { addr, len, prot: _ } => {
            word_fits(*addr);
            word_fits(*len);
        }
        Request::Load { addr } => word_fits(*addr),
        Request::Store { addr, byte } => {
            word_fits(*addr);
            byte_fits(*byte);
        }
        Request::Fetch { addr } => word_fits(*addr),
    }
}

fn event_fits(event: &Event)
    ensures { FitsBelow (2 ^ 64) event.now }
{
    match event {
        Event::Call(core, request) => {
            core_fits(*core);
            request_fits(request);
        }
        Event::Go(core) => core_fits(*core),
        Event::Frame(core, frame) => {
            core_fits(*core);
            word_fits(*frame);
        }
        Event::Guess(core, page) => {
            core_fits(*core);
            word_fits(*page);
        }
        Event::Whole(core) => core_fits(*core),
        Event::Take(core) => core_fits(*core),
        Event::Walk(core, page) => {
            core_fits(*core);
            word_fits(*page);
        }
        Event::Evict(core, page) => {
            core_fits(*core);
            word_fits(*page);
        }
        Event::Flush(core) => core_fits(*core),
        Event::Review(core) => core_fits(*core),
        Event::Fold(page) => word_fits(*page),
        Event::GiveUp(core) => core_fits(*core),
    }
}

fn reply_fits(reply: &Reply)
    ensures { FitsReply reply.now }
{
    match reply {
        Reply::Mapped(address) => word_fits(*address),
        Reply::Byte(byte) => byte_fits(*byte),
        Reply::Done
        | Reply::Refused(_)
        | Reply::Segv(_)
        | Reply::Bus
        | Reply::NoFrame
        | Reply::NoMemory => {}
    }
}

fn outcome_fits(outcome: &Outcome)
    ensures { FitsAnswer outcome.now }
{
    match outcome {
        Outcome::Answered(reply) => reply_fits(reply),
        Outcome::Stepped | Outcome::Wait(_) | Outcome::Idle | Outcome::Full => {}
    }
}

/// Its types say so of a note. It does nothing.
pub(crate) fn note_fits(note: &Noted)
    ensures { FitsTypes note.now }
{
    word_fits(note.ticket);
    event_fits(&note.event);
    outcome_fits(&note.outcome);
}
