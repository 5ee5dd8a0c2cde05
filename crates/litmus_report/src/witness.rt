//! A witness of an outcome: a trace that `run` reads.
ghost use Rattle.std.specs.Prelude.{◌≡◌, ◌+◌, ◌≤◌, ◌++◌, ◌<◌, IfOk, OnOk, Some, codes, decimal, drop, false, length, min, replicate, slice_get, take, true};
ghost use Rattle.std.specs.List.{flat_map};
ghost use Rattle.machine_model.specs.declared.event.Event.TheVariants.{Call, Go};
ghost use Rattle.trace_words.specs.Written.{request_words, spaced};
ghost use Rattle.trace_text.specs.Lists.{start_of};
ghost use Rattle.litmus_report.specs.Witness.{IsPiece, IsTrace, StandFor, core_line, event_line, goes_on, part_line, part_text};

use crate::texts::{add_core, add_number, add_text};
use machine_model::Event;
use std::alloc::Allocator;
use trace_text::{LineText, push_start};
use trace_words::request_text::push_request;
use vm_base::{CoreId, NoMemory, Request};

/// How many bytes of an outcome's text stand in the comment, which is a line of a trace.
const COMMENT: usize = 250;

/// What a line of a witness stands for.
#[derive(Clone, Copy)]
pub enum WitnessLine {
    /// `cC! REQ`: a call and all its steps.
    Now(CoreId, Request),
    /// `cC finish`: the last steps of the core's call.
    Finish(CoreId),
    /// One event.
    One(Event),
}

// Tells whether the next event of the core's call goes on with it, before a new call begins.
fn goes_on(core: CoreId, events: &[Event]) -> bool
    ensures { result ≡ goes_on core events.now }
{
    for event in events {
        match *event {
            Event::Call(other, _) => {
                if other.index() == core.index() {
                    return false;
                }
            }
            Event::Go(other)
            | Event::Frame(other, _)
            | Event::Guess(other, _)
            | Event::Whole(other)
            | Event::GiveUp(other) => {
                if other.index() == core.index() {
                    return true;
                }
            }
            Event::Take(_)
            | Event::Walk(..)
            | Event::Evict(..)
            | Event::Flush(_)
            | Event::Review(_)
            | Event::Fold(_) => {}
        }
    }
    false
}

// Tells whether this is a step of the core's call.
fn is_go(core: CoreId, event: Event) -> bool
    ensures { result ≡ true → event ≡ Go core }
{
    match event {
        Event::Go(other) => other.index() == core.index(),
        _ => false,
    }
}

// How many of the events from this place on are steps of the core's call, one behind another.
#[tactic(auto, using(crate::proofs::PartLemmas::steps_more))]
fn count_steps(core: CoreId, events: &[Event], from: usize) -> usize
    requires { from ≤ length events.now }
    ensures within { from + result ≤ length events.now }
    ensures steps { drop from events.now ≡ replicate result (Go core) ++ drop (from + result) events.now }
{
    let mut count = 0;
    'steps: while from + count < events.len() && is_go(core, events[from + count]) {
        count += 1;
    }
    count
}

// Tells whether the core's call ends in front of this place.
fn ends_before(core: CoreId, events: &[Event], place: usize) -> bool
    requires { place ≤ length events.now }
    ensures { result ≡ true → goes_on core (drop place events.now) ≡ false }
{
    let (_, rest) = events.split_at(place);
    !goes_on(core, rest)
}

// A part, and the place of the event behind those for which it stands.
#[derive(Clone, Copy)]
struct Piece {
    part: WitnessLine,
    next: usize,
}

// The part of the event at this place alone.
#[tactic(auto, using(crate::proofs::PartLemmas::one_stands))]
fn one_at(events: &[Event], at: usize) -> Piece
    requires { at < length events.now }
    ensures { IsPiece events.now at result }
{
    Piece {
        part: WitnessLine::One(events[at]),
        next: at + 1,
    }
}

// The part of the call that begins at this place.
#[tactic(auto, using(crate::proofs::PartLemmas::now_stands))]
fn call_at(events: &[Event], at: usize, core: CoreId, request: Request) -> Piece
    requires within { at < length events.now }
    requires call { slice_get events.now at ≡ Some (Call core request) }
    ensures { IsPiece events.now at result }
{
    let count = count_steps(core, events, at + 1);
    let next = at + 1 + count;
    if count > 0 && ends_before(core, events, next) {
        return Piece {
            part: WitnessLine::Now(core, request),
            next,
        };
    }
    one_at(events, at)
}

// The part of the core's step at this place.
#[tactic(auto, using(crate::proofs::PartLemmas::finish_stands))]
fn step_at(events: &[Event], at: usize, core: CoreId) -> Piece
    requires { at < length events.now }
    ensures { IsPiece events.now at result }
{
    let count = count_steps(core, events, at);
    let next = at + count;
    if count > 0 && ends_before(core, events, next) {
        return Piece {
            part: WitnessLine::Finish(core),
            next,
        };
    }
    one_at(events, at)
}

// The part that stands for the event at this place, and for others behind it.
fn piece_at(events: &[Event], at: usize) -> Piece
    requires { at < length events.now }
    ensures { IsPiece events.now at result }
{
    let event = events[at];
    match event {
        Event::Call(core, request) => call_at(events, at, core, request),
        Event::Go(core) => step_at(events, at, core),
        _ => one_at(events, at),
    }
}

/// Parts that stand for the events. `Err` says that memory was refused.
#[tactic(auto, using(crate::proofs::PartLemmas::parts_more, crate::proofs::PartLemmas::parts_all))]
pub fn parts_of<A: Allocator>(alloc: A, events: &[Event]) -> Result<Vec<WitnessLine, A>, NoMemory>
    ensures { IfOk result (λ parts. StandFor parts.items events.now) }
{
    let mut parts: Vec<WitnessLine, A> = Vec::new(alloc);
    let mut at = 0;
    'events: while at < events.len() {
        let piece = piece_at(events, at);
        parts.push(piece.part)?;
        at = piece.next;
    }
    Ok(parts)
}

/// Appends the words of a request, each behind a space.
pub(crate) fn add_request<A: Allocator>(
    out: &mut Vec<u8, A>,
    request: Request,
) -> Result<(), NoMemory>
    ensures { OnOk result (out.new.items ≡ out.old.items ++ spaced (request_words request)) }
{
    let mut text = LineText::new();
    push_request(&mut text, request);
    out.extend_from_slice(text.as_str().as_bytes())?;
    Ok(())
}

// Appends the address at which the page begins.
fn add_page<A: Allocator>(out: &mut Vec<u8, A>, page: u64) -> Result<(), NoMemory>
    ensures { OnOk result (out.new.items ≡ out.old.items ++ start_of page) }
{
    let mut text = LineText::new();
    push_start(&mut text, page);
    out.extend_from_slice(text.as_str().as_bytes())?;
    Ok(())
}

// Appends a core's word, and words behind it.
fn add_line<A: Allocator>(out: &mut Vec<u8, A>, core: CoreId, words: &str) -> Result<(), NoMemory>
    ensures { OnOk result (out.new.items ≡ out.old.items ++ core_line core words.now) }
{
    add_core(out, u64::from(core.index()))?;
    add_text(out, words)
}

// Appends a core's word, words behind it, and a request.
fn add_asking<A: Allocator>(
    out: &mut Vec<u8, A>,
    core: CoreId,
    words: &str,
    request: Request,
) -> Result<(), NoMemory>
    ensures { OnOk result (out.new.items ≡ out.old.items ++ core_line core (words.now ++ spaced (request_words request))) }
{
    add_line(out, core, words)?;
    add_request(out, request)
}

// Appends a core's word, words behind it, and a page.
fn add_paged<A: Allocator>(
    out: &mut Vec<u8, A>,
    core: CoreId,
    words: &str,
    page: u64,
) -> Result<(), NoMemory>
    ensures { OnOk result (out.new.items ≡ out.old.items ++ core_line core (words.now ++ codes " " ++ start_of page)) }
{
    add_line(out, core, words)?;
    add_text(out, " ")?;
    add_page(out, page)
}

// Appends a core's word, and that it takes a frame.
fn add_framed<A: Allocator>(out: &mut Vec<u8, A>, core: CoreId, frame: u64) -> Result<(), NoMemory>
    ensures { OnOk result (out.new.items ≡ out.old.items ++ core_line core (codes " frame" ++ codes " " ++ decimal frame)) }
{
    add_line(out, core, " frame")?;
    add_text(out, " ")?;
    add_number(out, frame)
}

// Appends a fold.
fn add_fold<A: Allocator>(out: &mut Vec<u8, A>, page: u64) -> Result<(), NoMemory>
    ensures { OnOk result (out.new.items ≡ out.old.items ++ codes "fold " ++ start_of page) }
{
    add_text(out, "fold ")?;
    add_page(out, page)
}

// Appends an event, as a line of a trace has it.
fn add_event<A: Allocator>(out: &mut Vec<u8, A>, event: Event) -> Result<(), NoMemory>
    ensures { OnOk result (out.new.items ≡ out.old.items ++ event_line event) }
{
    match event {
        Event::Call(core, request) => add_asking(out, core, " call", request),
        Event::Go(core) => add_line(out, core, " go"),
        Event::Frame(core, frame) => add_framed(out, core, frame),
        Event::Guess(core, page) => add_paged(out, core, " guess", page),
        Event::Whole(core) => add_line(out, core, " whole"),
        Event::Take(core) => add_line(out, core, " take"),
        Event::Walk(core, page) => add_paged(out, core, " walk", page),
        Event::Evict(core, page) => add_paged(out, core, " evict", page),
        Event::Flush(core) => add_line(out, core, " flush"),
        Event::Review(core) => add_line(out, core, " review"),
        Event::Fold(page) => add_fold(out, page),
        Event::GiveUp(core) => add_line(out, core, " giveup"),
    }
}

// Appends a part, as a line of a trace has it.
fn add_part<A: Allocator>(out: &mut Vec<u8, A>, part: WitnessLine) -> Result<(), NoMemory>
    ensures { OnOk result (out.new.items ≡ out.old.items ++ part_line part) }
{
    match part {
        WitnessLine::Now(core, request) => add_asking(out, core, "!", request),
        WitnessLine::Finish(core) => add_line(out, core, " finish"),
        WitnessLine::One(event) => add_event(out, event),
    }
}

// Appends parts, each as a line with its newline.
fn add_parts<A: Allocator>(out: &mut Vec<u8, A>, parts: &[WitnessLine]) -> Result<(), NoMemory>
    ensures { OnOk result (out.new.items ≡ out.old.items ++ flat_map part_text parts.now) }
{
    for part in parts {
        add_part(out, *part)?;
        add_text(out, "\n")?;
    }
    Ok(())
}

// What is told of an outcome in a comment.
fn in_comment(outcome: &[u8]) -> &[u8]
    ensures { result.now ≡ take (min (length outcome.now) 250) outcome.now }
{
    let (front, _) = outcome.split_at(outcome.len().min(COMMENT));
    front
}

/// The trace of a witness: a comment that tells the outcome, or 250 bytes of it, the lines of the declaration and of the opening as they stand, and lines that
/// stand for its events: a call in one line where no other event comes between its steps. `Err` says that memory was refused.
pub fn trace_of<A: Allocator + Clone>(
    alloc: &A,
    outcome: &[u8],
    front: &[u8],
    events: &[Event],
) -> Result<Vec<u8, A>, NoMemory>
    ensures { IfOk result (λ text. IsTrace outcome.now front.now events.now text.items) }
{
    let parts = parts_of(alloc.clone()?, events)?;
    let mut out: Vec<u8, A> = Vec::new(alloc.clone()?);
    add_text(&mut out, "# ")?;
    out.extend_from_slice(in_comment(outcome))?;
    add_text(&mut out, "\n")?;
    out.extend_from_slice(front)?;
    add_parts(&mut out, parts.as_slice())?;
    Ok(out)
}
