//! What a line of a history says.
ghost use Rattle.std.specs.Prelude.{◌≡◌, IfNone, IfSome};
ghost use Rattle.trace_text.specs.Words.{words_of};
ghost use Rattle.audit_text.specs.Grammar.{Tells as AuditTells};
ghost use Rattle.orders_text.specs.Lines.{Tells, TellsTimed, call_of, is_event, timed_of};
ghost use Rattle.orders_text.specs.declared.lines.HistoryLine.TheVariants.{Event};

use audit::Call;
use audit_text::reading::{Said, read_declared, read_said};
use audit_text::replies::read_reply;
use orders::Timed;
use trace_text::number::next_number;
use trace_text::sign::halves;
use trace_text::{Line, is_printable, read_words};

/// What a line of a history says.
#[derive(Clone, Copy)]
pub enum HistoryLine {
    /// A line of an audited text that tells no call.
    Part(Said),
    /// `BEGIN END cC! REQ = REPLY`: a call, and when it was under way.
    Timed(Timed),
    /// A line of an audited text that tells an event, and what it came to.
    Event(Said),
}

// The call that a line asks for, with this text as its reply.
#[tactic(auto, unfolding(crate::specs::Lines::call_of))]
fn call_of(line: Line, text: &[u8]) -> Option<Call>
    ensures { result ≡ call_of line text.now }
{
    match line {
        Line::Now(core, request) => {
            let reply = read_reply(text)?;
            Some(Call {
                core,
                request,
                reply,
            })
        }
        _ => None,
    }
}

// The call with its times that these words tell, with this text as its reply.
#[tactic(auto, unfolding(crate::specs::Lines::timed_of))]
fn timed_of(words: &[u8], text: &[u8]) -> Option<Timed>
    ensures { result ≡ timed_of (words_of words.now) text.now }
{
    let (begin, rest) = next_number(words)?;
    let (end, rest) = next_number(rest)?;
    let line = read_words(rest)?;
    let call = call_of(line, text)?;
    Some(Timed { begin, end, call })
}

// The call with its times that a line tells.
#[tactic(auto, using(crate::proofs::LineLemmas::timed_some, crate::proofs::LineLemmas::timed_none))]
fn read_timed(line: &[u8]) -> Option<Timed>
    ensures some { IfSome result (λ c. TellsTimed c line.now) }
    ensures none { IfNone result ((c : Timed) → TellsTimed c line.now → ⊥) }
{
    let (front, text) = halves(line)?;
    timed_of(front, text)
}

// Tells whether a line that says this tells an event.
fn is_event(said: &Said) -> bool
    ensures { result ≡ is_event said.now }
{
    match said {
        Said::Answered(_) | Said::Waits(..) | Said::Ends(..) | Said::StillWaits(_) | Said::Passes =>
            true,
        Said::Blank | Said::Space { .. } | Said::File { .. } | Said::Copies(_) => false,
    }
}

// The event that a line tells which says this.
#[tactic(auto, using(crate::proofs::LineLemmas::one_event, crate::proofs::LineLemmas::other_event))]
fn if_event(line: &[u8], said: Said) -> Option<Said>
    requires { AuditTells said line.now }
    ensures some { IfSome result (λ said. Tells (Event said) line.now) }
    ensures none { IfNone result ((said : Said) → Tells (Event said) line.now → ⊥) }
{
    if is_event(&said) {
        return Some(said);
    }
    None
}

// The event that a line tells.
#[tactic(auto, using(crate::proofs::LineLemmas::no_event))]
fn read_event(line: &[u8]) -> Option<Said>
    ensures some { IfSome result (λ said. Tells (Event said) line.now) }
    ensures none { IfNone result ((said : Said) → Tells (Event said) line.now → ⊥) }
{
    match read_said(line) {
        Some(said) => if_event(line, said),
        None => None,
    }
}

/// What the line says; `None` where it says nothing that a history may have at any place.
#[tactic(auto, using(crate::proofs::LineLemmas::dark_none, crate::proofs::LineLemmas::told_none, crate::proofs::LineLemmas::part_some))]
pub(crate) fn read_told(line: &[u8]) -> Option<HistoryLine>
    ensures some { IfSome result (λ told. Tells told line.now) }
    ensures none { IfNone result ((told : HistoryLine) → Tells told line.now → ⊥) }
{
    if !is_printable(line) {
        return None;
    }
    if let Some(timed) = read_timed(line) {
        return Some(HistoryLine::Timed(timed));
    }
    if let Some(said) = read_declared(line) {
        return Some(HistoryLine::Part(said));
    }
    match read_event(line) {
        Some(said) => Some(HistoryLine::Event(said)),
        None => None,
    }
}
