//! What a line of an audited text says.
ghost use Rattle.std.specs.Prelude.{◌≡◌, ◌<◌, Option, Some, None, if◌then◌else◌, true, IfSome, IfNone};
ghost use Rattle.trace_text.specs.Line.{are_printable};
ghost use Rattle.trace_text.specs.Words.{words_of};
ghost use Rattle.audit_text.specs.Grammar.{Tells, TellsEvent};
ghost use Rattle.audit_text.specs.Replies.{is_unanswered};
ghost use Rattle.audit_text.specs.Reading.{act_said, begun_said, call_said, copy_said, declaration_of, declared_said, end_said, event_said, has_reply};
ghost use Rattle.audit_text.specs.Reading.{if_unanswered, passed_said, plain_said, said_of};

use crate::copy_line::read_copy;
use crate::replies::{is_nothing, is_step, is_unanswered, read_reply};
use audit::Call;
use trace_text::sign::halves;
use trace_text::{Action, Line, is_printable, read_line, read_words};
use vm_base::{CoreId, Mode, Reply, Request};

/// What a line of an audited text says.
#[derive(Clone, Copy)]
pub enum Said {
    /// Nothing: no word, or a comment.
    Blank,
    /// `vm CORES FRAMES CALLS`: the text is of a space, of so many cores.
    Space {
        cores: u64,
        frames: u64,
        calls: u64,
    },
    /// `file N MODE LEN SEED`: the file with this number is open for this, and has so many bytes. The byte at
    /// offset `i` is `(seed + i) mod 256`.
    File {
        number: u64,
        mode: Mode,
        len: u64,
        seed: u8,
    },
    /// `cC! REQ = REPLY`: a call, and what it was answered.
    Answered(Call),
    /// `cC! REQ = wait ..` or `cC call REQ = step`: a call that has no reply yet.
    Waits(CoreId, Request),
    /// `cC finish = REPLY` or `cC go = REPLY`: what the core's call, which waited, was answered.
    Ends(CoreId, Reply),
    /// `cC finish = wait ..`, `cC go = step` and the like: the core's call still waits.
    StillWaits(CoreId),
    /// `cC copy ADDR`: the private page with this number, the address's, gets its copy now.
    Copies(u64),
    /// A take, walk, eviction, flush, review or fold, which no user sees, or a line that did nothing.
    Passes,
}

// What is said where this is so, and else that nothing was done, if the text says it.
fn if_unanswered(is_so: bool, said: Said, text: &[u8]) -> Option<Said>
    ensures { result ≡ if_unanswered is_so said text.now }
{
    if is_so {
        return Some(said);
    }
    if is_nothing(text) {
        return Some(Said::Passes);
    }
    None
}

// What the line of a call says that is made and finished, and came to what is no reply. It isn't inlined: few lines come here.
#[inline(never)]
fn unanswered_said(core: CoreId, request: Request, text: &[u8]) -> Option<Said>
    ensures { result ≡ if_unanswered (is_unanswered text.now) (Said.Waits core request) text.now }
{
    if_unanswered(is_unanswered(text), Said::Waits(core, request), text)
}

// What the line of a call says that is made and finished, and came to this.
#[tactic(auto, unfolding(crate::specs::Reading::call_said))]
fn call_said(core: CoreId, request: Request, text: &[u8]) -> Option<Said>
    ensures { result ≡ call_said core request text.now }
{
    if let Some(reply) = read_reply(text) {
        return Some(Said::Answered(Call {
            core,
            request,
            reply,
        }));
    }
    unanswered_said(core, request, text)
}

// What the line says at which a call begins, and came to this.
#[tactic(auto, unfolding(crate::specs::Reading::begun_said))]
fn begun_said(core: CoreId, request: Request, text: &[u8]) -> Option<Said>
    ensures { result ≡ begun_said core request text.now }
{
    if_unanswered(is_step(text), Said::Waits(core, request), text)
}

// What the line says at which a core's call goes on, and came to this.
#[tactic(auto, unfolding(crate::specs::Reading::end_said))]
fn end_said(core: CoreId, text: &[u8]) -> Option<Said>
    ensures { result ≡ end_said core text.now }
{
    match read_reply(text) {
        Some(reply) => Some(Said::Ends(core, reply)),
        None => if_unanswered(
            is_unanswered(text) || is_step(text),
            Said::StillWaits(core),
            text,
        ),
    }
}

// What the line of an event says that is no call's, and came to this.
#[tactic(auto, unfolding(crate::specs::Reading::passed_said))]
fn passed_said(text: &[u8]) -> Option<Said>
    ensures { result ≡ passed_said text.now }
{
    if_unanswered(is_step(text), Said::Passes, text)
}

// What the line of one step says that came to this. It isn't inlined, so that the line of a call needs no room for its action.
#[inline(never)]
fn act_said(core: CoreId, action: Action, text: &[u8]) -> Option<Said>
    ensures { result ≡ act_said core action text.now }
{
    match action {
        Action::Call(request) => begun_said(core, request, text),
        Action::Go | Action::GiveUp | Action::Frame(_) | Action::Guess(_) | Action::Whole =>
            end_said(core, text),
        Action::Take | Action::Flush | Action::Review | Action::Walk(_) | Action::Evict(_) =>
            passed_said(text),
    }
}

// What the line of an event says that came to this.
fn event_said(line: Line, text: &[u8]) -> Option<Said>
    ensures { result ≡ event_said line text.now }
{
    match line {
        Line::Now(core, request) => call_said(core, request, text),
        Line::Finish(core) => end_said(core, text),
        Line::Act(core, action) => act_said(core, action, text),
        Line::Fold(_) => passed_said(text),
        Line::Blank | Line::Space { .. } | Line::File { .. } => None,
    }
}

// What an event, as these words say it, says that came to this.
#[tactic(auto, unfolding(crate::specs::Reading::said_of))]
fn read_event(front: &[u8], text: &[u8]) -> Option<Said>
    ensures { result ≡ said_of (words_of front.now) text.now }
{
    let line = read_words(front)?;
    event_said(line, text)
}

// What a line says that is no event's.
fn declared_said(line: Line) -> Option<Said>
    ensures { result ≡ declared_said line }
{
    match line {
        Line::Blank => Some(Said::Blank),
        Line::Space {
            cores,
            frames,
            calls,
        } => Some(Said::Space {
            cores,
            frames,
            calls,
        }),
        Line::File {
            number,
            mode,
            len,
            seed,
        } => Some(Said::File {
            number,
            mode,
            len,
            seed,
        }),
        Line::Act(..) | Line::Fold(_) | Line::Finish(_) | Line::Now(..) => None,
    }
}

/// What a line says that is no event's, as its bytes. It doesn't look whether all of these are printable.
#[tactic(auto, unfolding(crate::specs::Reading::declaration_of))]
pub fn read_declared(bytes: &[u8]) -> Option<Said>
    ensures { result ≡ declaration_of bytes.now }
{
    let line = read_line(bytes)?;
    declared_said(line)
}

// That a page is copied, where the line says it. It isn't inlined: few lines come here.
#[inline(never)]
#[tactic(auto, unfolding(crate::specs::Reading::copy_said))]
fn copy_said(bytes: &[u8]) -> Option<Said>
    ensures { result ≡ copy_said bytes.now }
{
    let page = read_copy(bytes)?;
    Some(Said::Copies(page))
}

// What a line without a sign says, as its bytes.
fn read_plain(bytes: &[u8]) -> Option<Said>
    ensures { result ≡ plain_said bytes.now }
{
    let declared = read_declared(bytes);
    if declared.is_some() {
        return declared;
    }
    copy_said(bytes)
}

// What an event's line says, `None` where it is no such line.
fn read_halves(bytes: &[u8]) -> Option<Said>
    ensures some { IfSome result (λ said. TellsEvent said bytes.now) }
    ensures none { IfNone result ((said : Said) → TellsEvent said bytes.now → ⊥) }
{
    let (front, text) = halves(bytes)?;
    read_event(front, text)
}

// Tells whether a line that says this has a reply after its sign: then it is read to its last byte, and has none but printable ones.
fn has_reply(said: &Said) -> bool
    ensures { result ≡ has_reply said.now }
{
    matches!(said, Said::Answered(_) | Said::Ends(..))
}

// What an event's line says, if all of it is printable. A line with a reply is.
#[tactic(auto, using(crate::proofs::EchoLemmas::reply_shown))]
fn if_printable(said: Said, line: &[u8]) -> Option<Said>
    requires { TellsEvent said line.now }
    ensures { result ≡ (if are_printable line.now then Some said else None) }
{
    if has_reply(&said) {
        return Some(said);
    }
    if is_printable(line) {
        return Some(said);
    }
    None
}

/// What the line says; `None` where it says nothing that an audited text may have at any place.
pub fn read_said(line: &[u8]) -> Option<Said>
    ensures some { IfSome result (λ said. Tells said line.now) }
    ensures none { IfNone result ((said : Said) → Tells said line.now → ⊥) }
{
    if let Some(said) = read_halves(line) {
        return if_printable(said, line);
    }
    if !is_printable(line) {
        return None;
    }
    read_plain(line)
}
