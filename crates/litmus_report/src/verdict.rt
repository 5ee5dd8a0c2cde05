//! What clauses come to, by the outcomes of a litmus test.
ghost use Rattle.std.specs.Prelude.{◌≡◌, ◌&&◌, ◌≤◌, Bool, List, filter, length, map, not};
ghost use Rattle.std.specs.List.{list_any};
ghost use Rattle.litmus_merges.specs.declared.asked.Asked.{Asked as AskedOf};
ghost use Rattle.litmus_report.specs.Verdicts.{Outcome, at_place, condition_holds, count_so, existence, fact_holds, is_code, is_errno, is_given, is_reply, names_lack};
ghost use Rattle.litmus_report.specs.Verdicts.{is_or, is_so, judged, opposite, place_of, reply_to};
ghost use Rattle.litmus_text.specs.declared.facts.Term.{Term as TermOf};

use audit_text::allowing::is_lacking;
use litmus_merges::Asked;
use litmus_text::facts::{Connective, Fact, Term};
use litmus_text::kinds::Quantifier;
use litmus_text::places::call_at;
use slot_lock::MapLine;
use vm_base::{CoreId, Errno, Reply, SegvCode};

/// What a clause comes to.
#[derive(Clone, Copy)]
pub enum ClauseVerdict {
    /// It is so.
    Holds,
    /// It isn't.
    Fails,
    /// An outcome decides it that isn't known to come about, or not all outcomes are known.
    Open,
}

/// An outcome of a litmus test.
pub trait HasOutcome {
    ghost use Rattle.std.specs.Prelude.{◌≡◌};
    ghost use Rattle.litmus_report.specs.Verdicts.{Outcome};

    /// What it is.
    ghost outcome: { Self → Outcome };

    /// The reply to each call, in the order of the calls.
    fn replies(&self) -> &[Reply]
        ensures { result.now ≡ (outcome self.now).replies };

    /// What a load of each final address shows, in the order of these.
    fn finals(&self) -> &[Reply]
        ensures { result.now ≡ (outcome self.now).finals };

    /// All mappings in the end, in order, where they were asked for.
    fn maps(&self) -> &[MapLine]
        ensures { result.now ≡ (outcome self.now).maps };

    /// Tells whether it is known to come about.
    fn is_reached(&self) -> bool
        ensures { result ≡ (outcome self.now).reached };
}

/// What an outcome tells of, and what the facts of a clause are about: the calls of the lists, and the final addresses; and whether
/// the mappings in the end belong to an outcome.
#[derive(Clone, Copy)]
pub struct Named<'a> {
    pub calls: &'a [Asked],
    pub addrs: &'a [u64],
    pub maps: bool,
}

fn is_errno(one: Errno, other: Errno) -> bool
    ensures { result ≡ is_errno one other }
{
    match one {
        Errno::EINVAL => matches!(other, Errno::EINVAL),
        Errno::ENOMEM => matches!(other, Errno::ENOMEM),
        Errno::EACCES => matches!(other, Errno::EACCES),
        Errno::EBADF => matches!(other, Errno::EBADF),
        Errno::EOVERFLOW => matches!(other, Errno::EOVERFLOW),
    }
}

fn is_code(one: SegvCode, other: SegvCode) -> bool
    ensures { result ≡ is_code one other }
{
    match one {
        SegvCode::MapErr => matches!(other, SegvCode::MapErr),
        SegvCode::AccErr => matches!(other, SegvCode::AccErr),
    }
}

// Tells whether two replies are the same.
fn is_reply(one: Reply, other: Reply) -> bool
    ensures { result ≡ is_reply one other }
{
    match one {
        Reply::Mapped(a) => match other {
            Reply::Mapped(b) => a == b,
            _ => false,
        },
        Reply::Done => matches!(other, Reply::Done),
        Reply::Byte(a) => match other {
            Reply::Byte(b) => a == b,
            _ => false,
        },
        Reply::Refused(a) => match other {
            Reply::Refused(b) => is_errno(a, b),
            _ => false,
        },
        Reply::Segv(a) => match other {
            Reply::Segv(b) => is_code(a, b),
            _ => false,
        },
        Reply::Bus => matches!(other, Reply::Bus),
        Reply::NoFrame => matches!(other, Reply::NoFrame),
        Reply::NoMemory => matches!(other, Reply::NoMemory),
    }
}

fn is_given(given: Option<Reply>, reply: Reply) -> bool
    ensures { result ≡ is_given given reply }
{
    match given {
        Some(other) => is_reply(other, reply),
        None => false,
    }
}

// The place of an address among others, the first that it has.
fn place_of(addrs: &[u64], addr: u64) -> Option<usize>
    ensures { result ≡ place_of addrs.now addr }
{
    for (at, other) in addrs.iter().enumerate() {
        if *other == addr {
            return Some(at);
        }
    }
    None
}

// What is answered at a place.
fn at_place(replies: &[Reply], place: Option<usize>) -> Option<Reply>
    ensures { result ≡ at_place replies.now place }
{
    let at = place?;
    replies.get(at).copied()
}

// The reply to the core's call with this number.
fn reply_to<T: HasOutcome>(
    named: &Named<'_>,
    outcome: &T,
    core: CoreId,
    number: u64,
) -> Option<Reply>
    ensures { result ≡ reply_to named.now.calls.now (T.outcome outcome.now).replies core number }
{
    at_place(outcome.replies(), call_at(named.calls, core, number))
}

/// Tells whether a fact holds of an outcome.
pub fn fact_holds<T: HasOutcome>(named: &Named<'_>, outcome: &T, fact: Fact) -> bool
    ensures { result ≡ fact_holds named.now.calls.now named.now.addrs.now (T.outcome outcome.now) fact }
{
    match fact {
        Fact::Has(core, number, reply) => is_given(reply_to(named, outcome, core, number), reply),
        Fact::Lacks(core, number, reply) => !is_given(
            reply_to(named, outcome, core, number),
            reply,
        ),
        Fact::Shows(addr, byte) => is_given(
            at_place(outcome.finals(), place_of(named.addrs, addr)),
            Reply::Byte(byte),
        ),
    }
}

// Tells whether a fact names a reply for want of a frame or of memory.
fn names_lack(fact: Fact) -> bool
    ensures { result ≡ names_lack fact }
{
    match fact {
        Fact::Has(_, _, reply) => is_lacking(reply),
        Fact::Lacks(_, _, reply) => is_lacking(reply),
        Fact::Shows(..) => false,
    }
}

/// Tells whether one of the facts names a reply for want of a frame or of memory.
pub(crate) fn name_lack(terms: &[Term]) -> bool
    ensures { result ≡ list_any (λ t. names_lack t.fact) terms.now }
{
    for term in terms {
        if names_lack(term.fact) {
            return true;
        }
    }
    false
}

fn is_or(joint: Connective) -> bool
    ensures { result ≡ is_or joint }
{
    matches!(joint, Connective::Or)
}

/// Tells whether the facts, joined as they stand, hold of an outcome. `and` binds closer than `or`.
pub fn condition_holds<T: HasOutcome>(named: &Named<'_>, terms: &[Term], outcome: &T) -> bool
    ensures { result ≡ condition_holds named.now.calls.now named.now.addrs.now terms.now (T.outcome outcome.now) }
{
    let mut held = false;
    for term in terms {
        let holds = fact_holds(named, outcome, term.fact);
        if is_or(term.joint) {
            if held {
                return true;
            }
            held = holds;
        } else {
            held = held && holds;
        }
    }
    held
}

// Tells whether the condition holds of an outcome, or whether it doesn't.
fn is_so<T: HasOutcome>(named: &Named<'_>, terms: &[Term], wanted: bool, outcome: &T) -> bool
    ensures { result ≡ is_so wanted (condition_holds named.now.calls.now named.now.addrs.now terms.now (T.outcome outcome.now)) }
{
    let held = condition_holds(named, terms, outcome);
    if wanted { held } else { !held }
}

// Tells whether it is so of an outcome.
fn is_some<T: HasOutcome>(named: &Named<'_>, terms: &[Term], wanted: bool, outcomes: &[T]) -> bool
    ensures { result ≡ list_any (λ o. is_so wanted (condition_holds named.now.calls.now named.now.addrs.now terms.now o))
        (map T.outcome outcomes.now) }
{
    for outcome in outcomes {
        if is_so(named, terms, wanted, outcome) {
            return true;
        }
    }
    false
}

// Tells whether it is so of an outcome that is known to come about.
fn is_some_reached<T: HasOutcome>(
    named: &Named<'_>,
    terms: &[Term],
    wanted: bool,
    outcomes: &[T],
) -> bool
    ensures { result ≡ list_any (λ o. o.reached && is_so wanted (condition_holds named.now.calls.now named.now.addrs.now terms.now o))
        (map T.outcome outcomes.now) }
{
    for outcome in outcomes {
        if outcome.is_reached() && is_so(named, terms, wanted, outcome) {
            return true;
        }
    }
    false
}

// Whether there is an outcome of which it is so.
fn existence<T: HasOutcome>(
    named: &Named<'_>,
    terms: &[Term],
    wanted: bool,
    outcomes: &[T],
    whole: bool,
) -> ClauseVerdict
    ensures { result ≡ existence (λ o. is_so wanted (condition_holds named.now.calls.now named.now.addrs.now terms.now o))
        (map T.outcome outcomes.now) whole }
{
    if is_some_reached(named, terms, wanted, outcomes) {
        ClauseVerdict::Holds
    } else if whole && !is_some(named, terms, wanted, outcomes) {
        ClauseVerdict::Fails
    } else {
        ClauseVerdict::Open
    }
}

fn opposite(verdict: ClauseVerdict) -> ClauseVerdict
    ensures { result ≡ opposite verdict }
{
    match verdict {
        ClauseVerdict::Holds => ClauseVerdict::Fails,
        ClauseVerdict::Fails => ClauseVerdict::Holds,
        ClauseVerdict::Open => ClauseVerdict::Open,
    }
}

/// What a clause comes to, by these outcomes: all that there are, where they are `whole`. One that isn't known to come about
/// decides none.
pub fn judge<T: HasOutcome>(
    named: &Named<'_>,
    quantifier: Quantifier,
    terms: &[Term],
    outcomes: &[T],
    whole: bool,
) -> ClauseVerdict
    ensures { result ≡ judged quantifier (condition_holds named.now.calls.now named.now.addrs.now terms.now)
        (map T.outcome outcomes.now) whole }
{
    match quantifier {
        Quantifier::Exists => existence(named, terms, true, outcomes, whole),
        Quantifier::Never => opposite(existence(named, terms, true, outcomes, whole)),
        Quantifier::Forall => opposite(existence(named, terms, false, outcomes, whole)),
    }
}

/// Of how many outcomes that are known to come about the condition holds, or doesn't hold, as is wanted.
pub fn count_so<T: HasOutcome>(
    named: &Named<'_>,
    terms: &[Term],
    wanted: bool,
    outcomes: &[T],
) -> usize
    ensures { result ≡ count_so (λ o. is_so wanted (condition_holds named.now.calls.now named.now.addrs.now terms.now o))
        (map T.outcome outcomes.now) }
{
    let mut count = 0usize;
    for outcome in outcomes {
        if outcome.is_reached() && is_so(named, terms, wanted, outcome) {
            count += 1;
        }
    }
    count
}
