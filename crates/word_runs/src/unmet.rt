//! Facts of a litmus test's clauses that no outcome decides, since a call never has such a reply.
ghost use Rattle.std.specs.Prelude.{◌≡◌};
ghost use Rattle.vm_base.specs.Requests.{is_access};
ghost use Rattle.word_runs.specs.Answering.{is_value, may_answer};

use arrayvec::ArrayString;
use litmus_merges::Asked;
use litmus_text::places::call_at;
use litmus_text::{Clause, Fact, LitmusTest, read_litmus};
use std::alloc::Global;
use std::fmt::Write as Format;
use std::io::Write;
use vm_base::{CoreId, Reply, Request};
use word_parts::keeping::KeptText;
use word_parts::pointing::{Report, word_at, word_start, words_in};

// Tells whether it reads or writes a byte, and changes no mapping.
fn is_access(request: Request) -> bool
    ensures { result ≡ is_access request }
{
    match request {
        Request::Load { .. } | Request::Store { .. } | Request::Fetch { .. } => true,
        Request::Mmap { .. } | Request::Munmap { .. } | Request::Mprotect { .. } => false,
    }
}

// Tells whether the reply says that the call was done.
fn is_value(request: Request, reply: Reply) -> bool
    ensures { result ≡ is_value request reply }
{
    match (request, reply) {
        (Request::Mmap { .. }, Reply::Mapped(_)) => true,
        (Request::Load { .. } | Request::Fetch { .. }, Reply::Byte(_)) => true,
        (Request::Munmap { .. } | Request::Mprotect { .. } | Request::Store { .. }, Reply::Done) =>
            true,
        _ => false,
    }
}

/// Tells whether a call that asks for this may have such a reply.
pub fn may_answer(request: Request, reply: Reply) -> bool
    ensures { result ≡ may_answer request reply }
{
    match reply {
        Reply::Refused(_) => !is_access(request),
        Reply::Segv(_) | Reply::Bus => is_access(request),
        Reply::NoFrame | Reply::NoMemory => true,
        Reply::Mapped(_) | Reply::Done | Reply::Byte(_) => is_value(request, reply),
    }
}

// A call that a fact names, and what it asks for.
#[derive(Clone, Copy)]
struct NamedCall {
    core: CoreId,
    number: u64,
    request: Request,
}

// The call of a fact that names a reply which the call never has.
fn unmet(calls: &[Asked], fact: Fact) -> Option<NamedCall> {
    let (core, number, reply) = match fact {
        Fact::Has(core, number, reply) | Fact::Lacks(core, number, reply) => (core, number, reply),
        Fact::Shows(_, _) => return None,
    };
    let at = call_at(calls, core, number)?;
    let request = calls.get(at)?.request;
    if may_answer(request, reply) {
        return None;
    }
    Some(NamedCall {
        core,
        number,
        request,
    })
}

// What a call is, and which replies it has.
fn told_of(request: Request) -> (&'static str, &'static str) {
    match request {
        Request::Mmap { .. } => (
            "an mmap",
            "an address such as 0x10000, or an error such as enomem",
        ),
        Request::Munmap { .. } => ("an munmap", "done or an error such as einval"),
        Request::Mprotect { .. } => ("an mprotect", "done or an error such as enomem"),
        Request::Load { .. } => (
            "a load",
            "a byte from 0 to 255, in decimal, segv maperr, segv accerr or bus",
        ),
        Request::Store { .. } => ("a store", "done, segv maperr, segv accerr or bus"),
        Request::Fetch { .. } => (
            "a fetch",
            "a byte from 0 to 255, in decimal, segv maperr, segv accerr or bus",
        ),
    }
}

// Where the line names the call first.
fn name_at(line: &[u8], name: &str) -> usize {
    for index in 0..words_in(line) {
        if word_at(line, index) == name.as_bytes() {
            return word_start(line, index);
        }
    }
    0
}

// Warns of a fact of the line with this number.
fn warn<E: Write>(
    call: NamedCall,
    number: u64,
    name: &str,
    is_coloured: bool,
    kept: &KeptText,
    errors: &mut E,
) {
    let (what, replies) = told_of(call.request);
    let mut place: ArrayString<32> = ArrayString::new();
    let _ = write!(place, "c{}.{}", call.core.index(), call.number);
    let mut words: ArrayString<96> = ArrayString::new();
    let _ = write!(words, "note: {place} is {what}, which never replies so");
    let mut report = Report::new(errors, name, Some(number), words.as_str(), is_coloured);
    if let Some(line) = kept.line(number) {
        report.point(line, name_at(line, place.as_str()));
    }
    report.expect(replies);
}

// Warns of the facts of a clause that no outcome decides.
fn warn_of_clause<E: Write>(
    test: &LitmusTest<Global>,
    clause: &Clause<Global>,
    name: &str,
    is_coloured: bool,
    kept: &KeptText,
    errors: &mut E,
) {
    for term in clause.terms.as_slice() {
        if let Some(call) = unmet(test.calls.as_slice(), term.fact) {
            warn(call, clause.line, name, is_coloured, kept, errors);
        }
    }
}

/// Warns of each fact of a clause that no outcome decides, in the litmus test with this name: one that names a reply which the call never has.
pub fn warn_of_unmet<E: Write>(
    alloc: Global,
    name: &str,
    is_coloured: bool,
    kept: &KeptText,
    errors: &mut E,
) {
    if kept.before() > 0 {
        return;
    }
    let Ok(test) = read_litmus(&alloc, kept.text()) else {
        return;
    };
    for clause in test.clauses.as_slice() {
        warn_of_clause(&test, clause, name, is_coloured, kept, errors);
    }
}
