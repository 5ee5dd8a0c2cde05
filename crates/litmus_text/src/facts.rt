//! What a clause says of an outcome: facts, joined by `and` and `or`.
ghost use Rattle.std.specs.Prelude.{◌≡◌, IfOk, option_map};
ghost use Rattle.trace_text.specs.Line.{core_of};
ghost use Rattle.trace_text.specs.Words.{words_of};
ghost use Rattle.litmus_text.specs.Facts.{call_named, fact_of, front_fact, front_reply, front_segv, joint_of, place_has, place_lacks};
ghost use Rattle.litmus_text.specs.Facts.{segv_of, shows, single_reply, terms_of};
ghost use Rattle.litmus_text.specs.Next.{Follows};

use audit_text::replies::read_reply;
use import_forms::tokens::split_last;
use std::alloc::Allocator;
use trace_text::core_line::read_core_number;
use trace_text::number::read_number;
use trace_text::words::next_word;
use vm_base::{CoreId, NoMemory, Reply, SegvCode};

/// How many facts a clause may have: a line has room for no more.
pub const TERM_LIMIT: usize = 32;

/// What is so or not in an outcome.
#[derive(Clone, Copy)]
pub enum Fact {
    /// `cC.N = REPLY`: the core's call with this number, from 1, has this reply.
    Has(CoreId, u64, Reply),
    /// `cC.N != REPLY`: it has another one.
    Lacks(CoreId, u64, Reply),
    /// `ADDR = BYTE`: a load of the address, which a `final` line names, shows this byte in the end.
    Shows(u64, u8),
}

/// What stands between facts. `and` binds closer than `or`.
#[derive(Clone, Copy)]
pub enum Connective {
    And,
    Or,
}

/// A fact, and the joint in front of it. The first of a clause has `or`.
#[derive(Clone, Copy)]
pub struct Term {
    pub joint: Connective,
    pub fact: Fact,
}

// What follows a fact.
#[derive(Clone, Copy)]
enum Next<'a> {
    // Nothing.
    End,
    // A joint, and these words.
    Joined(Connective, &'a [u8]),
    // Another word.
    Other,
}

// The core that a word `cC` names.
fn read_core(word: &[u8]) -> Option<CoreId>
    ensures { result ≡ core_of word.now }
{
    match word {
        [b'c', digits @ ..] => read_core_number(digits),
        _ => None,
    }
}

// The core and the number of a word `cC.N`.
#[tactic(auto, unfolding(crate::specs::Facts::call_named))]
fn read_call(word: &[u8]) -> Option<(CoreId, u64)>
    ensures { result ≡ call_named word.now }
{
    let (front, behind) = split_last(word, b'.')?;
    let core = read_core(front)?;
    let number = read_number(behind)?;
    Some((core, number))
}

// What a load of the address shows that is answered so.
fn read_shown(addr: Option<u64>, reply: Reply) -> Option<Fact>
    ensures { result ≡ shows addr reply }
{
    let addr = addr?;
    match reply {
        Reply::Byte(byte) => Some(Fact::Shows(addr, byte)),
        _ => None,
    }
}

// What a place has: a call its reply, an address its byte.
fn read_has(place: &[u8], reply: Reply) -> Option<Fact>
    ensures { result ≡ place_has place.now (call_named place.now) reply }
{
    match read_call(place) {
        Some((core, number)) => Some(Fact::Has(core, number, reply)),
        None => read_shown(read_number(place), reply),
    }
}

// A call has another reply than this.
fn read_lacks(place: &[u8], reply: Reply) -> Option<Fact>
    ensures { result ≡ place_lacks (call_named place.now) reply }
{
    match read_call(place) {
        Some((core, number)) => Some(Fact::Lacks(core, number, reply)),
        None => None,
    }
}

fn read_fact(place: &[u8], sign: &[u8], reply: Reply) -> Option<Fact>
    ensures { result ≡ fact_of place.now sign.now reply }
{
    if sign == b"=".as_slice() {
        read_has(place, reply)
    } else if sign == b"!=".as_slice() {
        read_lacks(place, reply)
    } else {
        None
    }
}

// What follows the word `segv`.
fn read_code(code: &[u8]) -> Option<Reply>
    ensures { result ≡ segv_of code.now }
{
    if code == b"maperr".as_slice() {
        Some(Reply::Segv(SegvCode::MapErr))
    } else if code == b"accerr".as_slice() {
        Some(Reply::Segv(SegvCode::AccErr))
    } else {
        None
    }
}

#[tactic(auto, unfolding(crate::specs::Facts::front_segv))]
fn next_segv(words: &[u8]) -> Option<(Reply, &[u8])>
    ensures { option_map (λ f. (f.0, words_of f.1.now)) result ≡ front_segv (words_of words.now) }
{
    let (code, rest) = next_word(words)?;
    let reply = read_code(code)?;
    Some((reply, rest))
}

#[tactic(auto, unfolding(crate::specs::Facts::single_reply))]
fn single_reply<'a>(name: &[u8], rest: &'a [u8]) -> Option<(Reply, &'a [u8])>
    ensures { option_map (λ f. (f.0, words_of f.1.now)) result ≡ single_reply name.now (words_of rest.now) }
{
    let reply = read_reply(name)?;
    Some((reply, rest))
}

// The reply at the front, and the bytes after it.
#[tactic(auto, unfolding(crate::specs::Facts::front_reply))]
fn next_reply(words: &[u8]) -> Option<(Reply, &[u8])>
    ensures { option_map (λ f. (f.0, words_of f.1.now)) result ≡ front_reply (words_of words.now) }
{
    let (name, rest) = next_word(words)?;
    if name == b"segv".as_slice() {
        return next_segv(rest);
    }
    single_reply(name, rest)
}

// The fact at the front, and the bytes after it.
#[tactic(auto, unfolding(crate::specs::Facts::front_fact))]
fn next_fact(words: &[u8]) -> Option<(Fact, &[u8])>
    ensures { option_map (λ f. (f.0, words_of f.1.now)) result ≡ front_fact (words_of words.now) }
{
    let (place, rest) = next_word(words)?;
    let (sign, rest) = next_word(rest)?;
    let (reply, rest) = next_reply(rest)?;
    let fact = read_fact(place, sign, reply)?;
    Some((fact, rest))
}

fn read_joint(word: &[u8]) -> Option<Connective>
    ensures { result ≡ joint_of word.now }
{
    if word == b"and".as_slice() {
        Some(Connective::And)
    } else if word == b"or".as_slice() {
        Some(Connective::Or)
    } else {
        None
    }
}

// What follows a fact.
fn next_joint(words: &[u8]) -> Next<'_>
    ensures { Follows result (words_of words.now) }
{
    let Some((word, rest)) = next_word(words) else {
        return Next::End;
    };
    match read_joint(word) {
        Some(joint) => Next::Joined(joint, rest),
        None => Next::Other,
    }
}

/// The facts that the words of a clause say behind the first; `None` where they say none. `Err` says that memory was refused.
pub fn read_terms<A: Allocator>(alloc: A, words: &[u8]) -> Result<Option<Vec<Term, A>>, NoMemory>
    ensures { IfOk result (λ terms. option_map (λ t. t.items) terms ≡ terms_of (words_of words.now)) }
{
    let mut terms: Vec<Term, A> = Vec::new(alloc);
    let mut joint = Connective::Or;
    let mut rest = words;
    let mut left = TERM_LIMIT;
    'terms: while left > 0 {
        left -= 1;
        let Some((fact, more)) = next_fact(rest) else {
            return Ok(None);
        };
        terms.push(Term { joint, fact })?;
        match next_joint(more) {
            Next::End => return Ok(Some(terms)),
            Next::Joined(next, others) => {
                joint = next;
                rest = others;
            }
            Next::Other => return Ok(None),
        }
    }
    Ok(None)
}
