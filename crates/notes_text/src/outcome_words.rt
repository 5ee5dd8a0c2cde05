//! What the words of an outcome say, as `trace_words::outcome_text` writes them.
ghost use Rattle.std.specs.Prelude.{◌≡◌};
ghost use Rattle.trace_text.specs.Request.{ended};
ghost use Rattle.trace_text.specs.Words.{words_of};
ghost use Rattle.notes_text.specs.Outcomes.{acks_of, alone, named_of, outcome_of, segv_of, single_of};
ghost use Rattle.notes_text.specs.Outcomes.{slot_of, wait_of};

use machine_model::{Blocker, Outcome};
use trace_text::core_line::read_core_number;
use trace_text::value::read_value;
use trace_text::words::next_word;
use vm_base::{CoreSet, Errno, Reply, SegvCode};

// The outcome of one word that is no number.
fn read_single(word: &[u8]) -> Option<Outcome>
    ensures { result ≡ single_of word.now }
{
    if word == b"step".as_slice() {
        Some(Outcome::Stepped)
    } else if word == b"idle".as_slice() {
        Some(Outcome::Idle)
    } else if word == b"full".as_slice() {
        Some(Outcome::Full)
    } else if word == b"done".as_slice() {
        Some(Outcome::Answered(Reply::Done))
    } else if word == b"einval".as_slice() {
        Some(Outcome::Answered(Reply::Refused(Errno::EINVAL)))
    } else if word == b"enomem".as_slice() {
        Some(Outcome::Answered(Reply::Refused(Errno::ENOMEM)))
    } else if word == b"eacces".as_slice() {
        Some(Outcome::Answered(Reply::Refused(Errno::EACCES)))
    } else if word == b"ebadf".as_slice() {
        Some(Outcome::Answered(Reply::Refused(Errno::EBADF)))
    } else if word == b"eoverflow".as_slice() {
        Some(Outcome::Answered(Reply::Refused(Errno::EOVERFLOW)))
    } else if word == b"bus".as_slice() {
        Some(Outcome::Answered(Reply::Bus))
    } else if word == b"noframe".as_slice() {
        Some(Outcome::Answered(Reply::NoFrame))
    } else if word == b"nomemory".as_slice() {
        Some(Outcome::Answered(Reply::NoMemory))
    } else {
        None
    }
}

// The cores whose acknowledgements are waited for: one or more, ascending.
fn read_acks(words: &[u8]) -> Option<Outcome>
    ensures { result ≡ acks_of (words_of words.now) }
{
    if next_word(words).is_none() {
        return None;
    }
    let mut cores = CoreSet::empty();
    let mut least = 0u8;
    let mut rest = words;
    'cores: while let Some((word, others)) = next_word(rest) {
        let core = read_core_number(word)?;
        if core.index() < least {
            return None;
        }
        cores = cores.with(core);
        least = core.index() + 1;
        rest = others;
    }
    Some(Outcome::Wait(Blocker::Acks(cores)))
}

// The core whose slot is waited for.
#[tactic(auto, unfolding(crate::specs::Outcomes::slot_of))]
fn read_slot(words: &[u8]) -> Option<Outcome>
    ensures { result ≡ slot_of (words_of words.now) }
{
    let (word, rest) = next_word(words)?;
    let core = read_core_number(word)?;
    if next_word(rest).is_some() {
        return None;
    }
    Some(Outcome::Wait(Blocker::Slot(core)))
}

#[tactic(auto, unfolding(crate::specs::Outcomes::wait_of))]
fn read_wait(words: &[u8]) -> Option<Outcome>
    ensures { result ≡ wait_of (words_of words.now) }
{
    let (kind, rest) = next_word(words)?;
    if kind == b"slot".as_slice() {
        read_slot(rest)
    } else if kind == b"acks".as_slice() {
        read_acks(rest)
    } else {
        None
    }
}

// The outcome, if no word is left.
fn read_end(outcome: Outcome, rest: &[u8]) -> Option<Outcome>
    ensures { result ≡ ended (words_of rest.now) outcome }
{
    match next_word(rest) {
        Some(_) => None,
        None => Some(outcome),
    }
}

#[tactic(auto, unfolding(crate::specs::Outcomes::segv_of))]
fn read_segv(words: &[u8]) -> Option<Outcome>
    ensures { result ≡ segv_of (words_of words.now) }
{
    let (code, rest) = next_word(words)?;
    if code == b"maperr".as_slice() {
        read_end(Outcome::Answered(Reply::Segv(SegvCode::MapErr)), rest)
    } else if code == b"accerr".as_slice() {
        read_end(Outcome::Answered(Reply::Segv(SegvCode::AccErr)), rest)
    } else {
        None
    }
}

// The same, if no other word is after it.
fn read_alone(name: &[u8], rest: &[u8]) -> Option<Outcome>
    ensures { result ≡ alone (words_of rest.now) (single_of name.now) }
{
    if next_word(rest).is_some() {
        return None;
    }
    read_single(name)
}

// The outcome of this name, with the words after it.
fn read_named(name: &[u8], rest: &[u8]) -> Option<Outcome>
    ensures { result ≡ named_of name.now (words_of rest.now) }
{
    if name == b"wait".as_slice() {
        read_wait(rest)
    } else if name == b"segv".as_slice() {
        read_segv(rest)
    } else {
        read_alone(name, rest)
    }
}

/// The outcome that the words say; `None` where they say none. A word of decimal digits alone is a
/// byte, one that begins with `0x` an address; `stuck` is no outcome of a step.
#[tactic(auto, unfolding(crate::specs::Outcomes::outcome_of))]
pub fn read_outcome(words: &[u8]) -> Option<Outcome>
    ensures { result ≡ outcome_of (words_of words.now) }
{
    let (name, rest) = next_word(words)?;
    if let Some(reply) = read_value(name) {
        return read_end(Outcome::Answered(reply), rest);
    }
    read_named(name, rest)
}
