//! What a core is to do, as words: `call REQ`, `go`, `frame F`, `walk ADDR` and the like.
ghost use Rattle.std.specs.Prelude.{◌≡◌, ◌++◌, ℕ, IfSome, Some, codes, true};
ghost use Rattle.trace_text.specs.Words.{words_of};
ghost use Rattle.trace_text.specs.Line.{task_of};
ghost use Rattle.trace_text.specs.declared.line.Line.TheVariants.{Act};
ghost use Rattle.trace_text.specs.Action.{action_of, bare_of, call_of, evict_of, frame_of, guess_of};
ghost use Rattle.trace_text.specs.Action.{number_alone, page_alone, walk_of};

use crate::number::next_number;
use crate::request::read_request;
use crate::words::next_word;
use vm_base::{Request, page_of};

/// What a core is to do in one step.
#[derive(Clone, Copy, Debug)]
pub enum Action {
    /// `call REQ`: begin a call.
    Call(Request),
    /// `go`: go one step on with the call.
    Go,
    /// `take`: act on the oldest message.
    Take,
    /// `flush`: flush a count, or end the core's part of the epoch.
    Flush,
    /// `review`: review the object at the front of the queue.
    Review,
    /// `giveup`: give the call up for want of memory.
    GiveUp,
    /// `frame F`: take the frame with this number, which may be the number of none.
    Frame(u64),
    /// `guess ADDR`: guess that there is a place from the page with this number on.
    Guess(u64),
    /// `whole`: guess no place, and take the whole window.
    Whole,
    /// `walk ADDR`: fill the TLB from the tables, at the page with this number.
    Walk(u64),
    /// `evict ADDR`: drop the TLB's translation of the page with this number.
    Evict(u64),
}

// The number that is the last word.
#[tactic(auto, unfolding(crate::specs::Action::number_alone))]
fn read_number_alone(args: &[u8]) -> Option<u64>
    ensures { result ≡ number_alone (words_of args.now) }
{
    let (number, rest) = next_number(args)?;
    if next_word(rest).is_some() {
        return None;
    }
    Some(number)
}

/// The page of the address that is the last word; any address below 2^64 has one.
#[tactic(auto, unfolding(crate::specs::Action::page_alone))]
pub(crate) fn read_page_alone(args: &[u8]) -> Option<u64>
    ensures { result ≡ page_alone (words_of args.now) }
{
    let addr = read_number_alone(args)?;
    Some(page_of(addr))
}

#[tactic(auto, unfolding(crate::specs::Action::call_of))]
fn read_call(args: &[u8]) -> Option<Action>
    ensures { result ≡ call_of (words_of args.now) }
{
    let request = read_request(args)?;
    Some(Action::Call(request))
}

#[tactic(auto, unfolding(crate::specs::Action::frame_of))]
fn read_frame(args: &[u8]) -> Option<Action>
    ensures { result ≡ frame_of (words_of args.now) }
{
    let frame = read_number_alone(args)?;
    Some(Action::Frame(frame))
}

#[tactic(auto, unfolding(crate::specs::Action::guess_of))]
fn read_guess(args: &[u8]) -> Option<Action>
    ensures { result ≡ guess_of (words_of args.now) }
{
    let page = read_page_alone(args)?;
    Some(Action::Guess(page))
}

#[tactic(auto, unfolding(crate::specs::Action::walk_of))]
fn read_walk(args: &[u8]) -> Option<Action>
    ensures { result ≡ walk_of (words_of args.now) }
{
    let page = read_page_alone(args)?;
    Some(Action::Walk(page))
}

#[tactic(auto, unfolding(crate::specs::Action::evict_of))]
fn read_evict(args: &[u8]) -> Option<Action>
    ensures { result ≡ evict_of (words_of args.now) }
{
    let page = read_page_alone(args)?;
    Some(Action::Evict(page))
}

// The action that one word says.
fn read_single_word(name: &[u8]) -> Option<Action>
    ensures { result ≡ bare_of name.now }
{
    if name == b"go".as_slice() {
        Some(Action::Go)
    } else if name == b"take".as_slice() {
        Some(Action::Take)
    } else if name == b"flush".as_slice() {
        Some(Action::Flush)
    } else if name == b"review".as_slice() {
        Some(Action::Review)
    } else if name == b"giveup".as_slice() {
        Some(Action::GiveUp)
    } else if name == b"whole".as_slice() {
        Some(Action::Whole)
    } else {
        None
    }
}

// What follows `walk` and a space.
#[inline(always)]
fn behind_walk(bytes: &[u8]) -> Option<&[u8]>
    ensures { IfSome result (λ args. bytes.now ≡ codes "walk " ++ args.now) }
{
    match bytes {
        [b'w', b'a', b'l', b'k', b' ', args @ ..] => Some(args),
        _ => None,
    }
}

// What follows `evict` and a space.
#[inline(always)]
fn behind_evict(bytes: &[u8]) -> Option<&[u8]>
    ensures { IfSome result (λ args. bytes.now ≡ codes "evict " ++ args.now) }
{
    match bytes {
        [b'e', b'v', b'i', b'c', b't', b' ', args @ ..] => Some(args),
        _ => None,
    }
}

// Tells whether these bytes are `take`.
#[inline(always)]
pub(crate) fn is_take(bytes: &[u8]) -> bool
    ensures { result ≡ true → bytes.now ≡ codes "take" }
{
    match bytes {
        [b't', b'a', b'k', b'e'] => true,
        _ => false,
    }
}

// Tells whether these bytes are `flush`.
#[inline(always)]
pub(crate) fn is_flush(bytes: &[u8]) -> bool
    ensures { result ≡ true → bytes.now ≡ codes "flush" }
{
    match bytes {
        [b'f', b'l', b'u', b's', b'h'] => true,
        _ => false,
    }
}

// Tells whether these bytes are `review`.
#[inline(always)]
pub(crate) fn is_review(bytes: &[u8]) -> bool
    ensures { result ≡ true → bytes.now ≡ codes "review" }
{
    match bytes {
        [b'r', b'e', b'v', b'i', b'e', b'w'] => true,
        _ => false,
    }
}

/// The action of these bytes, where it is one of the commonest and they begin with its name; `None` where
/// they don't, or say no such action.
pub(crate) fn front_action(bytes: &[u8]) -> Option<Action>
    ensures { IfSome result (λ action. (core : ℕ) → Some (Act core action) ≡ task_of core (words_of bytes.now)) }
{
    if is_take(bytes) {
        return Some(Action::Take);
    }
    if let Some(args) = behind_walk(bytes) {
        return read_walk(args);
    }
    if let Some(args) = behind_evict(bytes) {
        return read_evict(args);
    }
    if is_flush(bytes) {
        return Some(Action::Flush);
    }
    if is_review(bytes) {
        return Some(Action::Review);
    }
    None
}

/// The action with this name, whose other words are in `args`; `None` where they say none.
/// Nothing but the form is tested: whether the action is possible is the machine's to tell.
#[tactic(auto, unfolding(crate::specs::Action::action_of))]
pub(crate) fn read_action(name: &[u8], args: &[u8]) -> Option<Action>
    ensures { result ≡ action_of name.now (words_of args.now) }
{
    if name == b"call".as_slice() {
        read_call(args)
    } else if name == b"frame".as_slice() {
        read_frame(args)
    } else if name == b"guess".as_slice() {
        read_guess(args)
    } else if name == b"walk".as_slice() {
        read_walk(args)
    } else if name == b"evict".as_slice() {
        read_evict(args)
    } else {
        let action = read_single_word(name)?;
        if next_word(args).is_some() {
            return None;
        }
        Some(action)
    }
}
