//! The result of a call, as text: a reply, or a wait.
ghost use Rattle.std.specs.Prelude.{◌≡◌};
ghost use Rattle.std.specs.Str.{bytes_eq};
ghost use Rattle.trace_text.specs.Printing.{text_of};
ghost use Rattle.audit_text.specs.Replies.{is_nothing, is_step, is_unanswered, is_wait, late_reply, reply_of, word_reply};

use trace_text::value::read_value;
use trace_text::{LineText, address_text, number_text, push_reply};
use vm_base::{Errno, Reply, SegvCode};

// Tells whether the text is this word.
fn is_word(text: &[u8], word: &[u8]) -> bool
    ensures { result ≡ bytes_eq text.now word.now }
{
    text == word
}

// The reply of one of the words that come last below.
fn read_late(text: &[u8]) -> Option<Reply>
    ensures { result ≡ late_reply text.now }
{
    if is_word(text, b"eacces") {
        Some(Reply::Refused(Errno::EACCES))
    } else if is_word(text, b"ebadf") {
        Some(Reply::Refused(Errno::EBADF))
    } else if is_word(text, b"eoverflow") {
        Some(Reply::Refused(Errno::EOVERFLOW))
    } else if is_word(text, b"bus") {
        Some(Reply::Bus)
    } else if is_word(text, b"noframe") {
        Some(Reply::NoFrame)
    } else if is_word(text, b"nomemory") {
        Some(Reply::NoMemory)
    } else {
        None
    }
}

// The reply that is no number.
fn read_word(text: &[u8]) -> Option<Reply>
    ensures { result ≡ word_reply text.now }
{
    if is_word(text, b"done") {
        Some(Reply::Done)
    } else if is_word(text, b"segv maperr") {
        Some(Reply::Segv(SegvCode::MapErr))
    } else if is_word(text, b"segv accerr") {
        Some(Reply::Segv(SegvCode::AccErr))
    } else if is_word(text, b"einval") {
        Some(Reply::Refused(Errno::EINVAL))
    } else if is_word(text, b"enomem") {
        Some(Reply::Refused(Errno::ENOMEM))
    } else {
        read_late(text)
    }
}

// Tells whether the reply is written so, by its whole text.
fn is_text_of(reply: Reply, text: &[u8]) -> bool
    ensures { result ≡ bytes_eq (text_of reply) text.now }
{
    let mut written = LineText::new();
    push_reply(&mut written, reply);
    written.as_str().as_bytes() == text
}

// Tells whether the reply is written so. A number is written in a text of its own, which is shorter than a line's.
fn is_written_so(reply: Reply, text: &[u8]) -> bool
    ensures { result ≡ bytes_eq (text_of reply) text.now }
{
    match reply {
        Reply::Mapped(address) => address_text(address).as_str().as_bytes() == text,
        Reply::Byte(byte) => number_text(u64::from(byte)).as_str().as_bytes() == text,
        _ => is_text_of(reply, text),
    }
}

/// The reply that is written so; `None` where none is.
#[tactic(auto, unfolding(crate::specs::Replies::reply_of))]
pub fn read_reply(text: &[u8]) -> Option<Reply>
    ensures { result ≡ reply_of text.now }
{
    let Some(reply) = read_value(text) else {
        return read_word(text);
    };
    if is_written_so(reply, text) {
        Some(reply)
    } else {
        None
    }
}

// Tells whether a call waits that came to this.
fn is_wait(text: &[u8]) -> bool
    ensures { result ≡ is_wait text.now }
{
    match text {
        [b'w', b'a', b'i', b't', b' ', ..] => true,
        _ => false,
    }
}

/// Tells whether a call that came to this has no reply yet.
pub(crate) fn is_unanswered(text: &[u8]) -> bool
    ensures { result ≡ is_unanswered text.now }
{
    is_wait(text) || is_word(text, b"stuck")
}

/// Tells whether it is a step that answered no call.
pub(crate) fn is_step(text: &[u8]) -> bool
    ensures { result ≡ is_step text.now }
{
    is_word(text, b"step")
}

/// Tells whether nothing was done.
pub(crate) fn is_nothing(text: &[u8]) -> bool
    ensures { result ≡ is_nothing text.now }
{
    is_word(text, b"idle") || is_word(text, b"full")
}
