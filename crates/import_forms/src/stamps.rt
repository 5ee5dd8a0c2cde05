//! What strace writes before a call and after it: a thread, times, the call's number, an address, and how long it took.
ghost use Rattle.std.specs.Prelude.{◌≡◌, ◌≤◌, ◌<◌, drop, length, option_map, take};
ghost use Rattle.import_forms.specs.Stamps.{are_marks, call_text, front_figures, front_thread, is_figure, is_mark, is_stamp, is_time};
ghost use Rattle.import_forms.specs.Stamps.{past_figures, past_name, past_sign, past_stamp, past_stamps, without_time};

use crate::tokens::{is_gap, next_token, split_last, without_gaps};
use trace_text::number::read_number;

/// The largest number of a thread: Linux has at most 2^22 of them (proc(5), `pid_max`).
pub const LAST_THREAD: u64 = 4_194_304;

// Tells whether the byte is a decimal digit, or the point in a time.
fn is_figure(byte: u8) -> bool
    ensures { result ≡ is_figure byte }
{
    byte >= b'0' && byte <= b'9' || byte == b'.'
}

// How many figures stand first.
fn figure_count(bytes: &[u8]) -> usize
    ensures within { result ≤ length bytes.now }
    ensures front { take result bytes.now ≡ front_figures bytes.now }
    ensures rest { drop result bytes.now ≡ past_figures bytes.now }
{
    let mut count = 0;
    'bytes: while count < bytes.len() && is_figure(bytes[count]) {
        count += 1;
    }
    count
}

// What stands after the first `>`, where there is one.
fn past_sign(bytes: &[u8]) -> Option<&[u8]>
    ensures { option_map (λ f. f.now) result ≡ past_sign bytes.now }
{
    let mut at = 0;
    'bytes: while at < bytes.len() {
        if bytes[at] == b'>' {
            let (_, rest) = bytes.split_at(at + 1);
            return Some(rest);
        }
        at += 1;
    }
    None
}

// What stands after a number that ends here: after a name, `<NAME>`, or at a gap.
fn past_name(bytes: &[u8]) -> Option<&[u8]>
    ensures { option_map (λ f. f.now) result ≡ past_name bytes.now }
{
    let Some((first, rest)) = bytes.split_first() else {
        return Some(bytes);
    };
    if *first == b'<' {
        return past_sign(rest);
    }
    if is_gap(*first) {
        return Some(bytes);
    }
    None
}

/// The number of the thread that stands first, `NUMBER` or `NUMBER<NAME>`, and what stands after it.
#[tactic(auto, unfolding(crate::specs::Stamps::front_thread))]
pub fn front_thread(bytes: &[u8]) -> Option<(u64, &[u8])>
    ensures { option_map (λ f. (f.0, f.1.now)) result ≡ front_thread bytes.now }
{
    let bytes = without_gaps(bytes);
    let (figures, rest) = bytes.split_at(figure_count(bytes));
    let number = read_number(figures)?;
    let rest = past_name(rest)?;
    if number > LAST_THREAD {
        return None;
    }
    Some((number, rest))
}

// Tells whether the byte may stand in a time, a number or an address: a figure, `a` to `f`, `:` or `?`.
fn is_mark(byte: u8) -> bool
    ensures { result ≡ is_mark byte }
{
    is_figure(byte) || byte >= b'a' && byte <= b'f' || byte == b':' || byte == b'?'
}

// Tells whether all bytes are such.
fn are_marks(bytes: &[u8]) -> bool
    ensures { result ≡ are_marks bytes.now }
{
    let mut at = 0;
    'bytes: while at < bytes.len() {
        if !is_mark(bytes[at]) {
            return false;
        }
        at += 1;
    }
    true
}

// Tells whether the token stands before a call: a time, a number, an address, or the sign before a time since the last
// line.
fn is_stamp(token: &[u8]) -> bool
    ensures { result ≡ is_stamp token.now }
{
    are_marks(token) || token == b"+".as_slice()
}

// What stands after the first token, where that stands before a call.
#[tactic(auto, unfolding(crate::specs::Stamps::past_stamp))]
fn past_stamp(bytes: &[u8]) -> Option<&[u8]>
    ensures { option_map (λ f. f.now) result ≡ past_stamp bytes.now }
{
    let (token, rest) = next_token(bytes)?;
    if is_stamp(token) { Some(rest) } else { None }
}

// What stands after all tokens, five at most, that stand before a call.
fn past_stamps(bytes: &[u8]) -> &[u8]
    ensures { result.now ≡ past_stamps 5 bytes.now }
{
    let mut rest = bytes;
    let mut more = 5u8;
    'stamps: while more > 0 {
        let Some(behind) = past_stamp(rest) else {
            return rest;
        };
        rest = behind;
        more -= 1;
    }
    rest
}

/// Tells whether the word says how long a call took, `<SECONDS>`.
pub fn is_time(word: &[u8]) -> bool
    ensures { result ≡ is_time word.now }
{
    let Some((first, rest)) = word.split_first() else {
        return false;
    };
    if *first != b'<' {
        return false;
    }
    let (_, end) = rest.split_at(figure_count(rest));
    end == b">".as_slice()
}

// The text without its last word, where that says how long the call took.
fn without_time(text: &[u8]) -> &[u8]
    ensures { result.now ≡ without_time text.now }
{
    match split_last(text, b' ') {
        Some((front, word)) => { if is_time(word) { front } else { text } }
        None => text,
    }
}

/// The text of a call, without what strace writes before it and after it.
pub fn call_text(bytes: &[u8]) -> &[u8]
    ensures { result.now ≡ call_text bytes.now }
{
    without_time(past_stamps(bytes))
}
