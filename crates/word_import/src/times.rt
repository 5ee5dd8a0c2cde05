//! When a line of strace was written, as its first words say.
ghost use Rattle.std.specs.Prelude.{◌≡◌, ◌*◌, ◌<◌, ◌≤◌, ◌^◌, IfSome, length};
ghost use Rattle.word_import.specs.Times.{are_of_time, began_ns, digits_from, ended_ns, front_digits, goes_before, is_digit, is_fine, is_moment, is_of_time, long_for, moment_named, moment_of};
ghost use Rattle.word_import.specs.Times.{since_1970, took_ns, with_digit};

use import_forms::stamps::is_time;
use import_forms::tokens::{next_token, split_last};

// Tells whether the byte is a decimal digit.
fn is_digit(byte: u8) -> bool
    ensures { result ≡ is_digit byte }
{
    byte >= b'0' && byte <= b'9'
}

// How many digits stand first.
fn front_digits(token: &[u8]) -> usize
    ensures value { result ≡ front_digits token.now }
    ensures within { result ≤ length token.now }
{
    let mut count = 0;
    'bytes: while count < token.len() && is_digit(token[count]) {
        count += 1;
    }
    count
}

// Tells whether the byte is a digit, or the point between those of a time.
fn is_of_time(byte: u8) -> bool
    ensures { result ≡ is_of_time byte }
{
    is_digit(byte) || byte == b'.'
}

// Tells whether all bytes are such.
fn are_of_time(token: &[u8]) -> bool
    ensures { result ≡ are_of_time token.now }
{
    let mut at = 0;
    'bytes: while at < token.len() {
        if !is_of_time(token[at]) {
            return false;
        }
        at += 1;
    }
    true
}

// The number with one digit more; another byte says nothing.
fn with_digit(number: u64, byte: u8) -> u64
    ensures { result ≡ with_digit number byte }
{
    if byte < 48 {
        return number;
    }
    if byte > 57 {
        return number;
    }
    number
        .saturating_mul(10)
        .saturating_add(u64::from(byte - 48))
}

// The number that the digits spell, at most 2^64 - 1.
fn digits_of(token: &[u8]) -> u64
    ensures { result ≡ digits_from 0 token.now }
{
    let mut number = 0u64;
    let mut at = 0;
    'bytes: while at < token.len() {
        number = with_digit(number, token[at]);
        at += 1;
    }
    number
}

// Tells whether six digits stand after the last point, or more.
fn is_fine(token: &[u8]) -> bool
    ensures { result ≡ is_fine token.now }
{
    match split_last(token, b'.') {
        Some((_, part)) => part.len() >= 6,
        None => false,
    }
}

// Tells whether the token is the seconds since 1970, with microseconds or nanoseconds.
fn is_moment(token: &[u8]) -> bool
    ensures { result ≡ is_moment token.now }
{
    are_of_time(token) && is_fine(token) && front_digits(token) >= 10
}

// The number that the digits of a time spell.
fn moment_named(token: &[u8]) -> Option<u64>
    ensures { result ≡ moment_named token.now }
{
    if is_moment(token) {
        Some(digits_of(token))
    } else {
        None
    }
}

// Tells whether the token may stand before a time.
fn goes_before(token: &[u8]) -> bool
    ensures { result ≡ goes_before token.now }
{
    front_digits(token) >= 1 || token == b"pid".as_slice()
}

/// The time since 1970 that a line tells before its call, as the number that its digits spell; `None` where it tells none.
pub fn moment_of(line: &[u8]) -> Option<u64>
    ensures { result ≡ moment_of line.now }
{
    let mut rest = line;
    let mut more = 3u8;
    'tokens: while more > 0 {
        let (token, behind) = next_token(rest)?;
        if let Some(moment) = moment_named(token) {
            return Some(moment);
        }
        if !goes_before(token) {
            return None;
        }
        rest = behind;
        more -= 1;
    }
    None
}

// The nanoseconds since 1970, of which the digits of a time are told.
fn since_1970(moment: u64) -> Option<u64>
    ensures value { result ≡ since_1970 moment }
    ensures early { IfSome result (λ n. n < 9 * 10 ^ 18) }
{
    if moment < 1_000_000_000_000_000 {
        None
    } else if moment < 9_000_000_000_000_000 {
        Some(moment * 1000)
    } else if moment < 1_000_000_000_000_000_000 {
        None
    } else if moment < 9_000_000_000_000_000_000 {
        Some(moment)
    } else {
        None
    }
}

/// The time that a line tells before its call, in nanoseconds since 1970, where it tells microseconds or nanoseconds.
#[tactic(auto, unfolding(crate::specs::Times::began_ns))]
pub fn began_ns(line: &[u8]) -> Option<u64>
    ensures value { result ≡ began_ns line.now }
    ensures early { IfSome result (λ n. n < 9 * 10 ^ 18) }
{
    let moment = moment_of(line)?;
    since_1970(moment)
}

// The nanoseconds of a time with these digits, of which this many bytes stand after the point.
fn long_for(digits: u64, places: usize) -> Option<u64>
    ensures value { result ≡ long_for digits places }
    ensures short { IfSome result (λ n. n < 9 * 10 ^ 18) }
{
    if places == 7 && digits < 9_000_000_000_000_000 {
        Some(digits * 1000)
    } else if places == 10 && digits < 9_000_000_000_000_000_000 {
        Some(digits)
    } else {
        None
    }
}

/// How long the call of a line took, in nanoseconds, where the line tells microseconds or nanoseconds.
#[tactic(auto, unfolding(crate::specs::Times::took_ns))]
pub fn took_ns(line: &[u8]) -> Option<u64>
    ensures value { result ≡ took_ns line.now }
    ensures short { IfSome result (λ n. n < 9 * 10 ^ 18) }
{
    let (_, word) = split_last(line, b' ')?;
    let (_, part) = split_last(word, b'.')?;
    if is_time(word) {
        long_for(digits_of(word), part.len())
    } else {
        None
    }
}

/// When the call of a line ended, in nanoseconds since 1970, where the line tells when it began and how long it took.
#[tactic(auto, unfolding(crate::specs::Times::ended_ns))]
pub fn ended_ns(line: &[u8]) -> Option<u64>
    ensures { result ≡ ended_ns line.now }
{
    let began = began_ns(line)?;
    let took = took_ns(line)?;
    Some(began + took)
}
