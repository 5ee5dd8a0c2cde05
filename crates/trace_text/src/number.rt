//! Numbers in a trace: decimal digits, or `0x` and hexadecimal digits, below 2^64.
ghost use Rattle.std.specs.Prelude.{◌≡◌, ◌^◌, ◌<◌, ◌≤◌, ◌∷◌, IfSome, Some, length, option_map, take};
ghost use Rattle.trace_text.specs.Number.{digit_of, value_from, below_word, number_of};
ghost use Rattle.trace_text.specs.Front.{EndsValue};
ghost use Rattle.trace_text.specs.Request.{front_byte, front_number};
ghost use Rattle.trace_text.specs.Words.{words_of};

use crate::words::{next_word, trimmed};

// What each byte stands for as a digit, in any base up to 16; 255 where it is none.
const DIGITS: [u8; 256] = [
    255, 255, 255, 255, 255, 255, 255, 255, 255, 255, 255, 255, 255, 255, 255, 255, 255, 255, 255,
    255, 255, 255, 255, 255, 255, 255, 255, 255, 255, 255, 255, 255, 255, 255, 255, 255, 255, 255,
    255, 255, 255, 255, 255, 255, 255, 255, 255, 255, 0, 1, 2, 3, 4, 5, 6, 7, 8, 9, 255, 255, 255,
    255, 255, 255, 255, 10, 11, 12, 13, 14, 15, 255, 255, 255, 255, 255, 255, 255, 255, 255, 255,
    255, 255, 255, 255, 255, 255, 255, 255, 255, 255, 255, 255, 255, 255, 255, 255, 10, 11, 12, 13,
    14, 15, 255, 255, 255, 255, 255, 255, 255, 255, 255, 255, 255, 255, 255, 255, 255, 255, 255,
    255, 255, 255, 255, 255, 255, 255, 255, 255, 255, 255, 255, 255, 255, 255, 255, 255, 255, 255,
    255, 255, 255, 255, 255, 255, 255, 255, 255, 255, 255, 255, 255, 255, 255, 255, 255, 255, 255,
    255, 255, 255, 255, 255, 255, 255, 255, 255, 255, 255, 255, 255, 255, 255, 255, 255, 255, 255,
    255, 255, 255, 255, 255, 255, 255, 255, 255, 255, 255, 255, 255, 255, 255, 255, 255, 255, 255,
    255, 255, 255, 255, 255, 255, 255, 255, 255, 255, 255, 255, 255, 255, 255, 255, 255, 255, 255,
    255, 255, 255, 255, 255, 255, 255, 255, 255, 255, 255, 255, 255, 255, 255, 255, 255, 255, 255,
    255, 255, 255, 255, 255, 255, 255, 255, 255, 255, 255, 255, 255, 255, 255, 255, 255, 255, 255,
    255, 255, 255,
];

// What a digit stands for, in any base up to 16.
#[inline(always)]
fn digit(c: u8) -> Option<u64>
    ensures { result ≡ digit_of c }
{
    let value = DIGITS[usize::from(c)];
    if value < 16 {
        Some(u64::from(value))
    } else {
        None
    }
}

// The value of digits, one or more, below 2^64.
fn value(digits: &[u8], base: u64) -> Option<u64>
    requires { 1 < base }
    ensures { result ≡ below_word (value_from base 0 digits.now) }
{
    let mut n = 0u64;
    for c in digits {
        let d = digit(*c)?;
        if d >= base {
            return None;
        }
        n = n.checked_mul(base)?.checked_add(d)?;
    }
    Some(n)
}

/// The number that a word spells.
pub fn read_number(word: &[u8]) -> Option<u64>
    ensures { result ≡ number_of word.now }
{
    match word {
        [] => None,
        [b'0', b'x', digits @ ..] => {
            if digits.is_empty() {
                return None;
            }
            value(digits, 16)
        }
        _ => value(word, 10),
    }
}

// How many of the first 16 bytes are digits of the base, up to the first that is none, and their
// value.
#[inline(always)]
fn front_value(bytes: &[u8], base: u64) -> (u64, usize)
    requires { base ≤ 16 }
    ensures within { result.1 ≤ length bytes.now }
    ensures fits { result.0 < 2 ^ 64 }
    ensures value { value_from base 0 (take result.1 bytes.now) ≡ Some result.0 }
{
    let most = bytes.len().min(16);
    let mut number = 0u64;
    let mut count = 0;
    while count < most {
        match digit(bytes[count]) {
            Some(d) if d < base => number = number * base + d,
            _ => return (number, count),
        }
        count += 1;
    }
    (number, count)
}

// The value of the digits up to the first space, and what begins there; `None` where other bytes stand
// before it, or more than 16 digits.
#[inline(always)]
fn ended_value(digits: &[u8], base: u64) -> Option<(u64, &[u8])>
    requires { base ≤ 16 }
    ensures { IfSome result (λ f. EndsValue base digits.now f.0 f.1.now) }
{
    let (number, count) = front_value(digits, base);
    let (_, rest) = digits.split_at(count);
    if count > 0 && (rest.is_empty() || rest[0] == b' ') {
        return Some((number, rest));
    }
    None
}

// The bytes behind `0x`, where these stand at the front.
#[inline(always)]
fn hexadecimal_digits(word: &[u8]) -> Option<&[u8]>
    ensures { IfSome result (λ digits. word.now ≡ 48 ∷ 120 ∷ digits.now) }
{
    match word {
        [b'0', b'x', digits @ ..] => Some(digits),
        _ => None,
    }
}

// The number that the first word spells, and the bytes after it, however many digits it has.
#[inline(never)]
#[tactic(auto, unfolding(crate::specs::Request::front_number))]
fn next_long_number(bytes: &[u8]) -> Option<(u64, &[u8])>
    ensures { option_map (λ f. (f.0, words_of f.1.now)) result ≡ front_number (words_of bytes.now) }
{
    let (word, rest) = next_word(bytes)?;
    let number = read_number(word)?;
    Some((number, rest))
}

/// The number at the front, of at most 16 digits, and the bytes after it; `None` where the bytes begin with anything else, a
/// space too, or with a longer number.
#[inline(always)]
pub(crate) fn short_number(bytes: &[u8]) -> Option<(u64, &[u8])>
    ensures { IfSome result (λ f. Some (f.0, words_of f.1.now) ≡ front_number (words_of bytes.now)) }
{
    match hexadecimal_digits(bytes) {
        Some(digits) => ended_value(digits, 16),
        None => ended_value(bytes, 10),
    }
}

/// The number that the first word spells, and the bytes after it. Up to 16 digits are
/// read once, from left to right.
#[inline(always)]
pub fn next_number(bytes: &[u8]) -> Option<(u64, &[u8])>
    ensures { option_map (λ f. (f.0, words_of f.1.now)) result ≡ front_number (words_of bytes.now) }
{
    let word = trimmed(bytes);
    let short = short_number(word);
    if short.is_some() {
        return short;
    }
    next_long_number(word)
}

/// The number up to 255 that the first word spells, and the bytes after it.
#[inline(always)]
#[tactic(auto, unfolding(crate::specs::Request::front_byte))]
pub(crate) fn next_byte(bytes: &[u8]) -> Option<(u8, &[u8])>
    ensures { option_map (λ f. (f.0, words_of f.1.now)) result ≡ front_byte (words_of bytes.now) }
{
    let (number, rest) = next_number(bytes)?;
    if number > 255 {
        return None;
    }
    Some((number as u8, rest))
}
