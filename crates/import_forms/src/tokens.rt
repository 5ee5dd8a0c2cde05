//! The tokens of a line of strace: its bytes up to gaps.
ghost use Rattle.std.specs.Prelude.{◌≡◌, ◌<◌, ◌≤◌, IfSome, drop, length, option_map, take};
ghost use Rattle.trace_text.specs.Number.{digit_of};
ghost use Rattle.import_forms.specs.Tokens.{begins_by, front_count, front_token, from_gap, from_token, hexadecimal, is_gap, occurs};
ghost use Rattle.import_forms.specs.Tokens.{only_count, split_at_last, stripped, up_to_gap};

use trace_text::number::read_number;

/// Tells whether the byte divides tokens: a space, a comma, a parenthesis or a bracket.
pub fn is_gap(byte: u8) -> bool
    ensures { result ≡ is_gap byte }
{
    byte == b' ' || byte == b',' || byte == b'(' || byte == b')' || byte == b'[' || byte == b']'
}

/// The bytes from the first token on, none where there is no token.
pub fn without_gaps(bytes: &[u8]) -> &[u8]
    ensures { result.now ≡ from_token bytes.now }
{
    let mut count = 0;
    'gaps: while count < bytes.len() && is_gap(bytes[count]) {
        count += 1;
    }
    let (_, rest) = bytes.split_at(count);
    rest
}

// How many bytes stand before the first gap.
fn token_length(bytes: &[u8]) -> usize
    ensures within { result ≤ length bytes.now }
    ensures token { take result bytes.now ≡ up_to_gap bytes.now }
    ensures rest { drop result bytes.now ≡ from_gap bytes.now }
{
    let mut count = 0;
    'bytes: while count < bytes.len() && !is_gap(bytes[count]) {
        count += 1;
    }
    count
}

/// The first token, and the bytes after it.
pub fn next_token(bytes: &[u8]) -> Option<(&[u8], &[u8])>
    ensures { option_map (λ f. (f.0.now, f.1.now)) result ≡ front_token bytes.now }
{
    let rest = without_gaps(bytes);
    if rest.is_empty() {
        return None;
    }
    Some(rest.split_at(token_length(rest)))
}

/// The number that the first token spells, and the bytes after it.
#[tactic(auto, unfolding(crate::specs::Tokens::front_count))]
pub fn next_count(bytes: &[u8]) -> Option<(u64, &[u8])>
    ensures { option_map (λ f. (f.0, f.1.now)) result ≡ front_count bytes.now }
{
    let (token, rest) = next_token(bytes)?;
    let number = read_number(token)?;
    Some((number, rest))
}

/// The number that the only token spells.
#[tactic(auto, unfolding(crate::specs::Tokens::only_count))]
pub fn read_only(bytes: &[u8]) -> Option<u64>
    ensures { result ≡ only_count bytes.now }
{
    let (number, rest) = next_count(bytes)?;
    let left = without_gaps(rest);
    if !left.is_empty() {
        return None;
    }
    Some(number)
}

// What a hexadecimal digit stands for.
fn digit(byte: u8) -> Option<u64>
    ensures value { result ≡ digit_of byte }
    ensures small { IfSome result (λ d. d < 16) }
{
    if byte >= b'0' && byte <= b'9' {
        Some(u64::from(byte - b'0'))
    } else if byte >= b'a' && byte <= b'f' {
        Some(u64::from(byte - b'a' + 10))
    } else if byte >= b'A' && byte <= b'F' {
        Some(u64::from(byte - b'A' + 10))
    } else {
        None
    }
}

/// The number below 2^64 that hexadecimal digits spell, without `0x`; 0 where there are none.
pub fn read_hexadecimal(digits: &[u8]) -> Option<u64>
    ensures { result ≡ hexadecimal digits.now }
{
    let mut number = 0u64;
    for byte in digits {
        let value = digit(*byte)?;
        number = number.checked_mul(16)?.checked_add(value)?;
    }
    Some(number)
}

/// What stands before the last of these bytes, and after it.
pub fn split_last(bytes: &[u8], mark: u8) -> Option<(&[u8], &[u8])>
    ensures { option_map (λ f. (f.0.now, f.1.now)) result ≡ split_at_last mark bytes.now }
{
    let mut end = bytes.len();
    'bytes: while end > 0 {
        end -= 1;
        if bytes[end] == mark {
            let (front, _) = bytes.split_at(end);
            let (_, back) = bytes.split_at(end + 1);
            return Some((front, back));
        }
    }
    None
}

/// Tells whether the bytes begin with the name.
pub fn begins(bytes: &[u8], name: &[u8]) -> bool
    ensures { result ≡ begins_by name.now bytes.now }
{
    if name.len() > bytes.len() {
        return false;
    }
    let (front, _) = bytes.split_at(name.len());
    front == name
}

/// What stands after the name, if the bytes begin with it.
pub fn strip<'a>(bytes: &'a [u8], name: &[u8]) -> Option<&'a [u8]>
    ensures { option_map (λ f. f.now) result ≡ stripped name.now bytes.now }
{
    if !begins(bytes, name) {
        return None;
    }
    let (_, rest) = bytes.split_at(name.len());
    Some(rest)
}

// Tells whether the name stands at this place in the bytes.
fn stands_at(bytes: &[u8], at: usize, name: &[u8]) -> bool
    requires { at ≤ length bytes.now }
    ensures { result ≡ begins_by name.now (drop at bytes.now) }
{
    let (_, rest) = bytes.split_at(at);
    begins(rest, name)
}

/// Tells whether the name stands somewhere in the bytes.
pub fn has(bytes: &[u8], name: &[u8]) -> bool
    ensures { result ≡ occurs name.now bytes.now }
{
    if name.is_empty() {
        return !bytes.is_empty();
    }
    let first = name[0];
    let mut at = 0;
    'places: while at < bytes.len() {
        if bytes[at] == first && stands_at(bytes, at, name) {
            return true;
        }
        at += 1;
    }
    false
}
