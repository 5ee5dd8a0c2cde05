//! What a log looks like of which nothing was kept.
ghost use Rattle.std.specs.Prelude.{◌≡◌, ◌≤◌};
ghost use Rattle.import_forms.specs.Looks.{is_access, is_control, are_text, looks_of};

use crate::tokens::{begins, next_token};

/// What a line looks like.
#[derive(Clone, Copy)]
pub enum Looks {
    /// A line of valgrind's lackey.
    Lackey,
    /// A line of a trace.
    Trace,
    /// Bytes that aren't text.
    Bytes,
    /// None of these.
    Other,
}

// Tells whether the byte stands in no text: a control character, but for a tab and a carriage return.
fn is_control(byte: u8) -> bool
    ensures { result ≡ is_control byte }
{
    byte < 32 && byte != 9 && byte != 13
}

// Tells whether all bytes may stand in a text.
fn are_text(bytes: &[u8]) -> bool
    ensures { result ≡ are_text bytes.now }
{
    let mut at = 0;
    'bytes: while at < bytes.len() {
        if is_control(bytes[at]) {
            return false;
        }
        at += 1;
    }
    true
}

// Tells whether the token begins an access of lackey's.
fn is_access(token: &[u8]) -> bool
    ensures { result ≡ is_access token.now }
{
    token == b"I".as_slice()
        || token == b"L".as_slice()
        || token == b"S".as_slice()
        || token == b"M".as_slice()
}

/// What the line looks like.
pub fn looks_of(line: &[u8]) -> Looks
    ensures { result ≡ looks_of line.now }
{
    if !are_text(line) {
        return Looks::Bytes;
    }
    let Some((first, _)) = next_token(line) else {
        return Looks::Other;
    };
    if begins(first, b"==".as_slice()) || is_access(first) {
        return Looks::Lackey;
    }
    if first == b"vm".as_slice() || begins(first, b"#".as_slice()) {
        return Looks::Trace;
    }
    Looks::Other
}
