//! What a call says that made a thread: whether it is of the same process, and whose address space it has.
ghost use Rattle.std.specs.Prelude.{◌≡◌, ◌<◌, codes, option_map};
ghost use Rattle.import_forms.specs.Tokens.{begins_by, occurs};
ghost use Rattle.import_forms.specs.Said.{before_bar, behind, flags_number, makes_with, making_said};

use crate::calls::has_bit;
use crate::said::Said;
use crate::tokens::{begins, has, next_token, split_last};
use trace_text::number::read_number;

/// What stands after the first such name.
pub(crate) fn behind<'a>(bytes: &'a [u8], name: &[u8]) -> Option<&'a [u8]>
    ensures { option_map (λ f. f.now) result ≡ behind name.now bytes.now }
{
    let mut at = 0;
    'places: while at < bytes.len() {
        let (_, rest) = bytes.split_at(at);
        if begins(rest, name) {
            let (_, after) = rest.split_at(name.len());
            return Some(after);
        }
        at += 1;
    }
    None
}

// What stands before the last `|` of a token, where there is one.
fn before_bar(token: &[u8]) -> &[u8]
    ensures { result.now ≡ before_bar token.now }
{
    match split_last(token, b'|') {
        Some((front, _)) => front,
        None => token,
    }
}

// The number after `flags=`, if one is there.
#[tactic(auto, unfolding(crate::specs::Said::flags_number))]
fn flags_number(before: &[u8]) -> Option<u64>
    ensures { result ≡ flags_number before.now }
{
    let rest = behind(before, b"flags=".as_slice())?;
    let (token, _) = next_token(rest)?;
    read_number(before_bar(token))
}

// Tells whether the call has this flag: its name stands somewhere, or its bit is in the number of the flags.
fn makes_with(before: &[u8], name: &[u8], bit: u64) -> bool
    requires { 0 < bit }
    ensures { result ≡ makes_with name.now bit before.now }
{
    if has(before, name) {
        return true;
    }
    match flags_number(before) {
        Some(bits) => has_bit(bits, bit),
        None => false,
    }
}

// Tells whether the thread is of the same process.
fn is_thread(before: &[u8]) -> bool
    ensures { result ≡ makes_with (codes "CLONE_THREAD") 65536 before.now }
{
    makes_with(before, b"CLONE_THREAD".as_slice(), 65_536)
}

// Tells whether the thread has the same address space.
fn is_beside(before: &[u8]) -> bool
    ensures { result ≡ makes_with (codes "CLONE_VM") 256 before.now }
{
    makes_with(before, b"CLONE_VM".as_slice(), 256)
}

/// What a call says that made this thread.
pub(crate) fn read_making(before: &[u8], thread: u64) -> Said
    ensures { result ≡ making_said before.now thread }
{
    if is_thread(before) {
        return Said::Makes {
            thread,
            shares: true,
            joins: false,
        };
    }
    Said::Makes {
        thread,
        shares: false,
        joins: is_beside(before),
    }
}
