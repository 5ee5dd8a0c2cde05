//! A reply that is a number.
ghost use Rattle.std.specs.Prelude.{◌≡◌};
ghost use Rattle.trace_text.specs.Values.{is_hexadecimal, value_of};

use crate::number::read_number;
use vm_base::Reply;

// Tells whether the word begins as an address does.
fn is_hexadecimal(word: &[u8]) -> bool
    ensures { result ≡ is_hexadecimal word.now }
{
    match word {
        [b'0', b'x', ..] => true,
        _ => false,
    }
}

/// The reply that is this number: an address in hexadecimal digits, a byte in decimal ones.
#[tactic(auto, unfolding(crate::specs::Values::value_of))]
pub fn read_value(word: &[u8]) -> Option<Reply>
    ensures { result ≡ value_of word.now }
{
    let number = read_number(word)?;
    if is_hexadecimal(word) {
        return Some(Reply::Mapped(number));
    }
    if number > 255 {
        return None;
    }
    Some(Reply::Byte(number as u8))
}
