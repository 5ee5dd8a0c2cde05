//! The line that tells a private page's copy: `cC copy ADDR`.
ghost use Rattle.std.specs.Prelude.{◌≡◌};
ghost use Rattle.trace_text.specs.Line.{core_of};
ghost use Rattle.trace_text.specs.Words.{words_of};
ghost use Rattle.audit_text.specs.Copying.{copied_of, copy_of, page_of_words};

use trace_text::core_line::read_core_number;
use trace_text::number::next_number;
use trace_text::words::next_word;
use vm_base::{CoreId, page_of};

// The core that a word `cC` names.
fn read_core(word: &[u8]) -> Option<CoreId>
    ensures { result ≡ core_of word.now }
{
    match word {
        [b'c', digits @ ..] => read_core_number(digits),
        _ => None,
    }
}

// The page of the address that is the last word.
#[tactic(auto, unfolding(crate::specs::Copying::page_of_words))]
fn read_page(words: &[u8]) -> Option<u64>
    ensures { result ≡ page_of_words (words_of words.now) }
{
    let (addr, rest) = next_number(words)?;
    match next_word(rest) {
        Some(_) => None,
        None => Some(page_of(addr)),
    }
}

// The page that is told after the core's name.
#[tactic(auto, unfolding(crate::specs::Copying::copied_of))]
fn read_copied(words: &[u8]) -> Option<u64>
    ensures { result ≡ copied_of (words_of words.now) }
{
    let (name, args) = next_word(words)?;
    if name == b"copy".as_slice() {
        read_page(args)
    } else {
        None
    }
}

/// The page that the line says is copied; `None` where it is no such line. Whose store the copy is for isn't looked at.
#[tactic(auto, unfolding(crate::specs::Copying::copy_of))]
pub(crate) fn read_copy(line: &[u8]) -> Option<u64>
    ensures { result ≡ copy_of (words_of line.now) }
{
    let (name, args) = next_word(line)?;
    let _core = read_core(name)?;
    read_copied(args)
}
