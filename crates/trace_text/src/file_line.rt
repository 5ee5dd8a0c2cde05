//! The line `file N MODE LEN SEED`, which says for what a file is open and which bytes it has.
ghost use Rattle.std.specs.Prelude.{◌≡◌, ◌≤◌, IfOk, option_map};
ghost use Rattle.trace_text.specs.Words.{words_of};
ghost use Rattle.trace_text.specs.Line.{contents_of, file_line_of, mode_named, seeded};

use crate::line::Line;
use crate::number::{next_byte, next_number};
use crate::words::next_word;
use std::alloc::{AllocError, Allocator};
use vm_base::Mode;

// For what a file is open.
fn read_mode(word: &[u8]) -> Option<Mode>
    ensures { result ≡ mode_named word.now }
{
    if word == b"r".as_slice() {
        Some(Mode::R)
    } else if word == b"w".as_slice() {
        Some(Mode::W)
    } else if word == b"rw".as_slice() {
        Some(Mode::RW)
    } else {
        None
    }
}

// The length and the seed, as the last words.
#[tactic(auto, unfolding(crate::specs::Line::contents_of))]
fn read_contents(number: u64, mode: Mode, args: &[u8]) -> Option<Line>
    ensures { result ≡ contents_of number mode (words_of args.now) }
{
    let (len, rest) = next_number(args)?;
    let (seed, rest) = next_byte(rest)?;
    if next_word(rest).is_some() {
        return None;
    }
    Some(Line::File {
        number,
        mode,
        len,
        seed,
    })
}

/// The line of these words after `file`; `None` where they are no such line. Whether its number
/// is the next one, and whether there may be this many files and bytes, isn't tested here.
#[tactic(auto, unfolding(crate::specs::Line::file_line_of))]
pub(crate) fn read_file(args: &[u8]) -> Option<Line>
    ensures { result ≡ file_line_of (words_of args.now) }
{
    let (number, rest) = next_number(args)?;
    let (mode, rest) = next_word(rest)?;
    let mode = read_mode(mode)?;
    read_contents(number, mode, rest)
}

/// The bytes of a file: each is one more than the one before it, modulo 256.
pub fn file_bytes<A: Allocator>(alloc: A, len: u64, seed: u8) -> Result<Vec<u8, A>, AllocError>
    requires { len ≤ 1048576 }
    ensures { IfOk result (λ bytes. bytes.items ≡ seeded len seed) }
{
    let mut bytes = Vec::with_capacity(alloc, len as usize)?;
    let mut byte = seed;
    'bytes: for _at in 0..len {
        bytes.push_reserved(byte);
        byte = byte.wrapping_add(1);
    }
    Ok(bytes)
}
