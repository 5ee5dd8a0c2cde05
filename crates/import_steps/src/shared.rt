//! Shared memory that processes attach by its number: how many bytes it has, and what of it is mapped where.
ghost use Rattle.std.specs.Prelude.{◌≡◌, ◌++◌, ◌≤◌, IfOk, codes, decimal, length};
ghost use Rattle.import_steps.specs.Shared.{len_of, len_within, memory_name};

use std::alloc::{AllocError, Global};
use trace_text::number_text;

/// A piece of shared memory, or a mapping of one.
#[derive(Clone, Copy)]
pub struct SharedSegment {
    /// Its number, or where it is mapped.
    pub key: u64,
    /// How many bytes it has.
    pub len: u64,
}

/// How many bytes the piece has, as was said last.
pub(crate) fn len_of(pieces: &[SharedSegment], key: u64) -> Option<u64>
    ensures { result ≡ len_of key pieces.now }
{
    let mut at = pieces.len();
    'pieces: while at > 0 {
        at -= 1;
        let piece = pieces[at];
        if piece.key == key {
            return Some(piece.len);
        }
    }
    None
}

/// What the file of shared memory is named: `<shm:NUMBER>`.
pub(crate) fn memory_name(alloc: Global, number: u64) -> Result<Vec<u8>, AllocError>
    ensures { IfOk result (λ name. name.items ≡ memory_name number) }
{
    let digits = number_text(number);
    let mut name: Vec<u8> = Vec::new(alloc);
    name.extend_from_slice(b"<shm:")?;
    name.extend_from_slice(digits.as_str().as_bytes())?;
    name.extend_from_slice(b">")?;
    Ok(name)
}
