//! What a line of a list of mappings says: `START-END RIGHTS OFFSET DEVICE INODE NAME`.
ghost use Rattle.std.specs.Prelude.{◌≡◌, option_map};
ghost use Rattle.import_lines.specs.Listed.{entry_of, entry_said, from_name, kind_named, rights_said};

use import_forms::tokens::{begins, has, next_token, read_hexadecimal, split_last};
use vm_base::Prot;

/// What a line says.
#[derive(Clone, Copy)]
pub struct Listed<'a> {
    /// The first address.
    pub start: u64,
    /// The first address after the last.
    pub end: u64,
    /// The rights.
    pub prot: Prot,
    /// Whether stores are seen by others.
    pub shared: bool,
    /// Where the mapping begins in its file, in bytes.
    pub off: u64,
    /// The file's path, or what the kernel calls the mapping, or nothing.
    pub name: &'a [u8],
}

/// What a mapping is of.
#[derive(Clone, Copy)]
pub enum MappingKind {
    /// The kernel's own pages, which it maps into each program: `[vvar]`, `[vdso]`.
    Kernel,
    /// No file.
    Anonymous,
    /// A file.
    File,
}

// The rights that four letters name, as `rw-p`.
fn read_rights(token: &[u8]) -> Prot
    ensures { result ≡ rights_said token.now }
{
    Prot {
        read: has(token, b"r".as_slice()),
        write: has(token, b"w".as_slice()),
        exec: has(token, b"x".as_slice()),
    }
}

// The bytes after the first spaces.
fn without_spaces(bytes: &[u8]) -> &[u8]
    ensures { result.now ≡ from_name bytes.now }
{
    let mut count = 0;
    'spaces: while count < bytes.len() && bytes[count] == b' ' {
        count += 1;
    }
    let (_, rest) = bytes.split_at(count);
    rest
}

/// What a line says, if it is of this form.
#[tactic(auto, unfolding(crate::specs::Listed::entry_said))]
pub fn read_listed(line: &[u8]) -> Option<Listed<'_>>
    ensures { option_map entry_of result ≡ entry_said line.now }
{
    let (range, rest) = next_token(line)?;
    let (first, last) = split_last(range, b'-')?;
    let start = read_hexadecimal(first)?;
    let end = read_hexadecimal(last)?;
    let (rights, rest) = next_token(rest)?;
    let (offset, rest) = next_token(rest)?;
    let off = read_hexadecimal(offset)?;
    let (_, rest) = next_token(rest)?;
    let (_, rest) = next_token(rest)?;
    Some(Listed {
        start,
        end,
        prot: read_rights(rights),
        shared: has(rights, b"s".as_slice()),
        off,
        name: without_spaces(rest),
    })
}

/// What a mapping of this name is of. A file's name is its path; the kernel gives names in brackets to mappings of no
/// file, and `/dev/zero (deleted)` to shared ones.
pub fn kind_of(name: &[u8]) -> MappingKind
    ensures { result ≡ kind_named name.now }
{
    if begins(name, b"[v".as_slice()) {
        MappingKind::Kernel
    } else if name.is_empty() || begins(name, b"[".as_slice()) {
        MappingKind::Anonymous
    } else if name == b"/dev/zero (deleted)".as_slice() {
        MappingKind::Anonymous
    } else {
        MappingKind::File
    }
}
