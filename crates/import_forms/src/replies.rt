//! What a call asked for, as the program made it, and why it was refused.
ghost use Rattle.std.specs.Prelude.{◌≡◌, codes, option_map};
ghost use Rattle.import_forms.specs.Said.{has_flag};
ghost use Rattle.import_forms.specs.Replies.{asked_flags, asked_mmap, asked_of, errno_named, errno_of, hint_named, if_either, if_invalid, is_fixed, is_fixed_move};
ghost use Rattle.import_forms.specs.Replies.{move_flags, of_no_file, refused_by, refused_mmap, refused_of};

use crate::calls::{Call, is_plain};
use crate::said::{
    flags_named, has_flag, lost_by, mmap_words, prot_named, read_mprotect, read_munmap, said_named,
};
use crate::tokens::{next_token, split_last};
use trace_text::number::read_number;
use vm_base::{Errno, Flags, Request};

/// A call that was refused.
#[derive(Clone, Copy)]
pub struct RefusedCall {
    /// What it asked for.
    pub request: Request,
    /// Why it was refused.
    pub errno: Errno,
}

// The address that a token names; `NULL` is 0.
fn hint_named(token: &[u8]) -> Option<u64>
    ensures { result ≡ hint_named token.now }
{
    if token == b"NULL".as_slice() {
        Some(0)
    } else {
        read_number(token)
    }
}

// Tells whether a mapping has the place that the program names.
fn is_placed(token: &[u8]) -> bool
    ensures { result ≡ has_flag (codes "MAP_FIXED") 16 token.now }
{
    has_flag(token, b"MAP_FIXED".as_slice(), 16)
}

// Tells whether a mapping has it only where nothing is there.
fn keeps_others(token: &[u8]) -> bool
    ensures { result ≡ has_flag (codes "MAP_FIXED_NOREPLACE") 1048576 token.now }
{
    has_flag(token, b"MAP_FIXED_NOREPLACE".as_slice(), 1_048_576)
}

// Tells whether a mapping takes the place of what is there.
fn is_fixed(token: &[u8]) -> bool
    ensures { result ≡ is_fixed token.now }
{
    is_placed(token) && !keeps_others(token)
}

// The flags that a program asks for, but of no file.
fn asked_flags(token: &[u8]) -> Flags
    ensures { result ≡ asked_flags token.now }
{
    let named = flags_named(token);
    Flags {
        private: named.private,
        shared: named.shared,
        fixed: is_fixed(token),
        anon: true,
    }
}

// `HINT, LEN, PROT, FLAGS, ..`, of no file.
#[tactic(auto, unfolding(crate::specs::Replies::asked_mmap))]
fn asked_mmap(before: &[u8]) -> Option<Request>
    ensures { result ≡ asked_mmap before.now }
{
    let (hint, _) = next_token(before)?;
    let (len, prot, names, _) = mmap_words(before)?;
    let addr = hint_named(hint)?;
    let len = read_number(len)?;
    if !is_plain(flags_named(names), lost_by(names)) {
        return None;
    }
    Some(Request::Mmap {
        addr,
        len,
        prot: prot_named(prot),
        flags: asked_flags(names),
        file: 0,
        off: 0,
    })
}

/// What the text of an `mmap` asks for, as the program made it, but of no file.
#[tactic(auto, unfolding(crate::specs::Replies::asked_of))]
pub fn read_asked(text: &[u8]) -> Option<Request>
    ensures { result ≡ asked_of text.now }
{
    let (_, args) = next_token(text)?;
    let (before, _) = split_last(args, b'=')?;
    asked_mmap(before)
}

// The flags of an `mremap`.
#[tactic(auto, unfolding(crate::specs::Replies::move_flags))]
fn move_flags(text: &[u8]) -> Option<&[u8]>
    ensures { option_map (λ f. f.now) result ≡ move_flags text.now }
{
    let (_, rest) = next_token(text)?;
    let (_, rest) = next_token(rest)?;
    let (_, rest) = next_token(rest)?;
    let (_, rest) = next_token(rest)?;
    let (flags, _) = next_token(rest)?;
    Some(flags)
}

/// Tells whether an `mremap` takes the place of what is there.
pub fn is_fixed_move(text: &[u8]) -> bool
    ensures { result ≡ is_fixed_move text.now }
{
    match move_flags(text) {
        Some(flags) => has_flag(flags, b"MREMAP_FIXED".as_slice(), 2),
        None => false,
    }
}

// The error of this name, of those that a plain page map gives by the mappings alone.
fn errno_named(name: &[u8]) -> Option<Errno>
    ensures { result ≡ errno_named name.now }
{
    if name == b"EINVAL".as_slice() {
        Some(Errno::EINVAL)
    } else if name == b"ENOMEM".as_slice() {
        Some(Errno::ENOMEM)
    } else {
        None
    }
}

// `-1 NAME ..`.
#[tactic(auto, unfolding(crate::specs::Replies::errno_of))]
fn read_errno(after: &[u8]) -> Option<Errno>
    ensures { result ≡ errno_of after.now }
{
    let (sign, rest) = next_token(after)?;
    let (name, _) = next_token(rest)?;
    if sign == b"-1".as_slice() {
        errno_named(name)
    } else {
        None
    }
}

// What an `mmap` of no file asked for that was refused.
#[tactic(auto, unfolding(crate::specs::Replies::refused_mmap))]
fn refused_mmap(before: &[u8]) -> Option<Request>
    ensures { result ≡ refused_mmap before.now }
{
    let (_, _, names, _) = mmap_words(before)?;
    if flags_named(names).anon {
        asked_mmap(before)
    } else {
        None
    }
}

// The request, of a call that failed by `EINVAL`.
fn if_invalid(errno: Errno, request: Option<Request>) -> Option<Request>
    ensures { result ≡ if_invalid errno request }
{
    match errno {
        Errno::EINVAL => request,
        Errno::ENOMEM | Errno::EACCES | Errno::EBADF | Errno::EOVERFLOW => None,
    }
}

// The request, of a call that failed by `EINVAL` or `ENOMEM`.
fn if_either(errno: Errno, request: Option<Request>) -> Option<Request>
    ensures { result ≡ if_either errno request }
{
    match errno {
        Errno::EINVAL | Errno::ENOMEM => request,
        Errno::EACCES | Errno::EBADF | Errno::EOVERFLOW => None,
    }
}

// What a call asked for that was refused so.
fn refused_by(call: Call, before: &[u8], errno: Errno) -> Option<Request>
    ensures { result ≡ refused_by call before.now errno }
{
    match call {
        Call::Mmap => if_invalid(errno, refused_mmap(before)),
        Call::Munmap => if_invalid(errno, read_munmap(before, 0)),
        Call::Mprotect => if_either(errno, read_mprotect(before, 0)),
        Call::Brk
        | Call::Mremap
        | Call::Make
        | Call::MakeGuest
        | Call::Begin
        | Call::Keyed
        | Call::Advise
        | Call::Size
        | Call::Attach
        | Call::Detach
        | Call::Lost(_) => None,
    }
}

/// What a call asked for that was refused, and why, where a plain page map refuses it by the mappings alone. Other
/// errors depend on a file, or on the memory that is left.
#[tactic(auto, unfolding(crate::specs::Replies::refused_of))]
pub fn read_refused(text: &[u8]) -> Option<RefusedCall>
    ensures { result ≡ refused_of text.now }
{
    let (name, args) = next_token(text)?;
    let call = said_named(name)?;
    let (before, after) = split_last(args, b'=')?;
    let errno = read_errno(after)?;
    let request = refused_by(call, before, errno)?;
    Some(RefusedCall { request, errno })
}
