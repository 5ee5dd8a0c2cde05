//! Requests as words: `mmap`, `munmap`, `mprotect`, `load`, `store` and `fetch`.
ghost use Rattle.std.specs.Prelude.{◌≡◌, ◌<◌, ◌≤◌, ◌==◌, ◌++◌, IfSome, codes, option_map, length};
ghost use Rattle.trace_text.specs.Words.{words_of};
ghost use Rattle.trace_text.specs.Request.{backed_of, fetch_of, flag_more, flags_of, load_of, mark_of};
ghost use Rattle.trace_text.specs.Request.{mmap_of, mprotect_of, munmap_of, prot_of, protected_of};
ghost use Rattle.trace_text.specs.Request.{request_of, store_of};

use crate::number::{next_byte, next_number};
use crate::words::{next_word, trimmed};
use vm_base::{Flags, Prot, Request};

const NO_FLAGS: Flags = Flags {
    private: false,
    shared: false,
    fixed: false,
    anon: false,
};

// Whether a right is given: its letter, or a dash.
fn read_mark(letter: u8, mark: u8) -> Option<bool>
    ensures { result ≡ mark_of letter mark }
{
    if mark == letter {
        Some(true)
    } else if mark == b'-' {
        Some(false)
    } else {
        None
    }
}

#[tactic(auto, unfolding(crate::specs::Request::prot_of))]
fn read_prot(word: &[u8]) -> Option<Prot>
    ensures { result ≡ prot_of word.now }
{
    match word {
        [r, w, x] => {
            let read = read_mark(b'r', *r)?;
            let write = read_mark(b'w', *w)?;
            let exec = read_mark(b'x', *x)?;
            Some(Prot { read, write, exec })
        }
        _ => None,
    }
}

// The flags with one letter more, which must be new.
fn add_flag(flags: Flags, letter: u8) -> Option<Flags>
    ensures { result ≡ flag_more flags letter }
{
    let mut more = flags;
    if letter == b'p' && !flags.private {
        more.private = true;
    } else if letter == b's' && !flags.shared {
        more.shared = true;
    } else if letter == b'f' && !flags.fixed {
        more.fixed = true;
    } else if letter == b'a' && !flags.anon {
        more.anon = true;
    } else {
        return None;
    }
    Some(more)
}

fn read_flags(word: &[u8]) -> Option<Flags>
    ensures { result ≡ flags_of word.now }
{
    if word == b"-".as_slice() {
        return Some(NO_FLAGS);
    }
    let mut flags = NO_FLAGS;
    for letter in word {
        flags = add_flag(flags, *letter)?;
    }
    Some(flags)
}

// FILE and OFF, which only a mapping of zero bytes may leave out.
#[tactic(auto, unfolding(crate::specs::Request::backed_of))]
fn read_backing(addr: u64, len: u64, prot: Prot, flags: Flags, args: &[u8]) -> Option<Request>
    ensures { result ≡ backed_of addr len prot flags (words_of args.now) }
{
    if next_word(args).is_none() {
        if flags.anon {
            return Some(Request::Mmap {
                addr,
                len,
                prot,
                flags,
                file: 0,
                off: 0,
            });
        }
        return None;
    }
    let (file, rest) = next_number(args)?;
    let (off, rest) = next_number(rest)?;
    if next_word(rest).is_some() {
        return None;
    }
    Some(Request::Mmap {
        addr,
        len,
        prot,
        flags,
        file,
        off,
    })
}

#[tactic(auto, unfolding(crate::specs::Request::mmap_of))]
fn read_mmap(args: &[u8]) -> Option<Request>
    ensures { result ≡ mmap_of (words_of args.now) }
{
    let (addr, rest) = next_number(args)?;
    let (len, rest) = next_number(rest)?;
    let (prot, rest) = next_word(rest)?;
    let prot = read_prot(prot)?;
    let (flags, rest) = next_word(rest)?;
    let flags = read_flags(flags)?;
    read_backing(addr, len, prot, flags, rest)
}

#[tactic(auto, unfolding(crate::specs::Request::munmap_of))]
fn read_munmap(args: &[u8]) -> Option<Request>
    ensures { result ≡ munmap_of (words_of args.now) }
{
    let (addr, rest) = next_number(args)?;
    let (len, rest) = next_number(rest)?;
    if next_word(rest).is_some() {
        return None;
    }
    Some(Request::Munmap { addr, len })
}

// The protection, as the last word.
#[tactic(auto, unfolding(crate::specs::Request::protected_of))]
fn read_protected(addr: u64, len: u64, args: &[u8]) -> Option<Request>
    ensures { result ≡ protected_of addr len (words_of args.now) }
{
    let (prot, rest) = next_word(args)?;
    let prot = read_prot(prot)?;
    if next_word(rest).is_some() {
        return None;
    }
    Some(Request::Mprotect { addr, len, prot })
}

#[tactic(auto, unfolding(crate::specs::Request::mprotect_of))]
fn read_mprotect(args: &[u8]) -> Option<Request>
    ensures { result ≡ mprotect_of (words_of args.now) }
{
    let (addr, rest) = next_number(args)?;
    let (len, rest) = next_number(rest)?;
    read_protected(addr, len, rest)
}

#[inline(always)]
#[tactic(auto, unfolding(crate::specs::Request::load_of))]
fn read_load(args: &[u8]) -> Option<Request>
    ensures { result ≡ load_of (words_of args.now) }
{
    let (addr, rest) = next_number(args)?;
    if next_word(rest).is_some() {
        return None;
    }
    Some(Request::Load { addr })
}

#[inline(always)]
#[tactic(auto, unfolding(crate::specs::Request::store_of))]
fn read_store(args: &[u8]) -> Option<Request>
    ensures { result ≡ store_of (words_of args.now) }
{
    let (addr, rest) = next_number(args)?;
    let (byte, rest) = next_byte(rest)?;
    if next_word(rest).is_some() {
        return None;
    }
    Some(Request::Store { addr, byte })
}

#[inline(always)]
#[tactic(auto, unfolding(crate::specs::Request::fetch_of))]
fn read_fetch(args: &[u8]) -> Option<Request>
    ensures { result ≡ fetch_of (words_of args.now) }
{
    let (addr, rest) = next_number(args)?;
    if next_word(rest).is_some() {
        return None;
    }
    Some(Request::Fetch { addr })
}

/// What follows `load` and a space.
#[inline(always)]
pub(crate) fn behind_load(bytes: &[u8]) -> Option<&[u8]>
    ensures { IfSome result (λ args. bytes.now ≡ codes "load " ++ args.now) }
{
    match bytes {
        [b'l', b'o', b'a', b'd', b' ', args @ ..] => Some(args),
        _ => None,
    }
}

/// What follows `store` and a space.
#[inline(always)]
pub(crate) fn behind_store(bytes: &[u8]) -> Option<&[u8]>
    ensures { IfSome result (λ args. bytes.now ≡ codes "store " ++ args.now) }
{
    match bytes {
        [b's', b't', b'o', b'r', b'e', b' ', args @ ..] => Some(args),
        _ => None,
    }
}

// What follows `fetch` and a space.
#[inline(always)]
fn behind_fetch(bytes: &[u8]) -> Option<&[u8]>
    ensures { IfSome result (λ args. bytes.now ≡ codes "fetch " ++ args.now) }
{
    match bytes {
        [b'f', b'e', b't', b'c', b'h', b' ', args @ ..] => Some(args),
        _ => None,
    }
}

// What follows `mmap` and a space.
#[inline(always)]
fn behind_mmap(bytes: &[u8]) -> Option<&[u8]>
    ensures { IfSome result (λ args. bytes.now ≡ codes "mmap " ++ args.now) }
{
    match bytes {
        [b'm', b'm', b'a', b'p', b' ', args @ ..] => Some(args),
        _ => None,
    }
}

// What follows `munmap` and a space.
#[inline(always)]
fn behind_munmap(bytes: &[u8]) -> Option<&[u8]>
    ensures { IfSome result (λ args. bytes.now ≡ codes "munmap " ++ args.now) }
{
    match bytes {
        [b'm', b'u', b'n', b'm', b'a', b'p', b' ', args @ ..] => Some(args),
        _ => None,
    }
}

// What follows `mprotect` and a space.
#[inline(always)]
fn behind_mprotect(bytes: &[u8]) -> Option<&[u8]>
    ensures { IfSome result (λ args. bytes.now ≡ codes "mprotect " ++ args.now) }
{
    match bytes {
        [
            b'm',
            b'p',
            b'r',
            b'o',
            b't',
            b'e',
            b'c',
            b't',
            b' ',
            args @ ..,
        ] => Some(args),
        _ => None,
    }
}

// The request that the words say, whichever it is. Behind `read_request`'s tests by bytes it finds none,
// since a name with nothing after it isn't a request; only this function says so.
#[inline(never)]
#[tactic(auto, unfolding(crate::specs::Request::request_of))]
fn read_by_name(words: &[u8]) -> Option<Request>
    ensures { result ≡ request_of (words_of words.now) }
{
    let (name, args) = next_word(words)?;
    if name == b"mmap".as_slice() {
        read_mmap(args)
    } else if name == b"munmap".as_slice() {
        read_munmap(args)
    } else if name == b"mprotect".as_slice() {
        read_mprotect(args)
    } else if name == b"load".as_slice() {
        read_load(args)
    } else if name == b"store".as_slice() {
        read_store(args)
    } else if name == b"fetch".as_slice() {
        read_fetch(args)
    } else {
        None
    }
}

/// The request that the words say, its name first; `None` where they say none. Addresses, lengths and
/// offsets are in bytes. Nothing but the form is tested: what a request asks for may still be refused.
/// Most are known by the bytes that they begin with, and their names aren't looked for.
#[inline(always)]
pub(crate) fn read_request(words: &[u8]) -> Option<Request>
    ensures { result ≡ request_of (words_of words.now) }
{
    let bytes = trimmed(words);
    if let Some(args) = behind_load(bytes) {
        return read_load(args);
    }
    if let Some(args) = behind_store(bytes) {
        return read_store(args);
    }
    if let Some(args) = behind_fetch(bytes) {
        return read_fetch(args);
    }
    if let Some(args) = behind_mmap(bytes) {
        return read_mmap(args);
    }
    if let Some(args) = behind_munmap(bytes) {
        return read_munmap(args);
    }
    if let Some(args) = behind_mprotect(bytes) {
        return read_mprotect(args);
    }
    read_by_name(bytes)
}
