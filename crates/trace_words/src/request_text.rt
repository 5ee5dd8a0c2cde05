//! What a request is written as.
ghost use Rattle.std.specs.Prelude.{◌≡◌, ◌+◌, ◌≤◌, ◌∷◌, ◌++◌, [], codes, decimal, length};
ghost use Rattle.trace_text.specs.Printing.{address_of};
ghost use Rattle.trace_text.specs.Spelling.{rights_text};
ghost use Rattle.trace_words.specs.Written.{flags_text, request_words, spaced};

use trace_text::{LineText, push_address, push_count, push_letter, push_rights, push_word};
use vm_base::{Flags, Prot, Request};

// Appends a space and the rights.
fn push_prot(text: &mut LineText, prot: Prot)
    requires { length text.old.bytes + 4 ≤ 256 }
    ensures bytes { text.new.bytes ≡ text.old.bytes ++ codes " " ++ rights_text prot }
    ensures short { length text.new.bytes ≤ length text.old.bytes + 4 }
{
    text.push_str(" ");
    push_rights(text, prot);
}

// Appends a space and the flags.
fn push_flags(text: &mut LineText, flags: Flags)
    requires { length text.old.bytes + 5 ≤ 256 }
    ensures bytes { text.new.bytes ≡ text.old.bytes ++ codes " " ++ flags_text flags }
    ensures short { length text.new.bytes ≤ length text.old.bytes + 5 }
{
    text.push_str(" ");
    if flags.private || flags.shared || flags.fixed || flags.anon {
        push_letter(text, flags.private, "p");
        push_letter(text, flags.shared, "s");
        push_letter(text, flags.fixed, "f");
        push_letter(text, flags.anon, "a");
    } else {
        text.push_str("-");
    }
}

// Appends a range's address and length, each after a space.
fn push_range(text: &mut LineText, addr: u64, len: u64)
    requires { length text.old.bytes + 42 ≤ 256 }
    ensures bytes { text.new.bytes ≡ text.old.bytes ++ codes " " ++ address_of addr ++ codes " " ++ address_of len }
    ensures short { length text.new.bytes ≤ length text.old.bytes + 42 }
{
    push_address(text, addr);
    push_address(text, len);
}

// Appends what pages of a mapping may be used for, its flags, its file and its offset, each after a space.
fn push_backing(text: &mut LineText, prot: Prot, flags: Flags, file: u64, off: u64)
    requires { length text.old.bytes + 51 ≤ 256 }
    ensures bytes { text.new.bytes ≡ text.old.bytes ++ spaced (rights_text prot ∷ flags_text flags ∷ decimal file ∷ address_of off ∷ []) }
    ensures short { length text.new.bytes ≤ length text.old.bytes + 51 }
{
    push_prot(text, prot);
    push_flags(text, flags);
    push_count(text, file);
    push_address(text, off);
}

/// Appends the words of the request, each after a space: addresses, lengths and offsets in hexadecimal digits
/// after `0x`, a file and a byte in decimal ones, the flags in the order `p`, `s`, `f`, `a`. File and offset are always
/// there.
pub fn push_request(text: &mut LineText, request: Request)
    requires { length text.old.bytes + 100 ≤ 256 }
    ensures bytes { text.new.bytes ≡ text.old.bytes ++ spaced (request_words request) }
    ensures short { length text.new.bytes ≤ length text.old.bytes + 100 }
{
    match request {
        Request::Mmap {
            addr,
            len,
            prot,
            flags,
            file,
            off,
        } => {
            push_word(text, "mmap");
            push_range(text, addr, len);
            push_backing(text, prot, flags, file, off);
        }
        Request::Munmap { addr, len } => {
            push_word(text, "munmap");
            push_range(text, addr, len);
        }
        Request::Mprotect { addr, len, prot } => {
            push_word(text, "mprotect");
            push_range(text, addr, len);
            push_prot(text, prot);
        }
        Request::Load { addr } => {
            push_word(text, "load");
            push_address(text, addr);
        }
        Request::Store { addr, byte } => {
            push_word(text, "store");
            push_address(text, addr);
            push_count(text, u64::from(byte));
        }
        Request::Fetch { addr } => {
            push_word(text, "fetch");
            push_address(text, addr);
        }
    }
}
