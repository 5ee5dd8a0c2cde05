//! What logs of strace and of lackey have in common: the calls by their names, how one ended, and bits as Linux
//! numbers them.
ghost use Rattle.std.specs.Prelude.{◌≡◌, ◌<◌};
ghost use Rattle.import_forms.specs.Calls.{asked, call_named, clears, drops, flags_of, has_bit, has_kind, is_plain, keyed, lost_named, lost_of, lost_or_unread, rights_of};

use crate::said::{Lost, Said};
use vm_base::{Flags, Prot, Request};

/// The calls that are looked at.
#[derive(Clone, Copy)]
pub enum Call {
    /// `mmap`, and `mmap2` of programs of 32 bits.
    Mmap,
    /// `munmap`.
    Munmap,
    /// `mprotect`.
    Mprotect,
    /// `brk`.
    Brk,
    /// `mremap`.
    Mremap,
    /// `clone`, `clone3` and `fork`.
    Make,
    /// `vfork`.
    MakeGuest,
    /// `execve` and `execveat`.
    Begin,
    /// `pkey_mprotect`.
    Keyed,
    /// `madvise` and `process_madvise`.
    Advise,
    /// `shmget`.
    Size,
    /// `shmat`.
    Attach,
    /// `shmdt`.
    Detach,
    /// A call of which no trace has anything.
    Lost(Lost),
}

/// How a call ended.
#[derive(Clone, Copy)]
pub enum Outcome {
    /// It gave this number.
    Gives(u64),
    /// It failed.
    Fails,
    /// The log doesn't say it in a form that is read.
    Unclear,
}

// What the call of this name changes whenever it succeeds, and no trace has.
fn lost_named(name: &[u8]) -> Option<Lost>
    ensures { result ≡ lost_named name.now }
{
    if name == b"remap_file_pages".as_slice() {
        Some(Lost::Remaps)
    } else if name == b"userfaultfd".as_slice() {
        Some(Lost::Faults)
    } else if name == b"io_setup".as_slice() || name == b"io_destroy".as_slice() {
        Some(Lost::Others)
    } else {
        None
    }
}

/// The call of this name, of those that both logs are read for.
pub fn call_named(name: &[u8]) -> Option<Call>
    ensures { result ≡ call_named name.now }
{
    if name == b"mmap".as_slice() {
        Some(Call::Mmap)
    } else if name == b"munmap".as_slice() {
        Some(Call::Munmap)
    } else if name == b"mprotect".as_slice() {
        Some(Call::Mprotect)
    } else if name == b"brk".as_slice() {
        Some(Call::Brk)
    } else if name == b"mremap".as_slice() {
        Some(Call::Mremap)
    } else if name == b"pkey_mprotect".as_slice() {
        Some(Call::Keyed)
    } else if name == b"madvise".as_slice() {
        Some(Call::Advise)
    } else {
        match lost_named(name) {
            Some(lost) => Some(Call::Lost(lost)),
            None => None,
        }
    }
}

/// Tells whether a bit is set, which is given as its value, a power of two.
pub fn has_bit(bits: u64, bit: u64) -> bool
    requires { 0 < bit }
    ensures { result ≡ has_bit bit bits }
{
    bits / bit % 2 == 1
}

/// The rights of these bits.
pub fn rights_of(bits: u64) -> Prot
    ensures { result ≡ rights_of bits }
{
    Prot {
        read: has_bit(bits, 1),
        write: has_bit(bits, 2),
        exec: has_bit(bits, 4),
    }
}

/// The flags of these bits. The kernel has placed the mapping, so it is fixed.
pub fn flags_of(bits: u64) -> Flags
    ensures { result ≡ flags_of bits }
{
    Flags {
        private: bits % 4 == 2,
        shared: has_bit(bits, 1),
        fixed: true,
        anon: has_bit(bits, 32),
    }
}

/// What a mapping with the flags of these bits is that no trace has: of pages of another size, or one that grows by
/// itself.
pub fn lost_of(bits: u64) -> Option<Lost>
    ensures { result ≡ lost_of bits }
{
    if has_bit(bits, 262_144) {
        Some(Lost::Huge)
    } else if has_bit(bits, 256) {
        Some(Lost::Grows)
    } else {
        None
    }
}

// Tells whether a mapping is private or shared, and not both.
fn has_kind(flags: Flags) -> bool
    ensures { result ≡ has_kind flags }
{
    if flags.private {
        !flags.shared
    } else {
        flags.shared
    }
}

/// Tells whether a trace has mappings with these flags: private or shared, not both, and nothing that is lost.
pub fn is_plain(flags: Flags, lost: Option<Lost>) -> bool
    ensures { result ≡ is_plain flags lost }
{
    match lost {
        Some(_) => false,
        None => has_kind(flags),
    }
}

/// Tells whether the advice of this number takes the pages of a range away at once.
pub fn clears(advice: u64) -> bool
    ensures { result ≡ clears advice }
{
    advice == 4 || advice == 24
}

/// Tells whether the advice of this number drops the bytes of pages in a way that no trace has.
pub fn drops(advice: u64) -> bool
    ensures { result ≡ drops advice }
{
    advice == 8 || advice == 9
}

/// A request, where one was read.
pub fn asked(request: Option<Request>) -> Said
    ensures { result ≡ asked request }
{
    match request {
        Some(request) => Said::Asks(request),
        None => Said::Unread,
    }
}

/// Rights with a key, where they were read.
pub fn keyed(request: Option<Request>) -> Said
    ensures { result ≡ keyed request }
{
    match request {
        Some(request) => Said::Keyed(request),
        None => Said::Unread,
    }
}

/// What a call says that was not read: what no trace has of it, where that is known.
pub fn lost_or_unread(lost: Option<Lost>) -> Said
    ensures { result ≡ lost_or_unread lost }
{
    match lost {
        Some(lost) => Said::Loses(lost),
        None => Said::Unread,
    }
}
