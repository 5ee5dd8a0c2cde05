//! Refusals of requests whose arguments are wrong, whatever is mapped.
ghost use Rattle.std.specs.Prelude.{◌≡◌};
ghost use Rattle.vm_base.specs.Refusals.{file_refusal, mmap_refusal, munmap_refusal, mprotect_refusal};
ghost use Rattle.vm_base.specs.Refusals.{refusal, is_one_kind, answer};

use crate::page::{is_page_start, pages};
use crate::replies::{Errno, Reply};
use crate::requests::{Flags, Request};
use crate::rights::{Mode, Prot};

fn refused(errno: Errno) -> Option<Reply>
    ensures { result ≡ answer errno }
{
    Some(Reply::Refused(errno))
}

fn is_one_kind(flags: Flags) -> bool
    ensures { result ≡ is_one_kind flags }
{
    flags.private != flags.shared
}

fn file_refusal(mode: Option<Mode>, len: u64, prot: Prot, flags: Flags, off: u64) -> Option<Reply>
    ensures { result ≡ file_refusal mode len prot flags off }
{
    let Some(mode) = mode else {
        return refused(Errno::EBADF);
    };
    if off as u128 + len as u128 > 0x8000_0000_0000 {
        return refused(Errno::EOVERFLOW);
    }
    if !mode.can_read() {
        return refused(Errno::EACCES);
    }
    if flags.shared && prot.write && !mode.can_write() {
        return refused(Errno::EACCES);
    }
    None
}

fn mmap_refusal(
    mode: Option<Mode>,
    addr: u64,
    len: u64,
    prot: Prot,
    flags: Flags,
    off: u64,
) -> Option<Reply>
    ensures { result ≡ mmap_refusal (λ file. mode) addr len prot flags 0 off }
{
    if len == 0 {
        return refused(Errno::EINVAL);
    }
    if !is_one_kind(flags) {
        return refused(Errno::EINVAL);
    }
    if !flags.anon && !is_page_start(off) {
        return refused(Errno::EINVAL);
    }
    if flags.fixed && !is_page_start(addr) {
        return refused(Errno::EINVAL);
    }
    if flags.fixed && !pages(addr, len).is_valid() {
        return refused(Errno::ENOMEM);
    }
    if flags.anon {
        return None;
    }
    file_refusal(mode, len, prot, flags, off)
}

fn munmap_refusal(addr: u64, len: u64) -> Option<Reply>
    ensures { result ≡ munmap_refusal addr len }
{
    if len == 0 || !is_page_start(addr) || !pages(addr, len).is_valid() {
        return refused(Errno::EINVAL);
    }
    None
}

fn mprotect_refusal(addr: u64, len: u64) -> Option<Reply>
    ensures { result ≡ mprotect_refusal addr len }
{
    if !is_page_start(addr) {
        return refused(Errno::EINVAL);
    }
    if len == 0 {
        return Some(Reply::Done);
    }
    if !pages(addr, len).is_valid() {
        return refused(Errno::ENOMEM);
    }
    None
}

/// The answer of the first test of the request's arguments that holds, if one does (POSIX.1-2017,
/// mmap, munmap and mprotect, ERRORS; the order of the tests is this project's). `mode` says for
/// what the request's file is open, if there is such a file. Accesses have no test here.
pub fn refusal(mode: Option<Mode>, request: Request) -> Option<Reply>
    ensures { result ≡ refusal (λ file. mode) request }
{
    match request {
        Request::Mmap {
            addr,
            len,
            prot,
            flags,
            off,
            ..
        } => mmap_refusal(mode, addr, len, prot, flags, off),
        Request::Munmap { addr, len } => munmap_refusal(addr, len),
        Request::Mprotect { addr, len, .. } => mprotect_refusal(addr, len),
        _ => None,
    }
}
