//! One core's call is held at each point of its way while another core makes its own (`test_lanes::meeting`).
use std::alloc::Global;
use std::rt::Clock;
use std::sync::Wait;
use std::test::Fail;
use std::thread::Threads;
use test_lanes::meeting::{met, with_each};
use vm_base::NoMemory;

/// A call is held until another core's are answered, on other pages or on pages that it doesn't hold there: a space with one lock would hold
/// these, too. Of two calls that overlap the first is held until the other has begun, at each point of its way.
const HELD: &str = "\
begun, long | vm 2 4 | c0! mmap 0x10000 8192 rw- pfa | c1! mmap 0x11000 8192 rw- pfa; c1! munmap 0x10000 0x10000
locked, long | vm 2 4 | c0! mmap 0x10000 8192 rw- pfa | c1! mmap 0x12000 8192 rw- pfa; c1! munmap 0xf000 4096
answer, long | vm 2 4 | c0! mmap 0x10000 8192 rw- pfa | c1! mprotect 0x11000 4096 r--; c1! munmap 0x10000 8192
drawn, long | vm 2 4 | c0! mmap 0x10000 4096 rw- pfa | c1! mmap 0x30000 4096 rw- pfa
drawn, long | vm 2 4 | c0! mmap 0 4096 rw- pa | c1! mmap 0 4096 rw- pa; c1! mmap 0x10000 4096 rw- pfa
commit, long | vm 2 4; c0! mmap 0x10000 4096 rw- pfa | c0! munmap 0x10000 4096 | c1! mmap 0 4096 rw- pa
commit, long | vm 2 4; c0! mmap 0x10000 4096 rw- pfa; c0! store 0x10000 1 | c0! munmap 0x10000 4096 | c1! mmap 0 4096 rw- pa; c1! store 0x10000000000 2; c1! load 0x10000000000
filled, long | vm 2 4; c0! mmap 0x10000 4096 rw- pfa | c0! store 0x10000 1 | c1! mmap 0 4096 rw- pa; c1! store 0x10000000000 2; c1! load 0x10000000000
locked, long | vm 2 4; c0! mmap 0x10000 8192 rw- pfa | c0! store 0x10000 1 | c1! load 0x11000; c1! munmap 0x11000 4096
begun | vm 2 4 | c0! mmap 0x10000 8192 rw- pfa | c1! mmap 0x11000 8192 r-- pfa
locked | vm 2 4 | c0! mmap 0x10000 8192 rw- pfa | c1! mmap 0x11000 8192 r-- pfa
commit | vm 2 4 | c0! mmap 0x10000 8192 rw- pfa | c1! mmap 0x11000 8192 r-- pfa
drawn | vm 2 4 | c0! mmap 0x10000 8192 rw- pfa | c1! mmap 0x11000 8192 r-- pfa
answer | vm 2 4 | c0! mmap 0x10000 8192 rw- pfa | c1! mmap 0x11000 8192 r-- pfa
";

#[test]
fn a_call_is_held_beside_another(rt: HostRuntime) -> Result<(), Fail> {
    let met = met(&rt, rt.alloc(), HELD)?;
    assert_eq!(rt; met.as_str(), "14 met");
    Ok(())
}

/// A page is unmapped while another core uses it, or another page. The other core reads the byte as long as it hasn't been told to drop its
/// translation, and finds nothing afterwards, also where it waits for the page's slot.
const TOLD: &str = "\
begun, long | vm 2 4; c0! mmap 0x10000 4096 rw- pfa; c0! store 0x10000 65; c1! load 0x10000 | c0! munmap 0x10000 4096 | c1! load 0x10000 => 0x10000; done; done; 65; 65; certified 5
locked, long | vm 2 4; c0! mmap 0x10000 4096 rw- pfa; c0! store 0x10000 65; c1! load 0x10000 | c0! munmap 0x10000 4096 | c1! load 0x10000 => 0x10000; done; done; 65; 65; certified 5
commit | vm 2 4; c0! mmap 0x10000 4096 rw- pfa; c0! store 0x10000 65; c1! load 0x10000 | c0! munmap 0x10000 4096 | c1! load 0x10000 => 0x10000; done; done; 65; segv maperr; certified 5
answer, long | vm 2 4; c0! mmap 0x10000 4096 rw- pfa; c0! store 0x10000 65; c1! load 0x10000 | c0! munmap 0x10000 4096 | c1! load 0x10000 => 0x10000; done; done; 65; segv maperr; certified 5
commit, long | vm 2 4; c0! mmap 0x10000 4096 rw- pfa; c0! store 0x10000 1 | c0! munmap 0x10000 4096 | c1! mmap 0 4096 rw- pa; c1! store 0x10000000000 2 => 0x10000; done; done; 0x10000000000; done; certified 5
";

#[test]
fn a_page_is_used_while_it_is_unmapped(rt: HostRuntime) -> Result<(), Fail> {
    let met = met(&rt, rt.alloc(), TOLD)?;
    assert_eq!(rt; met.as_str(), "5 met");
    Ok(())
}

/// Scripts after which the first core has no translation of the page 0x10000: it is anonymous and has
/// no frame yet, or one that the second core uses; it is a shared page of a file, or a private one that
/// shows its file's, used by the second core each.
const PAGES: &str = "\
vm 2 4; c0! mmap 0x10000 4096 rw- pfa
vm 2 4; c0! mmap 0x10000 4096 rw- pfa; c1! store 0x10000 7
vm 2 4; file 0 rw 4096 3; c0! mmap 0x10000 4096 rw- sf 0 0; c1! load 0x10000
vm 2 4; file 0 rw 4096 3; c0! mmap 0x10000 4096 rw- pf 0 0; c1! load 0x10000
";

/// Accesses of the page, where they are held, and what the second core does there meanwhile.
const ACCESSES: &str = "c0! load 0x10000\nc0! store 0x10000 5";

const POINTS_OF_ACCESSES: &str = "begun, long\nlocked\nfilled\nanswer, long";

const BESIDE_ACCESSES: &str = "\
c1! munmap 0x10000 4096
c1! mprotect 0x10000 4096 r--
c1! mmap 0x10000 4096 rw- pfa
c1! store 0x10000 9
c1 flush
c1 review
";

/// The same of changes.
const CHANGES: &str = "\
c0! munmap 0x10000 4096
c0! mprotect 0x10000 4096 r--
c0! mmap 0x10000 4096 rw- pfa
";

const POINTS_OF_CHANGES: &str = "begun, long\nlocked\ncommit\ndrawn\nanswer, long";

const BESIDE_CHANGES: &str = "\
c1! load 0x10000
c1! store 0x10000 9
c1! fetch 0x10000
";

/// What comes of each of these calls, held at each of these points, at each kind of page, with each of these other lines.
fn all_met<R: Threads + Wait + Clock + Sync>(
    rt: &R,
    alloc: Global,
    points: &str,
    calls: &str,
    others: &str,
) -> Result<String<Global>, NoMemory> {
    let rows = with_each(alloc, points, PAGES)?;
    let rows = with_each(alloc, rows.as_str(), calls)?;
    let rows = with_each(alloc, rows.as_str(), others)?;
    met(rt, alloc, rows.as_str())
}

#[test]
fn an_access_is_held_while_its_page_is_changed(rt: HostRuntime) -> Result<(), Fail> {
    let met = all_met(
        &rt,
        rt.alloc(),
        POINTS_OF_ACCESSES,
        ACCESSES,
        BESIDE_ACCESSES,
    )?;
    assert_eq!(rt; met.as_str(), "192 met");
    Ok(())
}

#[test]
fn a_change_is_held_while_its_page_is_used(rt: HostRuntime) -> Result<(), Fail> {
    let met = all_met(&rt, rt.alloc(), POINTS_OF_CHANGES, CHANGES, BESIDE_CHANGES)?;
    assert_eq!(rt; met.as_str(), "180 met");
    Ok(())
}
