//! Calls, ends and scripts whose memory is refused (`test_lanes::starving`). What is refused leaves the space to the other core, and all notes are
//! certified.
use std::test::Fail;
use test_lanes::starving::wrong_starved;

/// Of an unmapping of many slots memory runs out with some locked, and with all. A change of one page takes memory for its notes and its
/// page's history alone, whose lists grow by doubling, and so none once they have room.
const CHANGES: &str = "\
vm 2 4 | c0! mmap 0x10000 8192 rw- pfa | c1! mmap 0 4096 rw- pa; c1! munmap 0x10000 8192 | 0x10000000000; done | early
vm 2 4 | c0! mmap 0 8192 rw- pa | c1! mmap 0x10000 4096 rw- pfa; c1! munmap 0x8000000000 8192 | 0x10000; done | early
vm 2 4; c0! mmap 0x200000 0x200000 rw- pfa | c0! munmap 0x201000 8192 / c0! mprotect 0x201000 8192 r-- | c1! mmap 0 4096 rw- pa; c1! munmap 0x200000 0x200000 | 0x200000; 0x10000000000; done | early
vm 2 4; c0! mmap 0x10000 0x14000 rw- pfa | c0! munmap 0x10000 0x14000 | c1! mmap 0 4096 rw- pa; c1! munmap 0x10000 0x14000 | 0x10000; 0x10000000000; done | early
vm 2 4; c0! mmap 0x10000 1 rw- pfa; c0! mmap 0x10000 1 rw- pfa; c0! mmap 0x10000 1 rw- pfa; c0! mmap 0x10000 1 rw- pfa; c0! mmap 0x10000 1 rw- pfa | c0! mmap 0x10000 1 rw- pfa | c1! munmap 0x10000 1 | 0x10000; 0x10000; 0x10000; 0x10000; 0x10000; done | never
";

/// The first access of an anonymous page, of a shared page of a file, which has its frame, and of a private one: the core has no tables for the
/// page yet, so its entry wants memory, and is refused it once (late). The first store of a page that another core reads, which drops it, and reads the same
/// bytes as before: what is told wants memory before its entry does (early and late). If both cores have tables for the page, its entry wants no memory.
const ACCESSES: &str = "\
vm 2 4; c0! mmap 0x10000 8192 rwx pfa | c0! load 0x10000 / c0! store 0x10000 1 / c0! fetch 0x10000 | c1! load 0x10001; c1! store 0x10000 7; c0! load 0x10000; c0! store 0x11000 1; c1! munmap 0x10000 8192 | 0x10000; 0; done; 7; done; done | late
vm 2 4; file 0 rw 4096 3; c0! mmap 0x10000 4096 rw- sf 0 0; c0! mmap 0x20000 4096 rw- sf 0 0; c1! store 0x20001 9 | c0! load 0x10000 / c0! store 0x10000 1 | c1! load 0x10001; c1! store 0x10000 7; c0! load 0x10000; c0! load 0x20000; c1! munmap 0x10000 4096 | 0x10000; 0x20000; done; 9; done; 7; 7; done | late
vm 2 4; file 0 rw 4096 3; c0! mmap 0x10000 4096 rw- pf 0 0 | c0! load 0x10000 / c0! store 0x10000 1 | c1! load 0x10001; c1! store 0x10000 7; c0! load 0x10000; c0! load 0x10002; c1! munmap 0x10000 4096 | 0x10000; 4; done; 7; 5; done | late
vm 2 4; file 0 rw 4096 3; c0! mmap 0x10000 4096 rw- pf 0 0; c1! load 0x10000 | c0! store 0x10000 1 | c1! load 0x10001; c1! store 0x10000 7; c0! load 0x10000; c0! load 0x10002; c1! munmap 0x10000 4096 | 0x10000; 3; 4; done; 7; 5; done | early and late
vm 2 4; file 0 rw 4096 3; c0! mmap 0x10000 4096 rw- pf 0 0; c1! load 0x10000; c0! load 0x10000 | c0! store 0x10000 1 | c1! load 0x10001; c1! store 0x10000 7; c0! load 0x10000; c0! load 0x10002; c1! munmap 0x10000 4096 | 0x10000; 3; 3; 4; done; 7; 5; done | early
";

/// A space whose end is refused answers a call, and ends once there is memory. Of a script the space is refused; of its tasks, in a space that
/// is there, one of them, and the certificate of their notes.
const SPACES: &str = "\
vm 1 4 | end | - | - | early
vm 2 2; file 0 rw 5000 7; c0! mmap 0x10000 8192 rw- pfa; c1! store 0x10000 1; c0 flush; c1 review; c1! munmap 0x10000 4096 | script | - | - | early
vm 2 2; file 0 rw 5000 7; c0! mmap 0x10000 8192 rw- pfa; c1! store 0x10000 1; c0 flush; c1 review; c1! munmap 0x10000 4096 | tasks | - | - | early and late
";

#[test]
fn each_growth_of_a_change_is_refused(rt: HostRuntime) -> Result<(), Fail> {
    let wrong = wrong_starved(&rt, rt.alloc(), CHANGES)?;
    assert_eq!(rt; wrong.as_str(), "");
    Ok(())
}

#[test]
fn each_growth_of_an_access_is_refused(rt: HostRuntime) -> Result<(), Fail> {
    let wrong = wrong_starved(&rt, rt.alloc(), ACCESSES)?;
    assert_eq!(rt; wrong.as_str(), "");
    Ok(())
}

#[test]
fn each_growth_of_an_end_and_of_a_script_is_refused(rt: HostRuntime) -> Result<(), Fail> {
    let wrong = wrong_starved(&rt, rt.alloc(), SPACES)?;
    assert_eq!(rt; wrong.as_str(), "");
    Ok(())
}
