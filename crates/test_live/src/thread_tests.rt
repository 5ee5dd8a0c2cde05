//! Threads of requests that look random, on the same pages (`test_lanes::scripts`).
use std::test::Fail;
use test_lanes::scripts::{Asked, wrong_runs};

/// How many scripts there are of each space; `bench/stress.sh` runs more.
const SEEDS: u64 = 10;

/// How many requests each thread makes.
const ASKS: u64 = 200;

/// Changes alone: of eight pages, and of the core's window.
const CHANGES: &str = "\
! mmap P000 1 rw- pfa
! mmap P000 1 r-- pfa
! mmap P000 0x1801 r-- pfa
! mmap P000 0x3001 r-x pfa
! mmap P000 0x1001 rw- pa
! mmap P000 0x2801 r-- pa
! mmap 0 1 rw- pa
! mmap 0 0x3001 r-x pa
! mmap W00001000 0x1001 r-- pa
! munmap P000 1
! munmap P000 0x1001
! munmap P000 0x2001
! munmap P000 0x3001
! munmap W00000000 0x400000
! mprotect P000 1 rw-
! mprotect P000 0x1001 r--
! mprotect P000 0x2801 r-x
! mprotect P000 0x1801 rw-
 flush
 review";

/// Loads, stores and fetches too, of pages of two files and of none, and calls whose arguments are refused.
const ACCESSES: &str = "\
! mmap P000 0x3001 rw- pfa
! mmap P000 0x1001 rw- sf 0 0
! mmap P000 0x2001 rw- pf 0 0x1000
! mmap P000 1 r-x pf 1 0
! mmap P000 0x1001 rw- s 1 0x1000
! mmap P000 0x1001 rw- sfa
! mmap P000 0x1801 rwx pfa
! mmap P001 1 rw- pfa
! mmap 0 0x1001 rw- pa
! munmap P000 0x1001
! munmap P000 1
! munmap W00000000 0x400000
! mprotect P000 0x1801 r--
! mprotect P000 0x2001 rw-
! load P000
! load P001
! load Pfff
! load P000
! load P001
! load W00000000
! load 0
! fetch P000
! fetch P001
! store P000 1
! store P001 2
! store Pfff 3
! store P000 4
! store P001 5
! store Pfff 6
! store P000 7
! store P001 8
! store W00000001 9
 flush
 flush
 flush
 review
 review";

/// Each core begins with a mapping of its whole window, and often looks for room there, of which there is none: no line divides it.
const WINDOWS: &str = "\
! mmap W00000000 0x8000000000 rw- pfa
! mmap 0 1 rw- pa
! mmap 0 0x1001 rw- pa
! mmap P000 0x1801 rw- pa
! mmap P000 0x1801 rw- pfa
! mmap P000 1 rw- sf 0 0
! mmap P000 0x1001 rw- pf 1 0
! munmap P000 0x1001
! munmap P000 1
! mprotect P000 0x1801 r--
! load P000
! load P001
! load P000
! store P000 1
! store P001 2
! store P000 3
! store P001 4
! fetch P000
 flush
 review";

#[test]
fn changes(rt: HostRuntime) -> Result<(), Fail> {
    let asked = Asked {
        lines: CHANGES,
        count: ASKS,
    };
    let wrong = wrong_runs(&rt, rt.alloc(), "vm 2 4\nvm 4 4", asked, SEEDS)?;
    assert_eq!(rt; wrong.as_str(), "");
    Ok(())
}

// The last core that marks an epoch begins the next one, so that each may mark again.
#[test]
fn flushes(rt: HostRuntime) -> Result<(), Fail> {
    let asked = Asked {
        lines: " flush\n flush",
        count: 20_000,
    };
    let wrong = wrong_runs(&rt, rt.alloc(), "vm 2 4\nvm 4 4", asked, 1)?;
    assert_eq!(rt; wrong.as_str(), "");
    Ok(())
}

/// Spaces of two, four and sixteen threads, and of one frame.
const SPACES: &str = "\
vm 2 64 1048576; file 0 rw 5000 7; file 1 rw 8192 1
vm 4 64 1048576; file 0 rw 5000 7; file 1 rw 8192 1
vm 2 1 1048576; file 0 rw 5000 7; file 1 rw 8192 1
vm 4 1 1048576; file 0 rw 5000 7; file 1 rw 8192 1
vm 16 1 1048576; file 0 rw 5000 7; file 1 rw 8192 1
";

#[test]
fn accesses(rt: HostRuntime) -> Result<(), Fail> {
    let asked = Asked {
        lines: ACCESSES,
        count: ASKS,
    };
    let wrong = wrong_runs(&rt, rt.alloc(), SPACES, asked, SEEDS)?;
    assert_eq!(rt; wrong.as_str(), "");
    Ok(())
}

/// The space of sixteen threads.
const SIXTEEN: &str = "vm 16 64 1048576; file 0 rw 5000 7; file 1 rw 8192 1";

#[test]
fn sixteen_threads(rt: HostRuntime) -> Result<(), Fail> {
    let asked = Asked {
        lines: ACCESSES,
        count: ASKS,
    };
    let wrong = wrong_runs(&rt, rt.alloc(), SIXTEEN, asked, SEEDS)?;
    assert_eq!(rt; wrong.as_str(), "");
    Ok(())
}

/// Spaces in which windows are full.
const FULL: &str = "\
vm 2 64 1048576; file 0 rw 5000 7; file 1 rw 8192 1
vm 4 64 1048576; file 0 rw 5000 7; file 1 rw 8192 1
vm 16 64 1048576; file 0 rw 5000 7; file 1 rw 8192 1
";

#[test]
fn full_windows(rt: HostRuntime) -> Result<(), Fail> {
    let asked = Asked {
        lines: WINDOWS,
        count: ASKS,
    };
    let wrong = wrong_runs(&rt, rt.alloc(), FULL, asked, SEEDS)?;
    assert_eq!(rt; wrong.as_str(), "");
    Ok(())
}

/// Spaces of up to 64 cores.
const MANY: &str = "\
vm 3 0; file 0 rw 9000 7; file 1 r 4100 200
vm 8 3; file 0 rw 9000 7; file 1 r 4100 200
vm 17 5; file 0 rw 9000 7; file 1 r 4100 200
vm 33 7; file 0 rw 9000 7; file 1 r 4100 200
vm 64 11; file 0 rw 9000 7; file 1 r 4100 200
";

#[test]
fn many_cores(rt: HostRuntime) -> Result<(), Fail> {
    let asked = Asked {
        lines: ACCESSES,
        count: 8,
    };
    let wrong = wrong_runs(&rt, rt.alloc(), MANY, asked, SEEDS)?;
    assert_eq!(rt; wrong.as_str(), "");
    Ok(())
}

/// A space of one core, in which each call finds a frame.
const ALONE: &str = "vm 1 4096 1048576; file 0 rw 9000 7; file 1 r 4100 200";

#[test]
fn ten_thousand_calls_of_a_core_alone(rt: HostRuntime) -> Result<(), Fail> {
    let asked = Asked {
        lines: ACCESSES,
        count: 10_000,
    };
    let wrong = wrong_runs(&rt, rt.alloc(), ALONE, asked, 1)?;
    assert_eq!(rt; wrong.as_str(), "");
    Ok(())
}
