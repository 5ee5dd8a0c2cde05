//! Scripts that are run line by line, and what each line comes to (`test_lanes::rows`).
use std::test::Fail;
use test_lanes::rows::wrong_rows;

const CHANGES: &str = "\
# a page is mapped and unmapped
vm 1 4; c0! mmap 0x10000 4096 rw- pfa; c0! munmap 0x10000 4096 => 0x10000; done; certified 2
# what isn't mapped is unmapped
vm 1 4; c0! munmap 0x50000 8192 => done; certified 1
# a mapping of no length, and one that goes with a byte of it
vm 1 4; c0! mmap 0x10000 0 rw- pfa; c0! mmap 0x10000 4096 rw- pfa; c0! munmap 0x10000 1; c0! load 0x10fff => einval; 0x10000; done; segv maperr; certified 4
# accesses of pages that aren't mapped, and of one that isn't valid
vm 1 4; c0! munmap 0x50000 8192; c0! load 0x50000; c0! load 0 => done; segv maperr; segv maperr; certified 3
# the last page of a node and the first of the next
vm 1 4; c0! mmap 0x1ff000 8192 rw- pfa => 0x1ff000; certified 1
# two mappings without a hint
vm 1 4; c0! mmap 0 1 rw- pa; c0! mmap 0 1 rw- pa => 0x8000000000; 0x8000001000; certified 2
# hints that are free, taken, past the last page and the last page
vm 1 4; c0! mmap 0x20000 4096 rw- pa; c0! mmap 0x20000 4096 rw- pa; c0! mmap 0x7ffffffff000 4097 rw- pa; c0! mmap 0x7ffffffff001 4096 rw- pa => 0x20000; 0x8000000000; 0x8000001000; 0x7ffffffff000; certified 4
# all pages, and one more
vm 1 4; c0! mmap 0x1000 0x7ffffffff000 rw- pfa; c0! mmap 0x1000 0x7ffffffff001 rw- pfa => 0x1000; enomem; certified 2
# a window that is full
vm 1 4; c0! mmap 0x8000000000 0x8000000000 rw- pfa; c0! mmap 0 4096 rw- pa => 0x8000000000; enomem; certified 2
# arguments that are refused, and a mapping of all that a file may have
vm 1 4; file 0 rw 10 0; c0! mmap 0x10000 4096 rw- psfa; c0! mmap 0x10001 4096 rw- pfa; c0! mmap 0 4096 rw- pfa; c0! mmap 0 4096 r-- p 7 0; c0! mmap 0 4096 r-- p 0 0x800000000000; c0! mmap 0 4096 r-- p 0 0x7ffffffff000 => einval; einval; enomem; ebadf; eoverflow; 0x8000000000; certified 6
# a protection of pages that aren't all mapped
vm 1 4; c0! mmap 0x10000 4096 rw- pfa; c0! mprotect 0x10000 8192 r--; c0! mprotect 0x10000 4096 r--; c0! mprotect 0x10000 0 rw-; c0! mprotect 0x10001 0 rw- => 0x10000; enomem; done; done; einval; certified 5
# two cores, on the same pages and on others
vm 2 4; c0! mmap 0x10000 8192 rw- pfa; c1! munmap 0x11000 4096; c1! mmap 0 4096 rw- pa; c0! mmap 0 4096 rw- pa => 0x10000; done; 0x10000000000; 0x8000000000; certified 4
# a core that used a page is told of its protection, and nobody is told of the next one
vm 2 4; c0! mmap 0x10000 4096 rw- pfa; c1! load 0x10000; c0! mprotect 0x10000 4096 rw-; c0! mprotect 0x10000 4096 rw- => 0x10000; 0; done; done; certified 4
# the share of two cores is one call each, of which a refusal is one
vm 2 4 2; c0! load 0; c0! load 0; c1! mmap 0x10000 0 rw- pfa; c1! load 0 => segv maperr; V1; einval; V1; certified 2
# fewer calls than cores
vm 2 4 1; c0! load 0; c1! mmap 0x10000 4096 rw- pfa => V1; V1; certified 0
# an epoch ends with the last core's flush
vm 2 4; c0 flush; c0 flush; c1 flush; c0 flush; c0 review => step; idle; step; step; idle; certified 0
# three nodes are folded
vm 1 4; c0! mmap 0x10000 4096 rw- pfa; c0! munmap 0x10000 4096; fold 0x1000; fold 0x1000; fold 0x1000; fold 0x1000 => 0x10000; done; step; step; step; idle; certified 2
# a node is not folded where a page is mapped, nor where its address isn't valid
vm 1 4; c0! mmap 0x10000 4096 rw- pfa; fold 0x1000; fold 0x10000; fold 0; fold 0x800000000000; fold 0xffffffffffffffff => 0x10000; idle; idle; idle; idle; idle; certified 1
# a node is folded whose pages are all mapped alike, and changed as a whole then
vm 1 4; c0! mmap 0x200000 0x200000 rw- pfa; c0! mprotect 0x200000 4096 r--; c0! mprotect 0x200000 4096 rw-; fold 0x200000; c0! mprotect 0x200000 0x200000 r-- => 0x200000; done; done; step; done; certified 4
";

const ACCESSES: &str = "\
# a byte that was stored is read, and its neighbour is zero
vm 1 4; c0! mmap 0x10000 4096 rw- pfa; c0! store 0x10004 41; c0! load 0x10004; c0! load 0x10005 => 0x10000; done; 41; 0; certified 4
# a new mapping in the place of an old one has zeros
vm 1 4; c0! mmap 0x10000 4096 rw- pfa; c0! store 0x10000 41; c0! mmap 0x10000 4096 rw- pfa; c0! load 0x10000 => 0x10000; done; 0x10000; 0; certified 4
# a refused protection changes nothing
vm 1 4; c0! mmap 0x10000 4096 rw- pfa; c0! mprotect 0x10000 8192 r--; c0! store 0x10000 9 => 0x10000; enomem; done; certified 3
# the last page of a file ends with zeros, and the next one isn't there
vm 1 4; file 0 rw 5000 7; c0! mmap 0x10000 12288 rw- sf 0 0; c0! load 0x11387; c0! load 0x11388; c0! load 0x12000 => 0x10000; 142; 0; bus; certified 4
# a byte is seen by the other core, and gone with its page
vm 2 4; c0! mmap 0x10000 4096 rw- pfa; c0! store 0x10000 65; c1! load 0x10000; c0! munmap 0x10000 4096; c1! load 0x10000 => 0x10000; done; 65; done; segv maperr; certified 5
# a frame comes back two epochs after it was given up
vm 1 1; c0! mmap 0x10000 8192 rw- pfa; c0! store 0x10000 1; c0! munmap 0x10000 4096; c0! store 0x11000 2; c0 flush; c0 flush; c0 review; c0 flush; c0 review; c0! store 0x11000 2 => 0x10000; done; done; noframe; step; step; idle; step; step; done; certified 5
# a file that isn't open for writing is read alone, and a private page of it is written
vm 1 4; file 0 r 4096 1; c0! mmap 0x10000 4096 rw- sf 0 0; c0! mmap 0x10000 4096 r-- sf 0 0; c0! mprotect 0x10000 4096 rw-; c0! mmap 0x20000 4096 rw- pf 0 0; c0! store 0x20000 9; c0! load 0x10000 => eacces; 0x10000; eacces; 0x20000; done; 1; certified 6
# a private page shows the stores of others until its own first store, and the file never sees that
vm 1 4; file 0 rw 4096 0; c0! mmap 0x10000 4096 rw- pf 0 0; c0! mmap 0x20000 4096 rw- sf 0 0; c0! load 0x10005; c0! store 0x20005 99; c0! load 0x10005; c0! store 0x10005 7; c0! load 0x20005 => 0x10000; 0x20000; 5; done; 99; done; 99; certified 7
# the right to write lets read, but not fetch, and without rights nothing is read
vm 1 4; c0! mmap 0x10000 4096 -w- pfa; c0! load 0x10000; c0! fetch 0x10000; c0! mprotect 0x10000 4096 ---; c0! load 0x10000; c0! mprotect 0x10000 0 rw-; c0! mprotect 0x10001 0 rw- => 0x10000; 0; segv accerr; done; segv accerr; done; einval; certified 7
# a private page gets its copy once the other core has let the file's page go
vm 2 4; file 0 r 4096 0; c0! mmap 0x10000 4096 rw- pf 0 0; c0! load 0x10005; c1! load 0x10005; c0! store 0x10005 9; c1! load 0x10005; c1! load 0x10006 => 0x10000; 5; 5; done; 9; 6; certified 6
";

#[test]
fn rows_of_changes(rt: HostRuntime) -> Result<(), Fail> {
    let wrong = wrong_rows(&rt, rt.alloc(), CHANGES)?;
    assert_eq!(rt; wrong.as_str(), "");
    Ok(())
}

#[test]
fn rows_of_accesses(rt: HostRuntime) -> Result<(), Fail> {
    let wrong = wrong_rows(&rt, rt.alloc(), ACCESSES)?;
    assert_eq!(rt; wrong.as_str(), "");
    Ok(())
}
