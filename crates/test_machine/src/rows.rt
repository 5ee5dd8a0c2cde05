//! Rows of traces and of what they must give, in tables of text. A row has four lines: its name, the trace, its text, and an empty
//! one; the lines of trace and text are divided by `; `. A line that ends in ` x4` stands four times. What is expected comes from
//! POSIX.1-2017, the Intel SDM and the rules of docs/DECISIONS.md, worked out by hand. Rows of what the program can show are data of
//! `test_words`.

/// The entries of the cores' tables behind the trace, over the tree: the core, the page's address, the
/// entry (Intel SDM volume 3A, format of a page-table entry that maps a 4-KByte page).
pub const ENTRIES: &str = "\
a frame's entry has its number and P, R/W, U/S and XD
vm 1 4; c0! mmap 0x10000 4096 rw- pfa; c0 call store 0x10000 65; c0 go x4; c0 frame 3; c0 finish
c0 0x10000 0x8000000000003007

without write and with execute it has P and U/S
vm 1 4; c0! mmap 0x10000 4096 r-x pfa; c0 call load 0x10000; c0 go x4; c0 frame 3; c0 finish
c0 0x10000 0x3005

a private page that shows its file has no R/W, whatever its rights
vm 1 4; file 0 r 4096 0; c0! mmap 0x10000 4096 rw- pf 0 0; c0! load 0x10000
c0 0x10000 0x8000000000000005

its copy has it, for the core that stored
vm 2 4; file 0 r 4096 0; c0! mmap 0x10000 4096 rw- pf 0 0; c0! load 0x10000; c1! load 0x10000; \
    c0! store 0x10000 1; c1 take; c1 take; c0 finish
c0 0x10000 0x8000000000001007

a page without rights has no entry, and an entry of its tables goes with the first take
vm 2 4; c0! mmap 0x10000 4096 rw- pfa; c0! load 0x10000; c1! load 0x10000; \
    c0! mprotect 0x10000 4096 ---; c1 take; c0! load 0x10000


the one that has not taken yet has it still
vm 2 4; c0! mmap 0x10000 4096 rw- pfa; c0! load 0x10000; c1! load 0x10000; \
    c0! mprotect 0x10000 4096 ---
c1 0x10000 0x8000000000000007

";

/// A machine over the tree whose memory is full before each event, and is given back bit by bit:
/// `refused` stands before what the line gives where one of its events was refused first. A node of
/// the tree, tables of a core and the log's first copy are all that takes memory.
pub const REFUSALS: &str = "\
each of three divisions makes a node of the tree
vm 2 4 16; c0 call mmap 0x10000 4096 rw- pfa; c0 go x10
step; step; refused step x3; step x5; 0x10000

the first entry of a page needs tables
vm 2 4 16; c0! mmap 0x10000 4096 rw- pfa; c0 call store 0x10000 65; c0 go x10
refused 0x10000; step; step x6; refused step; step x2; done

a private page that is stored to first is copied as it is filled, and the copy logged; \
    the tables are there
vm 2 4 16; file 0 r 4096 0; c0! mmap 0x10000 4096 rw- pfa; c0! load 0x10000; \
    c0! mmap 0x20000 4096 rw- pf 0 0; c0 call store 0x20000 9; c0 go x10
refused 0x10000; refused 0; 0x20000; step; step x5; refused step; step x3; done

one that shows its file is copied once no core is awaited
vm 2 4 16; file 0 r 4096 0; c0! mmap 0x20000 4096 rw- pf 0 0; c0! load 0x20005; \
    c0 call store 0x20005 9; c0 go x11; c1! load 0x20005
refused 0x20000; refused 5; step; step x6; refused step; step x3; done; refused 9

a window that is held whole is divided around the place
vm 1 4 16; c0 call mmap 0 4096 rw- pa; c0 go; c0 whole; c0 go x2; c0 go x3; c0 go
step x5; refused step x3; step

neither counts, nor messages, walks, evictions, folds or a call that is given up take memory
vm 2 4 16; c0! mmap 0x10000 4096 rw- pfa; c0! store 0x10000 1; c1! load 0x10000; \
    c0! munmap 0x10000 4096; c0 giveup; c1 walk 0x10000; c1 evict 0x10000; c1 take; c1 take; \
    c0 finish; c0 flush x2; c1 flush; c0 review; fold 0x1000; c0 call mmap 0x30000 4096 rw- pfa; \
    c0 go; c0 giveup; c0 finish
refused 0x10000; refused done; refused 1; wait acks 1; idle; idle; step; step; step; done; \
    step x2; step; idle; step; step; step; step; nomemory

";

/// The same over both, where only a last line says that some event was refused.
pub const REFUSED_SOMEWHERE: &str = "\
divisions, tables, a copy, a hole and a placed mapping
vm 2 4 16; file 0 rw 4096 0; c0! mmap 0x10000 16384 rw- pf 0 0; c0! load 0x10005; \
    c1! load 0x10005; c0! store 0x10005 9; c1 take; c1 take; c0 finish; c1! load 0x10005; \
    c0! munmap 0x11000 4096; c0! mmap 0 4096 rw- pa; c0! store 0x8000000000 7; c0! load 0x11000; \
    c0! load 0x12000; c1! munmap 0x10000 16384; c0 take; c0 take; c1 finish; c0! load 0x10005
0x10000; 5; 5; wait acks 1; step; step; done; 9; done; 0x8000000000; done; segv maperr; bus; \
    wait acks 0; step; step; done; segv maperr; with refusals

";

/// A tree in a heap of the smallest multiple of 4096 bytes that has its root, all else on ample
/// memory.
pub const FULL_HEAP: &str = "\
in a heap that has room for the root alone a call finds none for a node, is given up, and \
    another core maps a slot of the root
vm 2 4; c0 call mmap 0x10000 4096 rw- pfa; c0 go; c0 go; c0 go; c0 giveup; c0 go; \
    c1! mmap 0x8000000000 0x8000000000 rw- pfa
step; step; refused; refused; step; nomemory; 0x8000000000

";
