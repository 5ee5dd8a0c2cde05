//! Lines as the format's description gives them, good and bad: what they say, and which of them are loads and stores in the usual form.
use std::alloc::{AllocError, Global};
use std::test::Fail;
use trace_text::access_line::read_access;
use trace_text::line::{is_printable_line, read_line};

/// Sizes of a space. Each row of a table is a line and what it says, as `Debug` shows that.
const SPACES: &str = "\
vm 1 4 => Some(Space { cores: 1, frames: 4, calls: 4096 })
vm 1 1 2 => Some(Space { cores: 1, frames: 1, calls: 2 })
  vm  0x40   007  => Some(Space { cores: 64, frames: 7, calls: 4096 })
";

/// Files of a space.
const FILES: &str = "\
file 0 r 4096 1 => Some(File { number: 0, mode: R, len: 4096, seed: 1 })
file 2 w 0 255 => Some(File { number: 2, mode: W, len: 0, seed: 255 })
 file  0x10 rw 0x100001  007  => Some(File { number: 16, mode: RW, len: 1048577, seed: 7 })
";

/// Calls of a core. Words stand apart by any number of spaces, and a number may have any number of
/// zeros in front.
const REQUESTS: &str = "\
c0! mmap 0x10000 4096 rw- pfa => Some(Now(CoreId { index: 0 }, Mmap { addr: 65536, len: 4096, \
    prot: Prot { read: true, write: true, exec: false }, \
    flags: Flags { private: true, shared: false, fixed: true, anon: true }, file: 0, off: 0 }))
c0! mmap 0 0x2000 rw- s 3 0x1000 => Some(Now(CoreId { index: 0 }, Mmap { addr: 0, len: 8192, \
    prot: Prot { read: true, write: true, exec: false }, \
    flags: Flags { private: false, shared: true, fixed: false, anon: false }, file: 3, off: 4096 }))
c0! munmap 0x10000 0x1000 => Some(Now(CoreId { index: 0 }, Munmap { addr: 65536, len: 4096 }))
c0! mprotect 0x10000 1 rw- => Some(Now(CoreId { index: 0 }, Mprotect { addr: 65536, len: 1, \
    prot: Prot { read: true, write: true, exec: false } }))
c0! load 0xFFFFffffFFFFffff => Some(Now(CoreId { index: 0 }, Load { addr: 18446744073709551615 }))
c0! store 0x10004 41 => Some(Now(CoreId { index: 0 }, Store { addr: 65540, byte: 41 }))
c0! fetch 00010 => Some(Now(CoreId { index: 0 }, Fetch { addr: 10 }))
  c0!  load   0x00000000000000010   => Some(Now(CoreId { index: 0 }, Load { addr: 16 }))
c0! store 00000000000000000007  0x00000000000000029 => Some(Now(CoreId { index: 0 }, \
    Store { addr: 7, byte: 41 }))
";

/// Actions of a core. An address stands for its page, the last byte of a page too.
const ACTIONS: &str = "\
c7 call load 0 => Some(Act(CoreId { index: 7 }, Call(Load { addr: 0 })))
c63 go => Some(Act(CoreId { index: 63 }, Go))
c1  take => Some(Act(CoreId { index: 1 }, Take))
c63 take => Some(Act(CoreId { index: 63 }, Take))
c0 flush  => Some(Act(CoreId { index: 0 }, Flush))
c0 review => Some(Act(CoreId { index: 0 }, Review))
c2 giveup => Some(Act(CoreId { index: 2 }, GiveUp))
c0 frame 3 => Some(Act(CoreId { index: 0 }, Frame(3)))
c0 frame 18446744073709551615 => Some(Act(CoreId { index: 0 }, Frame(18446744073709551615)))
c5 guess 0x8000005fff => Some(Act(CoreId { index: 5 }, Guess(134217733)))
c0  guess 18446744073709551615  => Some(Act(CoreId { index: 0 }, Guess(4503599627370495)))
c12 whole => Some(Act(CoreId { index: 12 }, Whole))
c0 walk 0x10000 => Some(Act(CoreId { index: 0 }, Walk(16)))
c10 walk 0 => Some(Act(CoreId { index: 10 }, Walk(0)))
c0 evict 0x10FFF => Some(Act(CoreId { index: 0 }, Evict(16)))
c0 evict 0xffffffffffffffff => Some(Act(CoreId { index: 0 }, Evict(4503599627370495)))
";

/// Other lines, those that say nothing, and two bad ones that end in a space.
const OTHERS: &str = "\
c10 finish  => Some(Finish(CoreId { index: 10 }))
c9 finish => Some(Finish(CoreId { index: 9 }))
fold 0x1000 => Some(Fold(1))
fold 4095 => Some(Fold(0))
 => Some(Blank)
    => Some(Blank)
# vm 1 1 => Some(Blank)
# => Some(Blank)
c0! load  => None
c0! mmap 0 4096 rw-  => None
";

/// Whether the line is printable, and says what is written of it.
fn says(alloc: Global, line: &str, said: &str) -> Result<bool, AllocError> {
    let read = read_line(line.as_bytes());
    let shown = format!(in alloc; "{read:?}")?;
    Ok(is_printable_line(line.as_bytes(), &read) && shown.as_str() == said)
}

/// The first row whose line says something else.
fn first_wrong<'a>(alloc: Global, rows: &'a str) -> Result<Option<&'a str>, AllocError> {
    for row in rows.lines() {
        match row.split_once(" => ") {
            Some((line, said)) if says(alloc, line, said)? => {}
            _ => return Ok(Some(row)),
        }
    }
    Ok(None)
}

#[test]
fn lines_say_what_is_written_of_them(rt: HostRuntime) -> Result<(), Fail> {
    for rows in [SPACES, FILES, REQUESTS, ACTIONS, OTHERS] {
        assert_eq!(rt; first_wrong(rt.alloc(), rows)?, None);
    }
    Ok(())
}

/// Loads and stores in the usual form are read at once; each of these lines isn't one, though some say an access.
const OTHER_ACCESSES: &str = "\
c64! load 1
c01! load 1
c7a! load 1
c100! load 1
 c1! load 1
c0! fetch 1
c0!  load 1
c0! load 1 
c0! load 00000000000000001
c0! store 1 256
c0! store 1
c0! load 1 2
c0 load 1
c0! load x
";

const BAD_LINES: &str = "\
vm 1
vm 1 4 4096 1
 # comment
file 0 rw 4096
file 0 rw 4096 256
file 0 rw 4096 7 7
file 0 wr 4096 7
file 0 - 4096 7
file rw 4096 7
file 0 rw 0x10000000000000000 7
c64 go
c01 go
C0 go
c go
c0 go on
c0! go
c0 ! load 0
c0! frob
c0! load 0x10000000000000000
c0! load 0X10
c0! load 0x
c0! load -1
c0! load
c0! load 12a
c0! load 0x1g
c0! load 0x 1
c0! load 1 2
c0! loads 0
c0!load 0
c0! store 0 256
c0! mmap 0 4096 rw- pp
c0! mmap 0 4096 rw pa
c0! mmap 0 4096 wr- pa
c0! mmap 0 4096 rw- p
c0! mmap 0 4096 rw- pa 1
c0
c0 takes
c0 Take
c0 give up
c0 take 1
c0 finis
c0 finish 1
c64 finish
c0 flush 0
c0 review c1
c0 giveup now
c0 frame
c0 frame f
c0 frame 1 2
c0 frame 18446744073709551616
c0 guess
c0 guess 0x1000 1
c0 guess 0x10000000000000000
c0! guess 0x1000
c0 whole 0x1000
c0 Whole
whole
c0 walk
c0 walk 0x1000 1
c0 evict
c0 evict 0x10000000000000000
c0 fold 0x1000
c64 take
c00 flush
take
fold
fold 0x1000 1
Fold 0x1000
fold! 0x1000
";

#[test]
fn bad_lines(rt: HostRuntime) {
    for line in BAD_LINES.lines() {
        assert!(rt; read_line(line.as_bytes()).is_none());
    }
    for line in OTHER_ACCESSES.lines() {
        assert!(rt; read_access(line.as_bytes()).is_none());
    }
    for line in ["c0! load 0x10004", "c63! store 4096 255"] {
        assert!(rt; read_access(line.as_bytes()).is_some());
    }
}
