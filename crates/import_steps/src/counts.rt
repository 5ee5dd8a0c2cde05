//! How many lines became what.
ghost use Rattle.std.specs.Prelude.{◌≡◌, ◌+◌, ◌<◌, ◌^◌};
ghost use Rattle.import_steps.specs.Counts.{begun_anew, changed_lines, counted, left_lines, no_counts, total};

use crate::losses::Losses;
use crate::taking::{Fate, LineChange, Reason};

/// How many lines were kept, changed and left out, and why.
#[derive(Clone, Copy)]
pub struct LineCounts {
    /// Kept with their numbers.
    pub kept: u64,
    /// `brk`, as `mmap` or `munmap`.
    pub heap: u64,
    /// `mremap`, as `munmap` and `mmap`s.
    pub moves: u64,
    /// Mappings of files, as mappings of anonymous pages.
    pub files: u64,
    /// `pkey_mprotect`, as `mprotect`.
    pub keyed: u64,
    /// `shmat` and `shmdt`, as `mmap` of a shared file and `munmap`.
    pub shared: u64,
    /// `madvise` with `MADV_DONTNEED`, as `mmap`s.
    pub cleared: u64,
    /// Halves of calls that act in another line.
    pub half: u64,
    /// Calls that failed.
    pub failed: u64,
    /// Lines of other processes.
    pub elsewhere: u64,
    /// Lines that were kept or changed, before a program began anew.
    pub before: u64,
    /// Calls in forms that aren't read, or of which the log has the beginning alone.
    pub unread: u64,
    /// `brk` and `mremap` by which no page came or went.
    pub still: u64,
    /// `mprotect` or `mremap` of pages that no call mapped before.
    pub unmapped: u64,
    /// Calls that change the address space in a way that no trace has.
    pub lost: Losses,
    /// Programs that began.
    pub begins: u64,
    /// Other calls, events, and lines that say nothing.
    pub other: u64,
}

impl LineCounts {
    /// No line yet.
    pub fn new() -> LineCounts
        ensures { result ≡ no_counts }
    {
        LineCounts {
            kept: 0,
            heap: 0,
            moves: 0,
            files: 0,
            keyed: 0,
            shared: 0,
            cleared: 0,
            half: 0,
            failed: 0,
            elsewhere: 0,
            before: 0,
            unread: 0,
            still: 0,
            unmapped: 0,
            lost: Losses::new(),
            begins: 0,
            other: 0,
        }
    }

    /// How many lines were changed.
    pub fn changed(&self) -> u64
        requires { total self.now < 2 ^ 64 }
        ensures { result ≡ changed_lines self.now }
    {
        self.heap + self.moves + self.files + self.keyed + self.shared + self.cleared
    }

    /// How many lines were left out.
    pub fn left(&self) -> u64
        requires { total self.now < 2 ^ 64 }
        ensures { result ≡ left_lines self.now }
    {
        self.half
            + self.failed
            + self.elsewhere
            + self.before
            + self.unread
            + self.still
            + self.unmapped
            + self.lost.total()
            + self.begins
            + self.other
    }

    // One line more, at which a program begins.
    fn begin(self) -> LineCounts
        requires { total self + 1 < 2 ^ 64 }
        ensures value { result ≡ begun_anew self }
        ensures total { total result ≡ total self + 1 }
    {
        let before = self.before + self.kept + self.changed() + self.lost.total();
        LineCounts {
            before,
            half: self.half,
            failed: self.failed,
            elsewhere: self.elsewhere,
            unread: self.unread,
            still: self.still,
            unmapped: self.unmapped,
            begins: self.begins + 1,
            other: self.other,
            ..LineCounts::new()
        }
    }

    // One line more, which is left out.
    fn leave(self, reason: Reason) -> LineCounts
        requires { total self + 1 < 2 ^ 64 }
        ensures value { result ≡ counted self (Fate.Left reason) }
        ensures total { total result ≡ total self + 1 }
    {
        let mut counts = self;
        match reason {
            Reason::Half => counts.half += 1,
            Reason::Failed => counts.failed += 1,
            Reason::Elsewhere => counts.elsewhere += 1,
            Reason::Unread => counts.unread += 1,
            Reason::Still => counts.still += 1,
            Reason::Unmapped => counts.unmapped += 1,
            Reason::Other => counts.other += 1,
            Reason::Lost(lost) => counts.lost = counts.lost.and(lost),
            Reason::Begins => return self.begin(),
        }
        counts
    }

    /// One line more, with this fate. Where a program begins, the lines that were kept or changed before are left out.
    pub fn and(self, fate: Fate) -> LineCounts
        requires { total self + 1 < 2 ^ 64 }
        ensures value { result ≡ counted self fate }
        ensures total { total result ≡ total self + 1 }
    {
        let mut counts = self;
        match fate {
            Fate::Kept => counts.kept += 1,
            Fate::Changed(LineChange::Heap) => counts.heap += 1,
            Fate::Changed(LineChange::Move) => counts.moves += 1,
            Fate::Changed(LineChange::File) => counts.files += 1,
            Fate::Changed(LineChange::Key) => counts.keyed += 1,
            Fate::Changed(LineChange::Shared) => counts.shared += 1,
            Fate::Changed(LineChange::Clear) => counts.cleared += 1,
            Fate::Left(reason) => return self.leave(reason),
        }
        counts
    }
}
