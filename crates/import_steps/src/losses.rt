//! How many calls change the address space in a way that no trace has, by their names.
ghost use Rattle.std.specs.Prelude.{◌≡◌, ◌+◌, ◌<◌, ◌^◌};
ghost use Rattle.import_steps.specs.Losses.{lost_lines, no_losses, with_lost};

use import_forms::said::Lost;

/// How many calls are left out that change the address space, of each kind.
#[derive(Clone, Copy)]
pub struct Losses {
    /// `shmat` of memory whose size the log doesn't say.
    pub attach: u64,
    /// `shmdt` of such memory.
    pub detach: u64,
    /// `madvise` that drops the bytes of pages.
    pub drops: u64,
    /// `remap_file_pages`.
    pub remaps: u64,
    /// `mmap` with `MAP_GROWSDOWN`.
    pub grows: u64,
    /// `mmap` with `MAP_HUGETLB`.
    pub huge: u64,
    /// `userfaultfd`.
    pub faults: u64,
    /// `io_setup`, `io_destroy` and `map_shadow_stack`.
    pub others: u64,
}

impl Losses {
    /// None yet.
    pub fn new() -> Losses
        ensures { result ≡ no_losses }
    {
        Losses {
            attach: 0,
            detach: 0,
            drops: 0,
            remaps: 0,
            grows: 0,
            huge: 0,
            faults: 0,
            others: 0,
        }
    }

    /// How many there are of all kinds.
    pub fn total(&self) -> u64
        requires { lost_lines self.now < 2 ^ 64 }
        ensures { result ≡ lost_lines self.now }
    {
        self.attach
            + self.detach
            + self.drops
            + self.remaps
            + self.grows
            + self.huge
            + self.faults
            + self.others
    }

    /// One call more.
    pub fn and(self, lost: Lost) -> Losses
        requires { lost_lines self + 1 < 2 ^ 64 }
        ensures value { result ≡ with_lost self lost }
        ensures total { lost_lines result ≡ lost_lines self + 1 }
    {
        let mut losses = self;
        match lost {
            Lost::Attach => losses.attach += 1,
            Lost::Detach => losses.detach += 1,
            Lost::Drops => losses.drops += 1,
            Lost::Remaps => losses.remaps += 1,
            Lost::Grows => losses.grows += 1,
            Lost::Huge => losses.huge += 1,
            Lost::Faults => losses.faults += 1,
            Lost::Others => losses.others += 1,
        }
        losses
    }
}
