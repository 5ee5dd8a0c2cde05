//! How many lines of a list became what.
ghost use Rattle.std.specs.Prelude.{◌≡◌, ◌+◌, ◌<◌, ◌^◌};
ghost use Rattle.import_log.specs.Entries.{counted, left_entries, no_entries, total};

/// What becomes of a line of a list.
#[derive(Clone, Copy)]
pub enum Entered {
    /// It is a mapping, with its numbers.
    Kept,
    /// A mapping of a file, as one of anonymous pages: the file is the 17th or a later one, or the mapping reaches
    /// past its first 1,048,576 bytes.
    Changed,
    /// The kernel's own pages.
    Kernel,
    /// It isn't all within the addresses of a trace, from 4,096 up to 2^47, as `[vsyscall]`.
    Outside,
    /// It isn't of the form of such lines.
    Unread,
}

/// How many lines were kept, changed and left out, and why.
#[derive(Clone, Copy)]
pub struct Entries {
    /// Kept with their numbers.
    pub kept: u64,
    /// Mappings of files, as mappings of anonymous pages.
    pub changed: u64,
    /// Left out: the kernel's own pages.
    pub kernel: u64,
    /// Left out: not within the addresses of a trace.
    pub outside: u64,
    /// Left out: not of the form of such lines.
    pub unread: u64,
}

impl Entries {
    /// No line yet.
    pub fn new() -> Entries
        ensures { result ≡ no_entries }
    {
        Entries {
            kept: 0,
            changed: 0,
            kernel: 0,
            outside: 0,
            unread: 0,
        }
    }

    /// How many lines were left out.
    pub fn left(&self) -> u64
        requires { total self.now < 2 ^ 64 }
        ensures { result ≡ left_entries self.now }
    {
        self.kernel + self.outside + self.unread
    }

    /// One line more.
    pub fn and(self, entered: Entered) -> Entries
        requires { total self + 1 < 2 ^ 64 }
        ensures value { result ≡ counted self entered }
        ensures total { total result ≡ total self + 1 }
    {
        let mut entries = self;
        match entered {
            Entered::Kept => entries.kept += 1,
            Entered::Changed => entries.changed += 1,
            Entered::Kernel => entries.kernel += 1,
            Entered::Outside => entries.outside += 1,
            Entered::Unread => entries.unread += 1,
        }
        entries
    }
}
