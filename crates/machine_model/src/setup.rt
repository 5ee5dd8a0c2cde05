//! What a machine is made with, and the first fault of a setup that makes none.
//!
//! A setup is handed over, and a file's bytes with it. A clone of the allocator that is refused counts as want of
//! memory, after other faults.
ghost use Rattle.std.specs.Prelude.{◌≡◌, Option};
ghost use Rattle.machine_model.specs.Setups.{first_fault, first_fault_within, most_calls};

use frames::FileSpec;
use std::alloc::Allocator;
use std::fmt;
use vm_base::limits::{FILE_BYTES, FILE_COUNT};

/// How many calls a setup may ask for at the most.
#[derive(Clone, Copy)]
pub enum CallLimit {
    /// 1,048,576.
    Usual,
    /// 2^40, for a machine whose ledger keeps nothing.
    Long,
}

impl CallLimit {
    /// This many calls.
    pub fn calls(self) -> u64
        ensures { result ≡ most_calls self }
    {
        match self {
            CallLimit::Usual => 1_048_576,
            CallLimit::Long => 1 << 40,
        }
    }
}

/// What a machine is made with.
#[derive(Drop)]
pub struct Setup<A: Allocator> {
    /// How many cores.
    pub cores: u64,
    /// How many frames, each of 4,096 bytes.
    pub frames: u64,
    /// The files that are open from the start, by their numbers from 0 on.
    pub files: Vec<FileSpec<A>, A>,
    /// How many calls may begin.
    pub calls: u64,
}

/// Why a setup makes no machine. The first that holds is reported, in this order.
#[derive(Clone, Copy, Debug, PartialEq, Eq)]
pub enum SetupFault {
    /// There is no core, or there are more than 64.
    Cores,
    /// There are more than 65,536 frames.
    Frames,
    /// There are more than 16 files.
    TooManyFiles,
    /// A file has more than 1,048,576 bytes.
    FileTooLong,
    /// More calls are asked for than the limit: 1,048,576, unless the longer one is asked for.
    Calls,
    /// There was no memory.
    NoMemory,
}

impl fmt::Display for SetupFault {
    fn fmt<W: fmt::Write>(&self, f: &mut fmt::Formatter<W>) -> fmt::Result {
        f.write_str(match self {
            SetupFault::Cores => "S1",
            SetupFault::Frames => "S2",
            SetupFault::TooManyFiles => "S3",
            SetupFault::FileTooLong => "S4",
            SetupFault::Calls => "S5",
            SetupFault::NoMemory => "S6",
        })
    }
}

/// The first fault of this many cores, frames, files and calls, at most 1,048,576 of these,
/// if they have one; `has_long` tells whether one of the files has more bytes than a file may
/// have. No memory is looked at, so that a setup can be tested before its files are there.
pub fn first_fault(
    cores: u64,
    frames: u64,
    files: u64,
    has_long: bool,
    calls: u64,
) -> Option<SetupFault>
    ensures { result ≡ first_fault cores frames files has_long calls }
{
    first_fault_within(CallLimit::Usual, cores, frames, files, has_long, calls)
}

/// The first fault of this many cores, frames, files and calls, as `first_fault` tells it, where
/// this limit is asked for.
pub fn first_fault_within(
    limit: CallLimit,
    cores: u64,
    frames: u64,
    files: u64,
    has_long: bool,
    calls: u64,
) -> Option<SetupFault>
    ensures { result ≡ first_fault_within limit cores frames files has_long calls }
{
    if cores < 1 || 64 < cores {
        Some(SetupFault::Cores)
    } else if frames > 65_536 {
        Some(SetupFault::Frames)
    } else if files > FILE_COUNT {
        Some(SetupFault::TooManyFiles)
    } else if has_long {
        Some(SetupFault::FileTooLong)
    } else if calls > limit.calls() {
        Some(SetupFault::Calls)
    } else {
        None
    }
}

impl<A: Allocator> Setup<A> {
    ghost use Rattle.std.specs.Prelude.{◌≡◌};
    ghost use Rattle.machine_model.specs.Setups.{fault_of, fault_within, has_long};

    // Tells whether one of the files has more bytes than a file may have.
    fn has_long(&self) -> bool
        ensures { result ≡ has_long self.now.files.items }
    {
        self.files
            .iter()
            .any(|file| file.bytes.len() as u64 > FILE_BYTES)
    }

    /// The first fault of the setup itself, if it has one. It may ask for 1,048,576 calls.
    pub fn fault(&self) -> Option<SetupFault>
        ensures { result ≡ fault_of self.now }
    {
        self.fault_within(CallLimit::Usual)
    }

    /// The first fault of the setup itself, if it has one, where this limit is asked for.
    pub fn fault_within(&self, limit: CallLimit) -> Option<SetupFault>
        ensures { result ≡ fault_within limit self.now }
    {
        let files = self.files.len() as u64;
        first_fault_within(
            limit,
            self.cores,
            self.frames,
            files,
            self.has_long(),
            self.calls,
        )
    }
}
