//! What C asks a machine to be made with.
ghost use Rattle.std.specs.Prelude.{◌≡◌, None, IfOk, IfErr, length};
ghost use Rattle.std.specs.List.{list_any};
ghost use Rattle.core_steps.specs.Machine.{state};
ghost use Rattle.machine_model.specs.Setups.{is_too_long, Fits};
ghost use Rattle.coded.specs.Opening.{mode_of, AreFiles, IsFile, IsNoFile, RefusesFiles, OpensAs};
ghost use Rattle.coded.specs.Opening.{Refuses, fault_of, limit_of};
ghost use Rattle.coded.specs.declared.opening.FileFault.TheVariants as Why;
ghost use Rattle.coded.specs.declared.opening.RawFile.{RawFile as RawFileOf};

use core_steps::Machine;
use frames::FileSpec;
use machine_log::{KeepsAll, KeepsNone, Opening};
use machine_model::{CallLimit, Setup, SetupFault, first_fault_within};
use radix_range::RadixMap;
use std::alloc::Global;
use vm_base::Mode;
use vm_base::limits::FILE_BYTES;

/// What a machine is made with, as C writes it.
#[repr(C)]
#[derive(Clone, Copy)]
pub struct RawSetup {
    /// How many cores.
    pub cores: u64,
    /// How many frames of 4,096 bytes.
    pub frames: u64,
    /// How many calls may begin.
    pub calls: u64,
    /// 0 where a machine that C holds is to keep no log.
    pub log: u32,
}

/// A file that is open from the start, as C writes it. Its bytes lie in one buffer with those of the
/// others.
#[repr(C)]
#[derive(Clone, Copy)]
pub struct RawFile {
    /// For what it is open: 1 for reading, 2 for writing, 3 for both.
    pub mode: u32,
    /// Where in the buffer its first byte lies.
    pub start: u64,
    /// How many bytes it has.
    pub len: u64,
}

/// Why no machine is made.
#[derive(Clone, Copy)]
pub enum Refusal {
    /// One of the buffers is said to have more than 2^32 items.
    TooLong,
    /// There is room for fewer outcomes than there are events.
    NoRoom,
    /// The setup has this fault, or there was no memory.
    Setup(SetupFault),
    /// The mode of the file with this index is none, or its bytes don't lie in the buffer.
    BadFile { at: usize },
    /// The handle has no machine.
    Empty,
    /// The handle has a machine already.
    InUse,
    /// The machine keeps no log.
    NoLog,
}

/// Why a file isn't opened.
#[derive(Clone, Copy)]
pub enum FileFault {
    /// Its mode is none, or its bytes don't lie in the buffer.
    NotThere,
    /// There was no memory for its bytes.
    NoMemory,
}

/// A machine over a tree of slots, with this ledger.
pub type Over<L> = Machine<RadixMap<Global>, Global, L>;

/// A machine without a log.
pub type Unlogged = Over<KeepsNone>;

/// A machine that keeps its log.
pub type LoggedSpace = Over<KeepsAll<Global>>;

/// All modes, in the order of their codes.
const MODES: [Mode; 3] = [Mode::R, Mode::W, Mode::RW];

/// The mode that has the code.
pub fn mode_of(code: u32) -> Option<Mode>
    ensures { result ≡ mode_of code }
{
    if code == 0 || code as usize > MODES.len() {
        return None;
    }
    Some(MODES[code as usize - 1])
}

/// The file, with bytes of its own. At an error nothing is made.
pub fn file_of(alloc: Global, raw: &RawFile, bytes: &[u8]) -> Result<FileSpec<Global>, FileFault>
    ensures ok { IfOk result (λ file. IsFile bytes.now raw.now file.mode file.bytes.items) }
    ensures err { IfErr result (λ fault. fault ≡ Why.NotThere → IsNoFile (length bytes.now) raw.now) }
{
    let Some(mode) = mode_of(raw.mode) else {
        return Err(FileFault::NotThere);
    };
    let Some(end) = raw.start.checked_add(raw.len) else {
        return Err(FileFault::NotThere);
    };
    if end > bytes.len() as u64 {
        return Err(FileFault::NotThere);
    }
    let mut own = Vec::new(alloc);
    if own
        .extend_from_slice(&bytes[raw.start as usize..end as usize])
        .is_err()
    {
        return Err(FileFault::NoMemory);
    }
    Ok(FileSpec { mode, bytes: own })
}

/// All files. At an error nothing is made: it tells the first that isn't there, or that memory was
/// refused.
pub fn files_of(
    alloc: Global,
    files: &[RawFile],
    bytes: &[u8],
) -> Result<Vec<FileSpec<Global>, Global>, Refusal>
    ensures ok { IfOk result (λ all. AreFiles bytes.now files.now all.items) }
    ensures err { IfErr result (λ refusal. RefusesFiles bytes.now files.now refusal) }
{
    let Ok(mut all) = Vec::with_capacity(alloc, files.len()) else {
        return Err(Refusal::Setup(SetupFault::NoMemory));
    };
    'files: for at in 0..files.len() {
        match file_of(alloc, &files[at], bytes) {
            Ok(file) => all.push_reserved(file),
            Err(FileFault::NotThere) => return Err(Refusal::BadFile { at }),
            Err(FileFault::NoMemory) => return Err(Refusal::Setup(SetupFault::NoMemory)),
        }
    }
    Ok(all)
}

fn has_long(files: &[RawFile]) -> bool
    ensures { result ≡ list_any (λ (raw : RawFileOf). is_too_long raw.len) files.now }
{
    files.iter().any(|file| file.len > FILE_BYTES)
}

// How many calls the setup may ask for at the most: fewer where the log is kept, since there is room
// for all of it from the start.
fn limit_of(setup: &RawSetup) -> CallLimit
    ensures { result ≡ limit_of setup.now }
{
    if setup.log == 0 {
        CallLimit::Long
    } else {
        CallLimit::Usual
    }
}

/// A new machine with what C asked for, except for the log, which is its ledger's. At an error nothing is
/// made: it tells the first fault of the setup, or else the first file that isn't there, or else that
/// memory was refused.
pub fn open<L: Opening<Global> + Drop>(
    alloc: Global,
    setup: &RawSetup,
    files: &[RawFile],
    bytes: &[u8],
) -> Result<Over<L>, Refusal>
    requires { Fits L.keeps (limit_of setup.now) }
    ensures ok { IfOk result (λ machine. OpensAs setup.now files.now bytes.now (state machine)) }
    ensures well { IfOk result (λ machine. fault_of setup.now files.now ≡ None) }
    ensures err { IfErr result (λ refusal. Refuses setup.now files.now bytes.now refusal) }
{
    let limit = limit_of(setup);
    let long = has_long(files);
    if let Some(fault) = first_fault_within(
        limit,
        setup.cores,
        setup.frames,
        files.len() as u64,
        long,
        setup.calls,
    ) {
        return Err(Refusal::Setup(fault));
    }
    let given = files_of(alloc, files, bytes)?;
    let Ok(map) = RadixMap::new(alloc) else {
        return Err(Refusal::Setup(SetupFault::NoMemory));
    };
    let wanted = Setup {
        cores: setup.cores,
        frames: setup.frames,
        files: given,
        calls: setup.calls,
    };
    match Machine::new_within(limit, alloc, map, wanted) {
        Ok(machine) => Ok(machine),
        Err(fault) => Err(Refusal::Setup(fault)),
    }
}
