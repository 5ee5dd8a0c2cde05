//! Values of the manual; and functions that nothing but tests calls, or that say something of sizes.
use frames::{FileSpec, Objects, Sharing};
use ghost_list::GhostList;
use mmu::{Cpu, Hardware, indices};
use std::alloc::Global;
use std::mem::size_of;
use std::test::Fail;
use vm_base::{Errno, Mode, NoMemory, Prot};

const READ: Prot = Prot {
    read: true,
    write: false,
    exec: false,
};

const WRITE: Prot = Prot {
    write: true,
    ..READ
};

const EXECUTE: Prot = Prot { exec: true, ..READ };

/// The entries of a writable page of frame 3, of the page when it is set again, and of one without an entry.
fn entries(alloc: Global) -> Result<[Option<u64>; 3], NoMemory> {
    let mut cpu = Cpu::new(alloc)?;
    cpu.install(16, 3, WRITE)?;
    let first = cpu.entry(16);
    cpu.install(16, 3, EXECUTE)?;
    Ok([first, cpu.entry(16), cpu.entry(17)])
}

// Intel SDM volume 3A, 4-Level Paging: bits 0 to 2 are present, writable and user, bits 51:12 the frame, bit 63 forbids to execute.
#[test]
fn entries_have_the_bits_of_the_manual(rt: HostRuntime) {
    let expected = [Some(0x8000_0000_0000_3007), Some(0x3005), None];
    assert_eq!(rt; entries(rt.alloc()), Ok(expected));
    assert_eq!(rt; indices(0x80_0000_0000), [1, 0, 0, 0]);
}

/// A file of one byte, open for this.
fn file_of(alloc: Global, mode: Mode) -> Result<Objects<Global>, NoMemory> {
    let bytes = vec![in alloc; 1u8; 1]?;
    let mut files = Vec::new(alloc);
    files.push(FileSpec { mode, bytes })?;
    files.truncate(16);
    let objects = Objects::new(alloc, files)?;
    Ok(objects)
}

// POSIX.1-2017, mmap, ERRORS.
#[test]
fn modes_allow_mappings(rt: HostRuntime) -> Result<(), Fail> {
    let refused = Err(Errno::EACCES);
    for (mode, file, sharing, prot, want) in [
        (Mode::RW, 0, Sharing::Shared, WRITE, Ok(())),
        (Mode::W, 0, Sharing::Private, READ, refused),
        (Mode::W, 0, Sharing::Shared, WRITE, refused),
        (Mode::R, 0, Sharing::Shared, READ, Ok(())),
        (Mode::R, 0, Sharing::Shared, WRITE, refused),
        (Mode::R, 0, Sharing::Private, WRITE, Ok(())),
        (Mode::R, 1, Sharing::Private, READ, Err(Errno::EBADF)),
    ] {
        let files = file_of(rt.alloc(), mode)?;
        assert_eq!(rt; files.may(file, sharing, prot), want);
    }
    Ok(())
}

// A list that only clauses read has no bytes, however many elements came.
#[test]
fn a_ghost_list_takes_no_memory(rt: HostRuntime) {
    let mut list = GhostList::new();
    for value in 0..1000u64 {
        list = list.and(&value);
    }
    assert_eq!(rt; size_of::<GhostList<u64>>(), 0);
}
