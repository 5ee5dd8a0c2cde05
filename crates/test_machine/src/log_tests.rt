//! A log of entries at the edges of what goes into sixteen bytes, and past them.
use machine_log::{KeepsLog, Ledger, Opening};
use std::alloc::{AllocError, Global};
use vm_base::{CoreId, Entry, Errno, Reply, SegvCode};

// The reply of a call of the last core.
fn answer(step: u64, call: u64, reply: Reply) -> Entry {
    Entry::Answer {
        step,
        call,
        core: CoreId::new(63),
        reply,
    }
}

// A page's copy.
fn copy(step: u64, call: u64, page: u64) -> Entry {
    Entry::Detach { step, call, page }
}

fn entries() -> [Entry; 16] {
    [
        answer((1 << 40) - 1, (1 << 32) - 1, Reply::Byte(255)),
        answer(1 << 40, 1, Reply::Byte(255)),
        answer(u64::MAX, 1 << 32, Reply::Done),
        answer(3, 1 << 32, Reply::Bus),
        answer(4, 2, Reply::Mapped(((1 << 40) - 1) << 12)),
        answer(5, 2, Reply::Mapped(1 << 52)),
        answer(6, 2, Reply::Mapped(4097)),
        copy(7, 2, (1 << 40) - 1),
        copy(8, 2, 1 << 40),
        copy(1 << 40, u64::MAX, u64::MAX),
        answer(9, 3, Reply::Refused(Errno::EOVERFLOW)),
        answer(10, 4, Reply::Refused(Errno::EINVAL)),
        answer(11, 5, Reply::Segv(SegvCode::MapErr)),
        answer(12, 6, Reply::Segv(SegvCode::AccErr)),
        answer(13, 7, Reply::NoFrame),
        answer(14, 8, Reply::NoMemory),
    ]
}

// Tells whether a log with room for two gives the entries back as they were, and those behind the first nine.
fn gives_back(alloc: Global) -> Result<bool, AllocError> {
    let entries = entries();
    let mut log: KeepsLog<Global> = KeepsLog::open(alloc, 2)?;
    'pushed: for k in 0..entries.len() {
        log.push_beyond(entries[k])?;
    }
    let Some(kept) = log.kept() else {
        return Ok(false);
    };
    if kept.len() != 16 {
        return Ok(false);
    }
    'read: for k in 0..entries.len() {
        if kept.get(k) != entries[k] {
            return Ok(false);
        }
    }
    let behind = kept.behind(9);
    Ok(behind.len() == 7 && behind.get(0) == entries[9] && kept.behind(16).is_empty())
}

#[test]
fn entries_past_sixteen_bytes(rt: HostRuntime) -> Result<(), AllocError> {
    assert!(rt; gives_back(rt.alloc())?);
    Ok(())
}
