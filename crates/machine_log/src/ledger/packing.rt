//! Packed entries of the log: an entry in sixteen bytes, where its numbers go into them.
ghost use Rattle.std.specs.Prelude.{◌≡◌, ◌+◌, ◌*◌, ◌^◌, ◌<◌, false, IfSome, List, get_or};
ghost use Rattle.vm_base.specs.declared.log.Entry.{Entry as EntryOf};
ghost use Rattle.machine_log.specs.Packing.{entry_of, is_copy, is_in_full, nothing, number_said, place_said};
ghost use Rattle.machine_log.specs.Packing.{reply_said, short_by};

use vm_base::{CoreId, Entry, Errno, Reply, SegvCode};

/// What a packed entry is of.
#[derive(Clone, Copy)]
pub enum EntryKind {
    /// A reply.
    Mapped,
    Done,
    Byte,
    Einval,
    Enomem,
    Eacces,
    Ebadf,
    Eoverflow,
    MapErr,
    AccErr,
    Bus,
    NoFrame,
    NoMemory,
    /// A page's copy of its own.
    Copy,
    /// Any other entry. It stands in full in a list of its own.
    InFull,
}

/// What a packed entry says beside its step, its call and its core.
#[derive(Clone, Copy)]
struct Brief {
    kind: EntryKind,
    /// A page by its lower 32 bits and the 8 above, or a byte in those.
    low: u32,
    high: u8,
}

/// An entry in sixteen bytes. Where its kind is `InFull` the step and the call are the lower and the
/// upper half of a place in the list of entries that stand in full.
#[derive(Clone, Copy)]
pub struct PackedEntry {
    /// The step, by its lower 32 bits and the 8 above.
    pub step: u32,
    pub call: u32,
    /// A page by its lower 32 bits and the 8 above, or a byte in those.
    pub low: u32,
    pub step_high: u8,
    pub high: u8,
    pub kind: EntryKind,
    pub core: CoreId,
}

// What says this kind alone.
fn say(kind: EntryKind) -> Brief
    ensures { result ≡ record { kind = kind; low = 0; high = 0 } }
{
    Brief {
        kind,
        low: 0,
        high: 0,
    }
}

// What says this of a page, where its number is below 2^40.
#[inline(always)]
fn brief_page(kind: EntryKind, page: u64) -> Option<Brief>
    ensures kind { IfSome result (λ b. b.kind ≡ kind) }
    ensures page { IfSome result (λ b. number_said b.low b.high ≡ page) }
{
    if 1 << 40 <= page {
        return None;
    }
    Some(Brief {
        kind,
        low: (page % (1 << 32)) as u32,
        high: (page / (1 << 32)) as u8,
    })
}

// What says that a mapping begins at the address, where that is a page's.
#[inline(always)]
fn brief_mapped(addr: u64) -> Option<Brief>
    ensures kind { IfSome result (λ b. b.kind ≡ EntryKind.Mapped) }
    ensures addr { IfSome result (λ b. 4096 * number_said b.low b.high ≡ addr) }
{
    if addr % 4096 != 0 {
        return None;
    }
    brief_page(EntryKind::Mapped, addr / 4096)
}

// The kind of a refusal.
fn refusal(errno: Errno) -> EntryKind
    ensures says { reply_said result 0 0 ≡ Reply.Refused errno }
    ensures short { is_in_full result ≡ false }
    ensures reply { is_copy result ≡ false }
{
    match errno {
        Errno::EINVAL => EntryKind::Einval,
        Errno::ENOMEM => EntryKind::Enomem,
        Errno::EACCES => EntryKind::Eacces,
        Errno::EBADF => EntryKind::Ebadf,
        Errno::EOVERFLOW => EntryKind::Eoverflow,
    }
}

// What says the reply, where something does.
#[inline(always)]
fn brief_reply(reply: Reply) -> Option<Brief>
    ensures says { IfSome result (λ b. reply_said b.kind b.low b.high ≡ reply) }
    ensures short { IfSome result (λ b. is_in_full b.kind ≡ false) }
    ensures reply { IfSome result (λ b. is_copy b.kind ≡ false) }
{
    match reply {
        Reply::Byte(byte) => Some(Brief {
            kind: EntryKind::Byte,
            low: 0,
            high: byte,
        }),
        Reply::Done => Some(say(EntryKind::Done)),
        Reply::Mapped(addr) => brief_mapped(addr),
        Reply::Refused(errno) => Some(say(refusal(errno))),
        Reply::Segv(SegvCode::MapErr) => Some(say(EntryKind::MapErr)),
        Reply::Segv(SegvCode::AccErr) => Some(say(EntryKind::AccErr)),
        Reply::Bus => Some(say(EntryKind::Bus)),
        Reply::NoFrame => Some(say(EntryKind::NoFrame)),
        Reply::NoMemory => Some(say(EntryKind::NoMemory)),
    }
}

// What says this of a core's call at a step, where the step is below 2^40 and the call below 2^32.
#[inline(always)]
fn make_packed(step: u64, call: u64, core: CoreId, brief: Brief) -> Option<PackedEntry>
    ensures step { IfSome result (λ p. number_said p.step p.step_high ≡ step) }
    ensures call { IfSome result (λ p. p.call ≡ call) }
    ensures core { IfSome result (λ p. p.core ≡ core) }
    ensures kind { IfSome result (λ p. p.kind ≡ brief.kind) }
    ensures low { IfSome result (λ p. p.low ≡ brief.low) }
    ensures high { IfSome result (λ p. p.high ≡ brief.high) }
{
    if 1 << 40 <= step || 1 << 32 <= call {
        return None;
    }
    Some(PackedEntry {
        step: (step % (1 << 32)) as u32,
        call: call as u32,
        low: brief.low,
        step_high: (step / (1 << 32)) as u8,
        high: brief.high,
        kind: brief.kind,
        core,
    })
}

/// The entry in sixteen bytes, where it goes into them: `None` where its step or its page isn't below
/// 2^40, its call isn't below 2^32, or a mapping begins at no page's address.
#[inline(always)]
pub(crate) fn pack(entry: &Entry) -> Option<PackedEntry>
    ensures says { IfSome result (λ p. (in_full : List EntryOf) → entry_of in_full p ≡ entry.now) }
    ensures short { IfSome result (λ p. is_in_full p.kind ≡ false) }
{
    match *entry {
        Entry::Answer {
            step,
            call,
            core,
            reply,
        } => {
            let brief = brief_reply(reply)?;
            make_packed(step, call, core, brief)
        }
        Entry::Detach { step, call, page } => {
            let brief = brief_page(EntryKind::Copy, page)?;
            make_packed(step, call, CoreId::new(0), brief)
        }
    }
}

/// What stands for an entry that stands in full, at this place of its list.
pub(crate) fn placed(place: u64) -> PackedEntry
    ensures kind { result.kind ≡ EntryKind.InFull }
    ensures place { place_said result ≡ place }
{
    PackedEntry {
        step: (place % (1 << 32)) as u32,
        call: (place / (1 << 32)) as u32,
        low: 0,
        step_high: 0,
        high: 0,
        kind: EntryKind::InFull,
        core: CoreId::new(0),
    }
}

// The number of which these are the lower 32 bits and the 8 above.
#[inline(always)]
fn number_of(low: u32, high: u8) -> u64
    ensures value { result ≡ number_said low high }
    ensures small { result < 2 ^ 40 }
{
    u64::from(low) + (1 << 32) * u64::from(high)
}

// The reply of an entry of this kind.
#[inline(always)]
fn reply_of(packed: &PackedEntry) -> Reply
    ensures { result ≡ reply_said packed.now.kind packed.now.low packed.now.high }
{
    match packed.kind {
        EntryKind::Mapped => Reply::Mapped(4096 * number_of(packed.low, packed.high)),
        EntryKind::Byte => Reply::Byte(packed.high),
        EntryKind::Einval => Reply::Refused(Errno::EINVAL),
        EntryKind::Enomem => Reply::Refused(Errno::ENOMEM),
        EntryKind::Eacces => Reply::Refused(Errno::EACCES),
        EntryKind::Ebadf => Reply::Refused(Errno::EBADF),
        EntryKind::Eoverflow => Reply::Refused(Errno::EOVERFLOW),
        EntryKind::MapErr => Reply::Segv(SegvCode::MapErr),
        EntryKind::AccErr => Reply::Segv(SegvCode::AccErr),
        EntryKind::Bus => Reply::Bus,
        EntryKind::NoFrame => Reply::NoFrame,
        EntryKind::NoMemory => Reply::NoMemory,
        EntryKind::Done | EntryKind::Copy | EntryKind::InFull => Reply::Done,
    }
}

// The entry that stands in full at the place of which these are the halves; there is one.
#[inline(never)]
fn full_entry(low: u32, high: u32, in_full: &[Entry]) -> Entry
    ensures { result ≡ get_or in_full.now (number_said low high) nothing }
{
    let place = u64::from(low) + (1 << 32) * u64::from(high);
    match in_full.get(place as usize) {
        Some(entry) => *entry,
        None => Entry::Detach {
            step: 0,
            call: 0,
            page: 0,
        },
    }
}

/// The entry, beside those that stand in full.
#[inline(always)]
pub(crate) fn unpacked(packed: &PackedEntry, in_full: &[Entry]) -> Entry
    ensures { result ≡ entry_of in_full.now packed.now }
{
    let step = number_of(packed.step, packed.step_high);
    let call = u64::from(packed.call);
    match packed.kind {
        EntryKind::InFull => full_entry(packed.step, packed.call, in_full),
        EntryKind::Copy => Entry::Detach {
            step,
            call,
            page: number_of(packed.low, packed.high),
        },
        _ => Entry::Answer {
            step,
            call,
            core: packed.core,
            reply: reply_of(packed),
        },
    }
}
