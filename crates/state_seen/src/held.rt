//! What a core holds beside its tables: its TLB and its inbox.
ghost use Rattle.std.specs.Prelude.{◌≡◌, ℕ, ◌<◌, ◌++◌, ◌∷◌, [], true, false, length};
ghost use Rattle.vm_base.specs.Cores.{members};
ghost use Rattle.vm_base.specs.Functions.{put};
ghost use Rattle.mmu.specs.Messages.{asked, posted, remaining};
ghost use Rattle.state_seen.specs.Held.{held, invalidated, nothing_held, own_part, told, told_by, told_one, taken, translated_on, walked};

use crate::deed::HardwareStep;
use crate::tlb_lists::{PLACES, drop_page, fill, find, invalidate, permits};
use arrayvec::ArrayVec;
use mmu::Message;
use mmu::entry::Translation;
use mmu::tlb::TlbEntry;
use slot_lock::Touch;
use std::alloc::Allocator;
use std::marker::Model;
use vm_base::{CoreId, CoreSet, PageRange};

/// A core's TLB, the oldest filled first, and its inbox, the oldest message first.
#[derive(Drop)]
pub struct CoreHeld {
    tlb: ArrayVec<TlbEntry, PLACES>,
    inbox: ArrayVec<Message, PLACES>,
}

impl Model for CoreHeld {
    ghost use Rattle.state_seen.specs.Held.{Holds};

    ghost Value = { Holds };

    ghost view = { λ h. record { tlb = h.tlb.items; inbox = h.inbox.items } };
}

// The TLB after an access to a page of which the tables have this entry.
fn translate(tlb: &mut ArrayVec<TlbEntry, PLACES>, touch: Touch, entry: Option<Translation>)
    ensures { tlb.new.items ≡ translated_on touch entry tlb.old.items }
{
    match find(tlb.as_slice(), touch.page) {
        Some(cached) => {
            if !permits(cached, touch.access) {
                drop_page(tlb, touch.page);
            }
        }
        None => match entry {
            Some(entry) => {
                if permits(entry, touch.access) {
                    fill(tlb, touch.page, entry);
                } else {
                    drop_page(tlb, touch.page);
                }
            }
            None => drop_page(tlb, touch.page),
        },
    }
}

// The TLB after the tables, which have this entry of the page, were walked for it.
fn walk(tlb: &mut ArrayVec<TlbEntry, PLACES>, page: u64, entry: Option<Translation>)
    ensures { tlb.new.items ≡ walked page entry tlb.old.items }
{
    if let None = find(tlb.as_slice(), page) {
        if let Some(entry) = entry {
            fill(tlb, page, entry);
        }
    }
}

// The inbox without its oldest message, or with that one cleared.
fn pass(inbox: &mut ArrayVec<Message, PLACES>)
    ensures { inbox.new.items ≡ remaining inbox.old.items }
{
    let Some(message) = inbox.as_slice().first().copied() else {
        return;
    };
    if message.is_cleared {
        inbox.remove(0);
    } else {
        inbox[0] = Message {
            is_cleared: true,
            ..message
        };
    }
}

// The TLB after the oldest message of the inbox was acted on.
fn obey(tlb: &mut ArrayVec<TlbEntry, PLACES>, inbox: &[Message])
    ensures { tlb.new.items ≡ invalidated (asked inbox.now) tlb.old.items }
{
    let Some(message) = inbox.first() else { return };
    if message.is_cleared {
        invalidate(tlb, message.range);
    }
}

// One message more, where there is room.
fn deliver(inbox: &mut ArrayVec<Message, PLACES>, from: CoreId, range: PageRange) -> bool
    ensures told { result ≡ true → inbox.new.items ≡ inbox.old.items ++ posted from range ∷ [] }
    ensures full { result ≡ false → inbox.new.items ≡ inbox.old.items }
{
    if inbox.is_full() {
        return false;
    }
    inbox.push(Message {
        from,
        range,
        is_cleared: false,
    });
    true
}

impl CoreHeld {
    /// A core that holds nothing.
    pub fn new() -> CoreHeld
        ensures { result ≡ nothing_held }
    {
        CoreHeld {
            tlb: ArrayVec::new(),
            inbox: ArrayVec::new(),
        }
    }

    /// The TLB, the oldest filled first.
    pub fn tlb(&self) -> &[TlbEntry]
        ensures { result.now ≡ self.now.tlb }
    {
        self.tlb.as_slice()
    }

    /// The inbox, the oldest message first.
    pub fn inbox(&self) -> &[Message]
        ensures { result.now ≡ self.now.inbox }
    {
        self.inbox.as_slice()
    }

    // What the deed does to the core whose deed it is.
    fn act(&mut self, deed: &HardwareStep)
        ensures { self.new ≡ own_part deed.now self.old }
    {
        match deed {
            HardwareStep::Nothing => {}
            HardwareStep::Translate { touch, entry, .. } => translate(
                &mut self.tlb,
                *touch,
                *entry,
            ),
            HardwareStep::Shoot { range, .. } => invalidate(&mut self.tlb, *range),
            HardwareStep::Take(_) => {
                obey(&mut self.tlb, self.inbox.as_slice());
                pass(&mut self.inbox);
            }
            HardwareStep::Walk { page, entry, .. } => walk(&mut self.tlb, *page, *entry),
            HardwareStep::Evict { page, .. } => drop_page(&mut self.tlb, *page),
        }
    }

    // The core is told to drop the range, where there is room for the message.
    fn tell(&mut self, from: CoreId, range: PageRange) -> bool
        ensures told { result ≡ true → self.new ≡ told from range self.old }
        ensures full { result ≡ false → self.new ≡ self.old }
    {
        deliver(&mut self.inbox, from, range)
    }
}

/// What the deed does to the core whose deed it is, among all.
pub(crate) fn act_at<A: Allocator>(all: &mut Vec<CoreHeld, A>, core: CoreId, deed: &HardwareStep)
    requires { length all.old.items ≡ 64 }
    ensures cores { length all.new.items ≡ length all.old.items }
    ensures held { held all.new.items ≡ put (held all.old.items) core (own_part deed.now (held all.old.items core)) }
{
    all[core.index() as usize].act(deed);
}

// One core is told.
fn tell_at<A: Allocator>(
    all: &mut Vec<CoreHeld, A>,
    core: CoreId,
    from: CoreId,
    range: PageRange,
) -> bool
    requires { core < length all.old.items }
    ensures cores { length all.new.items ≡ length all.old.items }
    ensures held { result ≡ true → held all.new.items ≡ put (held all.old.items) core (told from range (held all.old.items core)) }
{
    all[core.index() as usize].tell(from, range)
}

// One core is told, if it is in the set.
fn tell_if<A: Allocator>(
    all: &mut Vec<CoreHeld, A>,
    core: CoreId,
    from: CoreId,
    to: CoreSet,
    range: PageRange,
) -> bool
    requires { core < length all.old.items }
    ensures cores { length all.new.items ≡ length all.old.items }
    ensures held { result ≡ true → held all.new.items ≡ told_one from (members to core) range (held all.old.items) core }
{
    if !to.contains(core) {
        return true;
    }
    tell_at(all, core, from, range)
}

/// Each core of the set is told; false where there was no room.
pub(crate) fn tell_all<A: Allocator>(
    all: &mut Vec<CoreHeld, A>,
    from: CoreId,
    to: CoreSet,
    range: PageRange,
) -> bool
    requires { length all.old.items ≡ 64 }
    ensures cores { length all.new.items ≡ length all.old.items }
    ensures held { result ≡ true → (d : ℕ) → d < 64
        → held all.new.items d ≡ told_by from (members to) range (held all.old.items) d }
{
    let mut whole = true;
    'cores: for index in 0..64u8 {
        let core = CoreId::new(index);
        if !tell_if(all, core, from, to, range) {
            whole = false;
        }
    }
    whole
}
