//! The inboxes of all cores, and who waits for whom. They take all of their memory when they are made.
ghost use Rattle.std.specs.Prelude.{◌≡◌, ◌≢◌, ℕ, ◌<◌, ◌≤◌, [], ◌∷◌, ◌++◌, None, Bool, true, false};
ghost use Rattle.std.specs.Prelude.{length, slice_index_or, IfOk};
ghost use Rattle.vm_base.specs.Functions.{put};
ghost use Rattle.vm_base.specs.Cores.{members};
ghost use Rattle.mmu.specs.Messages.{InboxOf, message_of, posted, asked, remaining, waiter};
ghost use Rattle.mmu.specs.Messages.{AreFromOthers};
ghost use Rattle.mmu.specs.Inboxes.{inbox, owner, sent, awaited, acknowledged};

use crate::inbox::Inbox;
use crate::message::Took;
use std::alloc::{AllocError, Allocator};
use std::marker::Model;
use vm_base::{CoreId, CoreSet, PageRange};

/// The most cores.
pub const CORES: usize = 64;

/// The inbox of each core. A clause sees them as a list, and `inbox` of it gives the messages of a
/// core. An inbox is large: they stand in memory that was taken, so that no stack has to hold them.
#[derive(Drop)]
pub struct Inboxes<A: Allocator> {
    inboxes: Vec<Inbox, A>,
    /// Of each core: those that still have its message.
    awaited: [CoreSet; CORES],
}

impl<A: Allocator> Model for Inboxes<A> {
    ghost use Rattle.std.specs.Prelude.{◌≤◌, List, length};
    ghost use Rattle.mmu.specs.Messages.{InboxOf};
    ghost use Rattle.mmu.specs.Inboxes.{AreIndexed};

    ghost Value = { List InboxOf };

    ghost view = { λ b. b.inboxes.items };

    ghost invariant = { λ b. AreIndexed b.inboxes.items b.awaited × (length b.inboxes.items ≤ 64) };
}

impl<A: Allocator> Inboxes<A> {
    /// The inboxes of cores 0 up to `cores`, without messages. No other call takes memory; an error is
    /// a refusal of it.
    pub fn new(alloc: A, cores: u8) -> Result<Inboxes<A>, AllocError>
        requires { cores ≤ 64 }
        ensures cores { IfOk result (λ made. length made ≡ cores) }
        ensures empty { IfOk result (λ made. (d : ℕ) → inbox made d ≡ []) }
    {
        let mut inboxes = Vec::with_capacity(alloc, usize::from(cores))?;
        'cores: for core in 0..cores {
            inboxes.push_reserved(Inbox::new(CoreId::new(core)));
        }
        let awaited = nobody_waits();
        Ok(Inboxes { inboxes, awaited })
    }

    /// Puts a message into the inbox of each core of `to`, behind those that it has. `from` then
    /// waits for these cores. The other inboxes stay.
    pub fn post(&mut self, from: CoreId, to: CoreSet, range: PageRange)
        requires idle { (d : ℕ) → awaited (inbox self.old) from d ≡ false }
        requires others { members to from ≡ false }
        requires within { (d : ℕ) → members to d ≡ true → d < length self.old }
        ensures cores { length self.new ≡ length self.old }
        ensures messages { inbox self.new ≡ sent from to range (inbox self.old) }
    {
        deliver(&mut self.inboxes, from, to, range);
        self.awaited[from.index() as usize] = to;
    }

    /// Acts on the oldest message of the core. Its first take asks the core to clear its tables,
    /// its second to invalidate its TLB; with the second it is acknowledged and gone. The other
    /// inboxes stay.
    pub fn take(&mut self, core: CoreId) -> Took
        requires { core < length self.old }
        ensures cores { length self.new ≡ length self.old }
        ensures took { result ≡ asked (inbox self.old core) }
        ensures messages { inbox self.new
            ≡ put (inbox self.old) core (remaining (inbox self.old core)) }
    {
        let waiter = waiter(&self.inboxes, core);
        acknowledge(&mut self.awaited, waiter, core);
        take_at(&mut self.inboxes, core)
    }

    /// The cores whose inbox still has the core's message.
    pub fn waiting(&self, from: CoreId) -> CoreSet
        ensures { members result ≡ awaited (inbox self.now) from }
    {
        let place = from.index() as usize;
        self.awaited[place]
    }
}

/// For each core the set of none.
fn nobody_waits() -> [CoreSet; CORES]
    ensures { (c : ℕ) (d : ℕ) → members (slice_index_or result c 0) d ≡ false }
{
    [CoreSet::empty(); CORES]
}

/// The core whose message the next take of `core` acknowledges.
fn waiter(inboxes: &[Inbox], core: CoreId) -> Option<CoreId>
    requires { core < length inboxes.now }
    ensures value { result ≡ waiter (inbox inboxes.now core) }
    ensures others { AreFromOthers (owner inboxes.now core) (inbox inboxes.now core) }
{
    let inbox = &inboxes[core.index() as usize];
    let message = inbox.oldest()?;
    if message.is_cleared {
        Some(message.from)
    } else {
        None
    }
}

/// Tells the waiter, if there is one, that the core has acknowledged.
fn acknowledge(awaited: &mut [CoreSet], waiter: Option<CoreId>, core: CoreId)
    requires { length awaited.old ≡ 64 }
    ensures { (c : ℕ) → c < 64 → members (slice_index_or awaited.new c 0) ≡ acknowledged
        (members (slice_index_or awaited.old c 0)) waiter core c }
{
    if let Some(waiter) = waiter {
        let place = waiter.index() as usize;
        awaited[place] = awaited[place].without(core);
    }
}

/// Acts on the oldest message of the core.
fn take_at(inboxes: &mut [Inbox], core: CoreId) -> Took
    requires { core < length inboxes.old }
    ensures took { result ≡ asked (inbox inboxes.old core) }
    ensures owners { owner inboxes.new ≡ owner inboxes.old }
    ensures messages { inbox inboxes.new
        ≡ put (inbox inboxes.old) core (remaining (inbox inboxes.old core)) }
{
    inboxes[core.index() as usize].take()
}

/// Puts a message into the inbox of the core.
fn post_at(inboxes: &mut [Inbox], to: CoreId, from: CoreId, range: PageRange)
    requires there { to < length inboxes.old }
    requires other { from ≢ owner inboxes.old to }
    requires none { awaited (inbox inboxes.old) from to ≡ false }
    ensures owners { owner inboxes.new ≡ owner inboxes.old }
    ensures messages { inbox inboxes.new ≡ put (inbox inboxes.old) to
        (inbox inboxes.old to ++ posted from range ∷ []) }
{
    inboxes[to.index() as usize].post(from, range);
}

/// Puts a message into the inbox of each core of `to`.
fn deliver(inboxes: &mut [Inbox], from: CoreId, to: CoreSet, range: PageRange)
    requires own { (d : ℕ) → d < length inboxes.old → owner inboxes.old d ≡ d }
    requires few { length inboxes.old ≤ 64 }
    requires idle { (d : ℕ) → awaited (inbox inboxes.old) from d ≡ false }
    requires others { members to from ≡ false }
    requires within { (d : ℕ) → members to d ≡ true → d < length inboxes.old }
    ensures owners { owner inboxes.new ≡ owner inboxes.old }
    ensures messages { inbox inboxes.new ≡ sent from to range (inbox inboxes.old) }
{
    let mut rest = to;
    'targets: for _turn in 0..CORES {
        let Some(target) = rest.first() else { return };
        post_at(inboxes, target, from, range);
        rest = rest.without(target);
    }
}
