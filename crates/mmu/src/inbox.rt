//! The messages that one core has to act on. Nothing here takes memory or fails.
ghost use Rattle.std.specs.Prelude.{◌≡◌, ◌≢◌, ◌==◌, ◌∷◌, [], ◌++◌, false, is_some};
ghost use Rattle.std.specs.List.{list_any};
ghost use Rattle.mmu.specs.Messages.{message_of, posted, oldest_of, asked, remaining};
ghost use Rattle.mmu.specs.Messages.{AreFromOthers};

use crate::message::{Message, Took};
use arrayvec::ArrayVec;
use std::marker::Model;
use vm_base::{CoreId, PageRange};

/// One message of each other core.
pub const PLACES: usize = 63;

/// A core's inbox: the messages of other cores, at most one of each, the oldest first.
#[derive(Drop)]
pub struct Inbox {
    core: CoreId,
    messages: ArrayVec<Message, PLACES>,
}

impl Model for Inbox {
    ghost use Rattle.mmu.specs.Messages.{InboxOf, AreFromOthers};

    ghost Value = { InboxOf };

    ghost view = { λ b. record { core = b.core; messages = b.messages.items } };

    ghost invariant = { λ b. AreFromOthers b.core b.messages.items };
}

impl Default for Inbox {
    // What a place of an `ArrayVec` holds that no inbox is in.
    fn default() -> Inbox {
        Inbox::new(CoreId::new(0))
    }
}

impl Inbox {
    /// The inbox of a core, without messages.
    pub fn new(core: CoreId) -> Inbox
        ensures core { result.core ≡ core }
        ensures empty { result.messages ≡ [] }
    {
        let messages = ArrayVec::new();
        Inbox { core, messages }
    }

    /// The core whose inbox it is.
    pub fn core(&self) -> CoreId
        ensures { result ≡ self.now.core }
    {
        self.core
    }

    /// Tells whether a message of the core is there, so that this core waits.
    pub fn has_of(&self, from: CoreId) -> bool
        ensures { result ≡ is_some (message_of self.now.messages from) }
    {
        has_message_of(&self.messages, from)
    }

    /// The oldest message.
    pub fn oldest(&self) -> Option<Message>
        ensures value { result ≡ oldest_of self.now.messages }
        ensures others { AreFromOthers self.now.core self.now.messages }
    {
        self.messages.as_slice().first().copied()
    }

    /// Takes in a message of a core that has none here. The other messages stay.
    pub fn post(&mut self, from: CoreId, range: PageRange)
        requires other { from ≢ self.old.core }
        requires none { is_some (message_of self.old.messages from) ≡ false }
        ensures core { self.new.core ≡ self.old.core }
        ensures messages { self.new.messages ≡ self.old.messages ++ posted from range ∷ [] }
    {
        prove!(from.index() < 64);
        prove!(self.core.index() < 64);
        self.messages.push(Message {
            from,
            range,
            is_cleared: false,
        });
    }

    /// Acts on the oldest message. Its first take asks for the tables and marks it, its second asks
    /// for the TLB and acknowledges it: it is gone. The other messages stay.
    pub fn take(&mut self) -> Took
        ensures core { self.new.core ≡ self.old.core }
        ensures took { result ≡ asked self.old.messages }
        ensures messages { self.new.messages ≡ remaining self.old.messages }
    {
        let Some(message) = self.oldest() else {
            return Took::Idle
        };
        if message.is_cleared {
            self.messages.remove(0);
            return Took::Invalidate(message.range);
        }
        self.messages[0] = Message {
            is_cleared: true,
            ..message
        };
        Took::Clear(message.range)
    }
}

/// Tells whether a message of the core is among them.
fn has_message_of(messages: &[Message], from: CoreId) -> bool
    ensures { result ≡ list_any (λ m. m.from == from) messages.now }
{
    messages.iter().any(|message| message.from == from)
}
