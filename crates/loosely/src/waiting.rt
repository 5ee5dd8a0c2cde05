//! Calls that wait when a history ends, and the replies that are tried of them.
ghost use Rattle.std.specs.Prelude.{◌≡◌, ◌++◌, IfOk, OnOk, map, true};
ghost use Rattle.overlapping.specs.Waiting.{NoneWaits};
ghost use Rattle.loosely.specs.Effects.{effect_of, waiting_reply};

use orders_text::clock::PendingCall;
use std::alloc::Allocator;
use vm_base::{NoMemory, Reply, Request};

/// Tells whether no core's call waits.
pub(crate) fn none_waits(waiting: &[Option<PendingCall>]) -> bool
    ensures { result ≡ true → NoneWaits waiting.now }
{
    'cores: for core in 0..waiting.len() {
        if waiting[core].is_some() {
            return false;
        }
    }
    true
}

// The reply of a call that takes effect, as far as its request tells it.
fn effect_of(request: Request) -> Reply
    ensures { result ≡ effect_of request }
{
    match request {
        Request::Mmap { addr, .. } => Reply::Mapped(addr),
        Request::Munmap { .. } | Request::Mprotect { .. } | Request::Store { .. } => Reply::Done,
        Request::Load { .. } | Request::Fetch { .. } => Reply::NoMemory,
    }
}

// The reply of a core's call, if it waits.
fn waiting_reply(take_effect: bool, waits: Option<PendingCall>) -> Reply
    ensures { result ≡ waiting_reply take_effect waits }
{
    match waits {
        Some(begun) if take_effect => effect_of(begun.request),
        _ => Reply::NoMemory,
    }
}

// Adds those of these cores.
#[tactic(auto, using(crate::proofs::RuleLemmas::pushed_effects, crate::proofs::RuleLemmas::pushed_none))]
fn push_effects<A: Allocator>(
    replies: &mut Vec<Reply, A>,
    waiting: &[Option<PendingCall>],
    take_effect: bool,
) -> Result<(), NoMemory>
    ensures { OnOk result (replies.new.items ≡ replies.old.items ++ map (waiting_reply take_effect) waiting.now) }
{
    let [first, rest @ ..] = waiting else {
        return Ok(());
    };
    replies.push(waiting_reply(take_effect, *first))?;
    push_effects(replies, rest, take_effect)
}

/// The replies of the cores' calls that wait, if they take effect, and else that they found no memory.
pub(crate) fn effects<A: Allocator + Clone + Drop>(
    alloc: &A,
    waiting: &[Option<PendingCall>],
    take_effect: bool,
) -> Result<Vec<Reply, A>, NoMemory>
    ensures { IfOk result (λ replies. replies.items ≡ map (waiting_reply take_effect) waiting.now) }
{
    let mut replies = Vec::new(alloc.clone()?);
    push_effects(&mut replies, waiting, take_effect)?;
    Ok(replies)
}
