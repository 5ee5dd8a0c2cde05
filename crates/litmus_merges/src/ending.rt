//! Ends: nodes at which each call has its reply.
ghost use Rattle.std.specs.Prelude.{◌≡◌, ◌↔◌, ◌<◌, ◌+◌, IfOk, IfNone, IfSome, IsTrue, List, Some, length, map};
ghost use Rattle.vm_base.specs.declared.replies.Reply.{Reply as ReplyOf};
ghost use Rattle.litmus_merges.specs.Numbers.{AreNumbered, number_of};
ghost use Rattle.litmus_merges.specs.Nodes.{AreAllSound, AreBackward, AreEnds, AreOnce, HasEnd, HaveEnds, IsOrderTo};

use crate::finals::loads;
use crate::mappings::{are_same_maps, mappings};
use crate::nodes::Node;
use crate::numbers::number_of;
use frames::Objects;
use slot_lock::MapLine;
use std::alloc::Allocator;
use vm_base::{NoMemory, Reply};

/// A combination of replies, with one order of turns that gives it, and what is seen once all calls are answered.
#[derive(Drop)]
pub struct End<A: Allocator> {
    /// The reply to each call, in the order of the calls.
    pub replies: Vec<Reply, A>,
    /// What a load of each address that was asked for is answered at the end.
    pub finals: Vec<Reply, A>,
    /// All mappings at the end, in order, where they were asked for.
    pub maps: Vec<MapLine, A>,
    /// Whose turn comes: the places of the calls, one turn after another. The place of a store comes twice where the page is
    /// copied first.
    pub order: Vec<usize, A>,
}

/// The replies, if each call has one.
fn all_told<A: Allocator + Clone>(
    told: &[Option<Reply>],
    alloc: &A,
) -> Result<Option<Vec<Reply, A>>, NoMemory>
    ensures some { IfOk result (λ all. IfSome all (λ replies. told.now ≡ map Some replies.items)) }
    ensures none { IfOk result (λ all. IfNone all ((replies : List ReplyOf) → ¬ told.now ≡ map Some replies)) }
{
    let mut replies = Vec::with_capacity(alloc.clone()?, told.len())?;
    'calls: for k in 0..told.len() {
        let reply = told[k];
        let Some(reply) = reply else {
            return Ok(None);
        };
        replies.push(reply)?;
    }
    Ok(Some(replies))
}

/// By which turns, in order, the node at this place came.
fn order_to<A: Allocator + Clone>(
    nodes: &[Node<A>],
    last: usize,
    alloc: &A,
) -> Result<Vec<usize, A>, NoMemory>
    requires within { last < length nodes.now }
    requires backward { AreBackward nodes.now }
    ensures { IfOk result (λ order. IsOrderTo nodes.now last order.items) }
{
    let mut order = Vec::new(alloc.clone()?);
    let mut at = last;
    'back: while at > 0 {
        let node = &nodes[at];
        order.insert(0, node.at)?;
        at = node.from;
    }
    Ok(order)
}

/// Tells whether two replies are the same.
fn is_same(one: Reply, other: Reply) -> bool
    ensures { IsTrue result ↔ (one ≡ other) }
{
    one == other
}

/// Tells whether two lists of replies are the same.
fn are_same(one: &[Reply], other: &[Reply]) -> bool
    ensures { IsTrue result ↔ (one.now ≡ other.now) }
{
    if one.len() != other.len() {
        return false;
    }
    'replies: for k in 0..one.len() {
        let reply = one[k];
        let same = other[k];
        if !is_same(reply, same) {
            return false;
        }
    }
    true
}

/// Tells whether an end has these replies, finals and mappings, by its number and theirs.
fn is_end<A: Allocator>(
    end: &End<A>,
    its: u64,
    number: u64,
    replies: &[Reply],
    finals: &[Reply],
    maps: &[MapLine],
) -> bool
    requires its { its ≡ number_of end.now.replies.items end.now.finals.items }
    requires number { number ≡ number_of replies.now finals.now }
    ensures { IsTrue result ↔ ((end.now.replies.items ≡ replies.now) × (end.now.finals.items ≡ finals.now)
        × (end.now.maps.items ≡ maps.now)) }
{
    if its != number {
        return false;
    }
    are_same(end.replies.as_slice(), replies)
        && are_same(end.finals.as_slice(), finals)
        && are_same_maps(end.maps.as_slice(), maps)
}

/// Tells whether some end has these replies and finals, whose number is this one, and these mappings.
fn has_end<A: Allocator>(
    ends: &[End<A>],
    numbers: &[u64],
    number: u64,
    replies: &[Reply],
    finals: &[Reply],
    maps: &[MapLine],
) -> bool
    requires numbered { AreNumbered ends.now numbers.now }
    requires number { number ≡ number_of replies.now finals.now }
    ensures { IsTrue result ↔ HasEnd ends.now replies.now finals.now maps.now }
{
    'ends: for k in 0..ends.len() {
        let its = numbers[k];
        if is_end(&ends[k], its, number, replies, finals, maps) {
            return true;
        }
    }
    false
}

/// Takes the end of a node in, if each call has its reply there and no other end has these replies, finals and mappings.
fn add_end<A: Allocator + Clone + Drop>(
    objects: &Objects<A>,
    addrs: &[u64],
    maps: bool,
    ends: &mut Vec<End<A>, A>,
    numbers: &mut Vec<u64, A>,
    nodes: &[Node<A>],
    last: usize,
    alloc: &A,
) -> Result<(), NoMemory>
    requires numbered { AreNumbered ends.old.items numbers.old.items }
    requires within { last < length nodes.now }
    requires backward { AreBackward nodes.now }
    requires sound { AreAllSound nodes.now }
    requires ends { AreEnds objects.now addrs.now maps nodes.now ends.old.items }
    requires once { AreOnce ends.old.items }
    requires have { HaveEnds objects.now addrs.now maps nodes.now last ends.old.items }
    ensures numbered { IfOk result (λ _. AreNumbered ends.new.items numbers.new.items) }
    ensures ends { IfOk result (λ _. AreEnds objects.now addrs.now maps nodes.now ends.new.items) }
    ensures once { IfOk result (λ _. AreOnce ends.new.items) }
    ensures have { IfOk result (λ _. HaveEnds objects.now addrs.now maps nodes.now (last + 1) ends.new.items) }
{
    let node = &nodes[last];
    let told = node.told.as_slice();
    let all = all_told(told, alloc)?;
    let Some(replies) = all else {
        return Ok(());
    };
    let steps = node.steps.as_slice();
    let finals = loads(objects, steps, addrs, alloc)?;
    let seen = mappings(objects, steps, maps, alloc)?;
    let listed = ends.as_slice();
    let its = replies.as_slice();
    let shown = finals.as_slice();
    let lines = seen.as_slice();
    let number = number_of(its, shown);
    if has_end(listed, numbers.as_slice(), number, its, shown, lines) {
        return Ok(());
    }
    let order = order_to(nodes, last, alloc)?;
    numbers.push(number)?;
    ends.push(End {
        replies,
        finals,
        maps: seen,
        order,
    })?;
    Ok(())
}

/// The ends of all nodes at which each call has its reply: no two with the same replies, finals and mappings.
pub(crate) fn list_ends<A: Allocator + Clone + Drop>(
    objects: &Objects<A>,
    addrs: &[u64],
    maps: bool,
    nodes: &[Node<A>],
    alloc: &A,
) -> Result<Vec<End<A>, A>, NoMemory>
    requires backward { AreBackward nodes.now }
    requires sound { AreAllSound nodes.now }
    ensures ends { IfOk result (λ ends. AreEnds objects.now addrs.now maps nodes.now ends.items) }
    ensures once { IfOk result (λ ends. AreOnce ends.items) }
    ensures have { IfOk result (λ ends. HaveEnds objects.now addrs.now maps nodes.now (length nodes.now) ends.items) }
{
    let mut ends = Vec::new(alloc.clone()?);
    let mut numbers = Vec::new(alloc.clone()?);
    'nodes: for last in 0..nodes.len() {
        add_end(
            objects,
            addrs,
            maps,
            &mut ends,
            &mut numbers,
            nodes,
            last,
            alloc,
        )?;
    }
    Ok(ends)
}
