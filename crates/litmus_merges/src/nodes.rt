//! Nodes: points that merges come to.
ghost use Rattle.std.specs.Prelude.{◌≡◌, ◌<◌, ◌⊎◌, ◌++◌, ◌∷◌, [], IfOk, IfNone, IfSome, IsTrue, Ok, length, set, true};
ghost use Rattle.litmus_merges.specs.declared.asked.Asked.{Asked};
ghost use Rattle.litmus_merges.specs.Laws.{AreNamed};
ghost use Rattle.litmus_merges.specs.Merging.{IsNext as IsNextCall};
ghost use Rattle.litmus_merges.specs.Nodes.{HasAlike, IsNext, IsNode};

use crate::Asked;
use crate::change::MapChange;
use crate::normal::steps_after;
use crate::prints::{Seats, print_of};
use crate::turning::{Turn, turn_of};
use frames::Objects;
use std::alloc::Allocator;
use vm_base::{NoMemory, Reply};

/// A point that a merge comes to: how far it is, what map it leaves, and by which turn it came.
#[derive(Drop)]
pub(crate) struct Node<A: Allocator> {
    /// The reply to each call, if its turn has come.
    pub told: Vec<Option<Reply>, A>,
    /// The map, by its changes.
    pub steps: Vec<MapChange, A>,
    /// The node from which the turn led here.
    pub from: usize,
    /// The call that had the turn.
    pub at: usize,
    /// A number that nodes at two points share only by chance.
    pub print: u64,
}

/// The call at this place, if it is its turn: it has no reply yet, and each earlier call of its core has one.
fn next_call(calls: &[Asked], told: &[Option<Reply>], at: usize) -> Option<Asked>
    requires within { at < length calls.now }
    requires told { length told.now ≡ length calls.now }
    ensures some { IfSome result (IsNextCall calls.now told.now at) }
    ensures none { IfNone result ((call : Asked) → ¬ IsNextCall calls.now told.now at call) }
{
    let reply = told[at];
    if reply.is_some() {
        return None;
    }
    let call = calls[at];
    'earlier: for k in 0..at {
        let other = calls[k];
        let answer = told[k];
        if other.core == call.core && answer.is_none() {
            return None;
        }
    }
    Some(call)
}

/// What is told after the turn of the call at this place.
fn told_after<A: Allocator + Clone>(
    told: &[Option<Reply>],
    at: usize,
    reply: Option<Reply>,
    alloc: &A,
) -> Result<Vec<Option<Reply>, A>, NoMemory>
    requires { at < length told.now }
    ensures { IfOk result (λ new. new.items ≡ set told.now at reply) }
{
    let mut new = Vec::with_capacity(alloc.clone()?, told.len())?;
    new.extend_from_slice(told)?;
    new[at] = reply;
    Ok(new)
}

/// The node to which a turn of the call at this place leads, if it is its turn.
pub(crate) fn next_node<A: Allocator + Clone + Drop>(
    objects: &Objects<A>,
    calls: &[Asked],
    node: &Node<A>,
    from: usize,
    at: usize,
    alloc: &A,
) -> Result<Option<Node<A>>, NoMemory>
    requires named { AreNamed calls.now }
    requires node { IsNode calls.now node.now }
    requires within { at < length calls.now }
    ensures { IfOk result (IsNext objects.now calls.now node.now from at) }
{
    let told = node.told.as_slice();
    let steps = node.steps.as_slice();
    let Some(call) = next_call(calls, told, at) else {
        return Ok(None);
    };
    let turn = turn_of(objects, steps, call.core, call.request);
    let told = told_after(told, at, turn.reply, alloc)?;
    let steps = steps_after(steps, turn.step, alloc)?;
    let print = print_of(told.as_slice(), steps.as_slice());
    Ok(Some(Node {
        told,
        steps,
        from,
        at,
        print,
    }))
}

/// Tells whether two calls have the same reply, or none.
fn is_same_reply(one: Option<Reply>, other: Option<Reply>) -> bool
    ensures { IsTrue result → one ≡ other }
{
    one == other
}

/// Tells whether two steps are the same.
fn is_same_step(one: MapChange, other: MapChange) -> bool
    ensures { IsTrue result → one ≡ other }
{
    one == other
}

/// Tells whether two lists of replies are the same.
fn are_same_replies(one: &[Option<Reply>], other: &[Option<Reply>]) -> bool
    ensures { IsTrue result → one.now ≡ other.now }
{
    if one.len() != other.len() {
        return false;
    }
    'replies: for k in 0..one.len() {
        let reply = one[k];
        let same = other[k];
        if !is_same_reply(reply, same) {
            return false;
        }
    }
    true
}

/// Tells whether two lists of steps are the same.
fn are_same_steps(one: &[MapChange], other: &[MapChange]) -> bool
    ensures { IsTrue result → one.now ≡ other.now }
{
    if one.len() != other.len() {
        return false;
    }
    'steps: for k in 0..one.len() {
        let step = one[k];
        let same = other[k];
        if !is_same_step(step, same) {
            return false;
        }
    }
    true
}

/// Tells whether two nodes have the same replies and the same steps.
fn is_alike<A: Allocator>(one: &Node<A>, other: &Node<A>) -> bool
    ensures { IsTrue result → (one.now.told.items ≡ other.now.told.items) × (one.now.steps.items ≡ other.now.steps.items) }
{
    are_same_replies(one.told.as_slice(), other.told.as_slice())
        && are_same_steps(one.steps.as_slice(), other.steps.as_slice())
}

/// Tells whether the node at this place is like this one.
fn is_at<A: Allocator>(nodes: &[Node<A>], k: usize, node: &Node<A>) -> bool
    requires { k < length nodes.now }
    ensures { IsTrue result → HasAlike nodes.now node.now }
{
    let other = &nodes[k];
    if other.print != node.print {
        return false;
    }
    is_alike(other, node)
}

/// Tells whether such a node was found.
fn has_alike<A: Allocator>(nodes: &[Node<A>], seats: &Seats<A>, node: &Node<A>) -> bool
    ensures { IsTrue result → HasAlike nodes.now node.now }
{
    let mut seat = seats.first(node.print);
    'seats: for _ in 0..seats.count() {
        let k = seats.at(seat);
        if k >= nodes.len() {
            return false;
        }
        if is_at(nodes, k, node) {
            return true;
        }
        seat = seats.next(seat);
    }
    false
}

/// Makes places for one more node beside these.
fn make_room<A: Allocator + Clone + Drop>(
    nodes: &[Node<A>],
    seats: &mut Seats<A>,
    alloc: &A,
) -> Result<(), NoMemory> {
    if seats.has_room(nodes.len()) {
        return Ok(());
    }
    let mut more = Seats::new(alloc.clone()?, nodes.len().saturating_mul(2))?;
    'nodes: for place in 0..nodes.len() {
        more.take(nodes[place].print, place);
    }
    *seats = more;
    Ok(())
}

/// Takes a node in, unless there is one like it. `false` where there would be more than `limit` nodes.
pub(crate) fn add<A: Allocator + Clone + Drop>(
    nodes: &mut Vec<Node<A>, A>,
    seats: &mut Seats<A>,
    node: Node<A>,
    limit: usize,
    alloc: &A,
) -> Result<bool, NoMemory>
    ensures grows { (nodes.new.items ≡ nodes.old.items) ⊎ (nodes.new.items ≡ nodes.old.items ++ node ∷ []) }
    ensures added { result ≡ Ok true → HasAlike nodes.new.items node }
{
    if has_alike(nodes.as_slice(), seats, &node) {
        return Ok(true);
    }
    if nodes.len() >= limit {
        return Ok(false);
    }
    make_room(nodes.as_slice(), seats, alloc)?;
    let print = node.print;
    let place = nodes.len();
    nodes.push(node)?;
    seats.take(print, place);
    Ok(true)
}
