//! All merges of the calls of several cores.
ghost use Rattle.std.specs.Prelude.{◌≡◌, ℕ, ◌<◌, ◌≤◌, ◌+◌, IfOk, None, Ok, OnOk, false, length, replicate, true};
ghost use Rattle.litmus_merges.specs.Laws.{AreNamed};
ghost use Rattle.litmus_merges.specs.Nodes.{AreAll, AreOnce, AreReached, IsExplored, IsNode, IsTurned, Keeps};
ghost use Rattle.litmus_merges.specs.Steps.{AreSound, map_of};

use crate::Asked;
use crate::change::MapChange;
use crate::ending::{End, list_ends};
use crate::nodes::{Node, add, next_node};
use crate::prints::Seats;
use frames::Objects;
use std::alloc::Allocator;
use vm_base::NoMemory;

/// For how many nodes there are places at first.
const FEW: usize = 64;

/// Which combinations of replies the calls can have.
#[derive(Drop)]
pub struct Explored<A: Allocator> {
    /// The combinations that were found, no two of them with the same replies, finals and mappings.
    pub ends: Vec<End<A>, A>,
    /// Whether these are all.
    pub whole: bool,
}

/// Takes the nodes in to which the turn of one call leads from this node. `false` where there would be too many.
fn take_turn<A: Allocator + Clone + Drop>(
    objects: &Objects<A>,
    calls: &[Asked],
    limit: usize,
    nodes: &mut Vec<Node<A>, A>,
    seats: &mut Seats<A>,
    from: usize,
    at: usize,
    alloc: &A,
) -> Result<bool, NoMemory>
    requires named { AreNamed calls.now }
    requires explored { IsExplored objects.now calls.now nodes.old.items from }
    requires within { from < length nodes.old.items }
    requires call { at < length calls.now }
    requires turned { IsTurned objects.now calls.now nodes.old.items from at }
    ensures explored { IsExplored objects.now calls.now nodes.new.items from }
    ensures keeps { Keeps nodes.old.items nodes.new.items }
    ensures turned { result ≡ Ok true → IsTurned objects.now calls.now nodes.new.items from (at + 1) }
{
    let listed = nodes.as_slice();
    let next = next_node(objects, calls, &listed[from], from, at, alloc)?;
    let Some(node) = next else {
        return Ok(true);
    };
    let more = add(nodes, seats, node, limit, alloc)?;
    Ok(more)
}

/// Takes the nodes in to which turns lead from this node. `false` where there would be too many.
fn expand<A: Allocator + Clone + Drop>(
    objects: &Objects<A>,
    calls: &[Asked],
    limit: usize,
    nodes: &mut Vec<Node<A>, A>,
    seats: &mut Seats<A>,
    from: usize,
    alloc: &A,
) -> Result<bool, NoMemory>
    requires named { AreNamed calls.now }
    requires explored { IsExplored objects.now calls.now nodes.old.items from }
    requires within { from < length nodes.old.items }
    ensures explored { IsExplored objects.now calls.now nodes.new.items from }
    ensures keeps { Keeps nodes.old.items nodes.new.items }
    ensures more { result ≡ Ok true → IsExplored objects.now calls.now nodes.new.items (from + 1) }
{
    'calls: for at in 0..calls.len() {
        let more = take_turn(objects, calls, limit, nodes, seats, from, at, alloc)?;
        if !more {
            return Ok(false);
        }
    }
    Ok(true)
}

/// Takes nodes in until all turns of all of them lead to one of them, and tells whether it came so far.
fn run<A: Allocator + Clone + Drop>(
    objects: &Objects<A>,
    calls: &[Asked],
    limit: usize,
    nodes: &mut Vec<Node<A>, A>,
    seats: &mut Seats<A>,
    alloc: &A,
) -> Result<bool, NoMemory>
    requires named { AreNamed calls.now }
    requires explored { IsExplored objects.now calls.now nodes.old.items 0 }
    ensures explored { IsExplored objects.now calls.now nodes.new.items 0 }
    ensures keeps { Keeps nodes.old.items nodes.new.items }
    ensures whole { result ≡ Ok true → IsExplored objects.now calls.now nodes.new.items (length nodes.new.items) }
{
    'nodes: for next in 0..limit {
        if next >= nodes.len() {
            return Ok(true);
        }
        let more = expand(objects, calls, limit, nodes, seats, next, alloc)?;
        if !more {
            return Ok(false);
        }
    }
    Ok(nodes.len() <= limit)
}

/// The node of the opening: no call has had its turn.
fn first_node<A: Allocator + Clone>(
    calls: &[Asked],
    opening: &[MapChange],
    alloc: &A,
) -> Result<Node<A>, NoMemory>
    ensures told { IfOk result (λ node. node.told.items ≡ replicate (length calls.now) None) }
    ensures steps { IfOk result (λ node. node.steps.items ≡ opening.now) }
{
    let told = vec![in alloc.clone()?; None; calls.len()]?;
    let mut steps = Vec::with_capacity(alloc.clone()?, opening.len())?;
    steps.extend_from_slice(opening)?;
    Ok(Node {
        told,
        steps,
        from: 0,
        at: 0,
        print: 0,
    })
}

/// Which combinations of replies the calls can have, where each core makes its own in order and the cores' turns come in any
/// order, on the plain page map that the opening makes with these files; and what loads of the addresses in `finals` are
/// answered once all calls are, and, where `maps` asks for them, all mappings then. Each end's replies come by the turns in its
/// order, and its finals and mappings are what is seen there. Where the answer says that it is whole, each combination that some
/// merge gives is there, with what is seen at its end: so those that aren't there can't come. At most `limit` points of merges
/// are kept; where there are more, the answer isn't whole. No call may leave its place open. `Err` says that memory was refused.
pub fn explore<A: Allocator + Clone + Drop>(
    objects: &Objects<A>,
    opening: &[MapChange],
    calls: &[Asked],
    finals: &[u64],
    maps: bool,
    limit: usize,
    alloc: A,
) -> Result<Explored<A>, NoMemory>
    requires named { AreNamed calls.now }
    requires sound { AreSound opening.now }
    ensures reached { IfOk result (λ it. AreReached calls.now finals.now maps (map_of objects.now opening.now) it.ends.items) }
    ensures once { IfOk result (λ it. AreOnce it.ends.items) }
    ensures all { IfOk result (λ it. it.whole ≡ true
        → AreAll calls.now finals.now maps (map_of objects.now opening.now) it.ends.items) }
{
    let mut nodes = Vec::new(alloc.clone()?);
    let first = first_node(calls, opening, &alloc)?;
    nodes.push(first)?;
    let mut seats = Seats::new(alloc.clone()?, FEW)?;
    let whole = run(objects, calls, limit, &mut nodes, &mut seats, &alloc)?;
    let ends = list_ends(objects, finals, maps, nodes.as_slice(), &alloc)?;
    Ok(Explored { ends, whole })
}
