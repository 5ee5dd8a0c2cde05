//! In which order calls took effect, as a tree: configurations that came from one share its branch.

use crate::configs::Config;
use orders::Item;
use std::alloc::Allocator;
use vm_base::NoMemory;

/// How many nodes there are at least before those that nobody needs are left out.
const FEW: usize = 100_000;

/// What took effect.
#[derive(Clone, Copy)]
pub(crate) enum Mark {
    /// This call.
    Reply(u32),
    /// The copy of the page of this call, a store; or this call, which is lost.
    Copy(u32),
    /// This call, if it doesn't take effect later.
    Maybe(u32),
    /// This access, as before a call that hadn't ended.
    Late { access: u32, behind: u32 },
    /// This call, an `mprotect` that was refused, which has changed so many pages.
    Front { call: u32, count: u64 },
}

impl Mark {
    /// The item of it.
    pub fn item(self) -> Item {
        match self {
            Mark::Reply(call) | Mark::Maybe(call) => Item::Reply(call),
            Mark::Copy(call) => Item::Copy(call),
            Mark::Late { access, .. } => Item::Reply(access),
            Mark::Front { call, .. } => Item::Reply(call),
        }
    }

    // The same of the call so many numbers on.
    fn advanced(self, by: u32) -> Mark {
        match self {
            Mark::Reply(call) => Mark::Reply(call.wrapping_add(by)),
            Mark::Copy(call) => Mark::Copy(call.wrapping_add(by)),
            Mark::Maybe(call) => Mark::Maybe(call.wrapping_add(by)),
            Mark::Late { .. } | Mark::Front { .. } => self,
        }
    }
}

// What took effect behind another node, and the same of so many calls with the next numbers.
#[derive(Clone, Copy)]
struct Node {
    parent: usize,
    mark: Mark,
    count: u32,
}

// What is known of a node: whether a configuration needs it, how many nodes behind it are needed, one of these, and where it goes.
#[derive(Clone, Copy)]
struct Need {
    is_needed: bool,
    behind: u32,
    next: usize,
    goes_to: usize,
}

/// The items that all configurations have in front, and the tree of those behind. The first node is its root, and has no item of its own.
#[derive(Drop)]
pub(crate) struct Trail<A: Allocator> {
    order: Vec<Mark, A>,
    nodes: Vec<Node, A>,
    most: usize,
}

// Appends what took effect, of so many calls with the next numbers.
fn push_all<A: Allocator>(
    order: &mut Vec<Mark, A>,
    mark: Mark,
    count: u32,
) -> Result<(), NoMemory> {
    for more in 0..count {
        order.push(mark.advanced(more))?;
    }
    Ok(())
}

impl<A: Allocator + Clone + Drop> Trail<A> {
    /// Nothing took effect yet. There is room for the order of so many items.
    pub fn new(alloc: &A, items: usize) -> Result<Trail<A>, NoMemory> {
        let mut nodes = Vec::new(alloc.clone()?);
        nodes.push(Node {
            parent: 0,
            mark: Mark::Reply(0),
            count: 1,
        })?;
        Ok(Trail {
            order: Vec::with_capacity(alloc.clone()?, items)?,
            nodes,
            most: FEW,
        })
    }

    /// Adds what took effect, of so many calls, behind a node, and answers its node.
    pub fn add(&mut self, parent: usize, mark: Mark, count: u32) -> Result<usize, NoMemory> {
        let at = self.nodes.len();
        self.nodes.push(Node {
            parent,
            mark,
            count,
        })?;
        Ok(at)
    }

    /// Tells whether nodes should be left out.
    pub fn is_long(&self) -> bool {
        self.nodes.len() > self.most
    }

    // Which nodes are needed.
    fn needs(&self, alloc: &A, configs: &[Config]) -> Result<Vec<Need, A>, NoMemory> {
        let none = Need {
            is_needed: false,
            behind: 0,
            next: 0,
            goes_to: 0,
        };
        let mut needs = vec![in alloc.clone()?; none; self.nodes.len()]?;
        for config in configs {
            if let Some(need) = needs.get_mut(config.trail) {
                need.is_needed = true;
                // a configuration that ends here lets the front go no further
                need.behind = 2;
            }
        }
        for back in 0..self.nodes.len() {
            let at = self.nodes.len() - 1 - back;
            self.pass_on(&mut needs, at);
        }
        Ok(needs)
    }

    // Passes the need of a node on to the one before it.
    fn pass_on(&self, needs: &mut Vec<Need, A>, at: usize) {
        let is_needed = match needs.get(at) {
            Some(need) => need.is_needed,
            None => false,
        };
        if !is_needed || at == 0 {
            return;
        }
        let Some(node) = self.nodes.get(at) else {
            return;
        };
        if let Some(need) = needs.get_mut(node.parent) {
            need.is_needed = true;
            need.behind = need.behind.saturating_add(1);
            need.next = at;
        }
    }

    // Appends to the order what all configurations have in front, and answers the node that is the new root.
    fn advance(&mut self, needs: &[Need]) -> Result<usize, NoMemory> {
        let mut root = 0usize;
        for _ in 0..needs.len() {
            let Some(need) = needs.get(root) else {
                return Ok(root);
            };
            if need.behind != 1 {
                return Ok(root);
            }
            root = need.next;
            if let Some(node) = self.nodes.get(root) {
                let (mark, count) = (node.mark, node.count);
                push_all(&mut self.order, mark, count)?;
            }
        }
        Ok(root)
    }

    // The nodes from the new root on that are needed, each of which is told where it goes.
    fn needed(&self, alloc: &A, needs: &mut [Need], root: usize) -> Result<Vec<Node, A>, NoMemory> {
        let mut nodes = Vec::new(alloc.clone()?);
        for at in root..self.nodes.len() {
            let node = self.nodes[at];
            let parent = match needs.get(node.parent) {
                Some(need) if at != root => need.goes_to,
                _ => 0,
            };
            let goes_to = nodes.len();
            if let Some(need) = needs.get_mut(at) {
                if need.is_needed {
                    need.goes_to = goes_to;
                    nodes.push(Node { parent, ..node })?;
                }
            }
        }
        Ok(nodes)
    }

    /// Leaves out the nodes that no configuration needs, and tells these their new ones.
    pub fn shorten(&mut self, alloc: &A, configs: &mut [Config]) -> Result<(), NoMemory> {
        let mut needs = self.needs(alloc, configs)?;
        let root = self.advance(needs.as_slice())?;
        self.nodes = self.needed(alloc, &mut needs, root)?;
        self.most = self.nodes.len().saturating_mul(2).saturating_add(FEW);
        for at in 0..configs.len() {
            if let Some(need) = needs.get(configs[at].trail) {
                configs[at].trail = need.goes_to;
            }
        }
        Ok(())
    }

    /// The order of a configuration, which is the only one left.
    pub fn order_of(&mut self, alloc: &A, config: &Config) -> Result<&[Mark], NoMemory> {
        let mut one = [*config];
        self.shorten(alloc, &mut one)?;
        Ok(self.order.as_slice())
    }
}
