//! What an order of calls by the kernels' rule has at its places.
ghost use Rattle.std.specs.Prelude.{◌≡◌, IfOk};
ghost use Rattle.loose_orders.specs.Kernel.{call_of, item, items};

use orders::Item;
use std::alloc::Allocator;
use vm_base::NoMemory;

/// What an order of a history's calls, counted from 0, has at one place.
#[derive(Clone, Copy)]
pub enum Move {
    /// This call takes effect, and goes by the list of mappings as it is.
    Reply(u32),
    /// This call, an access, goes by what the change at a place of the order has replaced.
    Late {
        /// The call.
        call: u32,
        /// Where the change is.
        place: u32,
    },
    /// This call, an `mprotect` that was refused, takes effect, and has changed some pages.
    Part {
        /// The call.
        call: u32,
        /// How many pages it has changed, from the first on.
        count: u64,
        /// The page that has its error.
        page: u64,
    },
    /// The page of this call, a store, gets a copy of its own.
    Copy(u32),
    /// The same by the rights that the change at a place of the order has replaced.
    LateCopy {
        /// The call.
        call: u32,
        /// Where the change is.
        place: u32,
    },
}

impl Move {
    /// The number of its call.
    pub fn call(self) -> u32
        ensures { result ≡ call_of self }
    {
        match self {
            Move::Reply(call)
            | Move::Late { call, .. }
            | Move::Part { call, .. }
            | Move::Copy(call)
            | Move::LateCopy { call, .. } => call,
        }
    }
}

// A move as what it is of its call.
fn item(one: Move) -> Item
    ensures { result ≡ item one }
{
    match one {
        Move::Reply(call) | Move::Late { call, .. } | Move::Part { call, .. } => Item::Reply(call),
        Move::Copy(call) | Move::LateCopy { call, .. } => Item::Copy(call),
    }
}

/// Where calls take effect, and copies are made.
pub(crate) fn items<A: Allocator + Clone + Drop>(
    alloc: &A,
    moves: &[Move],
) -> Result<Vec<Item, A>, NoMemory>
    ensures { IfOk result (λ all. all.items ≡ items moves.now) }
{
    let mut all = Vec::with_capacity(alloc.clone()?, moves.len())?;
    'moves: for at in 0..moves.len() {
        let one = moves[at];
        let made = item(one);
        all.push(made)?;
    }
    Ok(all)
}
