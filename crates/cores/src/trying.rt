//! Whether a core has an order, whichever of its calls have taken effect.
ghost use Rattle.std.specs.Prelude.{◌≡◌, ◌≤◌, ◌++◌, ◌∷◌, [], IfOk, Ok, length, true};
ghost use Rattle.vm_base.specs.Plain.{nothing_mapped};
ghost use Rattle.frames.specs.Given.{given_files};
ghost use Rattle.audit.specs.Placing.{rule_of};
ghost use Rattle.orders.specs.Orders.{HasOrder};
ghost use Rattle.cores.specs.Cores.{HasNone};

use crate::kept::Kept;
use frames::FileSpec;
use no_order::{Answer, search_all};
use orders::Timed;
use std::alloc::Allocator;
use vm_base::NoMemory;

/// So many beginnings of orders are tried at most.
const BEGINNINGS: u32 = 40_000;

/// These calls, and one more behind them.
pub(crate) fn followed_by<A: Allocator + Clone + Drop>(
    alloc: &A,
    calls: &[Timed],
    call: Timed,
) -> Result<Vec<Timed, A>, NoMemory>
    ensures { IfOk result (λ longer. longer.items ≡ calls.now ++ call ∷ []) }
{
    let mut longer = Vec::new(alloc.clone()?);
    longer.extend_from_slice(calls)?;
    longer.push(call)?;
    Ok(longer)
}

/// Tells whether it was shown that these calls have no order.
fn has_none<A: Allocator + Clone + Drop>(
    alloc: &A,
    files: &[FileSpec<A>],
    any_place: bool,
    calls: &[Timed],
) -> Result<bool, NoMemory>
    requires { length files.now ≤ 16 }
    ensures { result ≡ Ok true → ¬ HasOrder (rule_of any_place) (nothing_mapped (given_files files.now)) calls.now }
{
    match search_all(alloc, files, any_place, calls, BEGINNINGS)? {
        Answer::NoOrder => Ok(true),
        Answer::Order | Answer::Limit => Ok(false),
    }
}

/// Tells whether it was shown that these calls have none, and those that are kept, whichever of the open ones have taken effect.
pub(crate) fn none_of<A: Allocator + Clone + Drop>(
    alloc: &A,
    files: &[FileSpec<A>],
    any_place: bool,
    front: &[Timed],
    kept: &[Kept],
) -> Result<bool, NoMemory>
    requires { length files.now ≤ 16 }
    ensures { result ≡ Ok true → HasNone (rule_of any_place) (nothing_mapped (given_files files.now)) front.now kept.now }
{
    let [first, rest @ ..] = kept else {
        return has_none(alloc, files, any_place, front);
    };
    let longer = followed_by(alloc, front, first.timed)?;
    let none = none_of(alloc, files, any_place, longer.as_slice(), rest)?;
    if !none {
        return Ok(false);
    }
    if first.is_open {
        return none_of(alloc, files, any_place, front, rest);
    }
    Ok(true)
}
