//! The search.
ghost use Rattle.std.specs.Prelude.{◌≡◌, ◌≤◌, IfOk, length};
ghost use Rattle.vm_base.specs.Plain.{nothing_mapped};
ghost use Rattle.frames.specs.Given.{given_files};
ghost use Rattle.audit.specs.Placing.{rule_of};
ghost use Rattle.no_order.specs.Answers.{IsAnswer, IsAnswerBehind};

use crate::fresh::leads;
use crate::placing::{followed_by, is_amiss, is_whole, item_at};
use frames::FileSpec;
use orders::{Item, Timed};
use std::alloc::Allocator;
use vm_base::NoMemory;

/// What a search of all orders comes to.
#[derive(Clone, Copy)]
pub enum Answer {
    /// The calls have no order.
    NoOrder,
    /// They have one.
    Order,
    /// The search met a limit before it was done.
    Limit,
}

/// At most so many calls are searched.
pub const MOST: usize = 64;

// No order of them is that long that has copies which lead on.
const DEPTH: u32 = 256;

// Searches the orders that begin with these items, as far as so many more stand behind them. So many more beginnings may be tried.
fn search_behind<A: Allocator + Clone + Drop>(
    alloc: &A,
    files: &[FileSpec<A>],
    any_place: bool,
    history: &[Timed],
    items: &[Item],
    depth: u32,
    left: &mut u32,
) -> Result<Answer, NoMemory>
    requires files { length files.now ≤ 16 }
    requires few { length history.now ≤ 64 }
    ensures { IfOk result (λ answer. IsAnswerBehind (rule_of any_place) (nothing_mapped (given_files files.now)) history.now items.now answer) }
{
    if depth == 0 || *left == 0 {
        return Ok(Answer::Limit);
    }
    *left -= 1;
    let goes = leads(alloc, files, any_place, history, items)?;
    if !goes {
        return Ok(Answer::NoOrder);
    }
    let whole = is_whole(alloc, history, items)?;
    if whole {
        return Ok(Answer::Order);
    }
    let count = history.len() as u32;
    'items: for number in 0..2 * count {
        let item = item_at(count, number);
        let amiss = is_amiss(history, items, item);
        if !amiss {
            let longer = followed_by(alloc, items, item)?;
            let longer = longer.as_slice();
            match search_behind(alloc, files, any_place, history, longer, depth - 1, left)? {
                Answer::NoOrder => {}
                Answer::Order => return Ok(Answer::Order),
                Answer::Limit => return Ok(Answer::Limit),
            }
        }
    }
    Ok(Answer::NoOrder)
}

/// Searches all orders of the calls of a space with these files, from the map on in which nothing is mapped: that there is none is told
/// only where none is left to try. It gives up where it would try more than so many beginnings, or where there are more than `MOST` calls.
/// `Err` says that memory was wanting.
pub fn search_all<A: Allocator + Clone + Drop>(
    alloc: &A,
    files: &[FileSpec<A>],
    any_place: bool,
    history: &[Timed],
    limit: u32,
) -> Result<Answer, NoMemory>
    requires { length files.now ≤ 16 }
    ensures { IfOk result (λ answer. IsAnswer (rule_of any_place) (nothing_mapped (given_files files.now)) history.now answer) }
{
    if history.len() > MOST {
        return Ok(Answer::Limit);
    }
    let items = Vec::new(alloc.clone()?);
    let mut left = limit;
    search_behind(
        alloc,
        files,
        any_place,
        history,
        items.as_slice(),
        DEPTH,
        &mut left,
    )
}
