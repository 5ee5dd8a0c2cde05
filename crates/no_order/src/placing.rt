//! Which items may stand behind others.
ghost use Rattle.std.specs.Prelude.{◌≡◌, ◌+◌, ◌*◌, ◌<◌, ◌≤◌, ◌↔◌, ◌++◌, [], ◌∷◌, IfOk, IsTrue, Ok, Some, false, length, slice_get, true};
ghost use Rattle.orders.specs.Orders.{EachOnce, KeepsTime, call_of};
ghost use Rattle.no_order.specs.Beginnings.{Awaits, IsAmiss, IsAwaited, Stands, is_copy_of_none, is_store, item_at};

use orders::{Item, Timed, each_once, keeps_time};
use std::alloc::Allocator;
use vm_base::{NoMemory, Request};

/// Tells whether the item is this call's reply.
fn is_reply_of(item: Item, call: u32) -> bool
    ensures { IsTrue result ↔ (item ≡ Item.Reply call) }
{
    match item {
        Item::Reply(other) => other == call,
        Item::Copy(_) => false,
    }
}

/// Tells whether this call's reply is among the items.
fn is_replied(items: &[Item], call: u32) -> bool
    ensures { IsTrue result ↔ Stands items.now (Item.Reply call) }
{
    'items: for at in 0..items.len() {
        if is_reply_of(items[at], call) {
            return true;
        }
    }
    false
}

/// Tells whether this other call must stand before a call, which began here: it ended before, and its reply isn't among the items.
fn is_awaited(items: &[Item], number: u32, other: Timed, call: u32, begin: u64) -> bool
    ensures { IsTrue result ↔ IsAwaited items.now number other call begin }
{
    if number == call {
        return false;
    }
    if begin <= other.end {
        return false;
    }
    !is_replied(items, number)
}

/// Tells whether some other call must.
fn awaits(history: &[Timed], items: &[Item], call: u32, begin: u64) -> bool
    requires { length history.now ≤ 64 }
    ensures { IsTrue result ↔ Awaits history.now items.now call begin }
{
    'calls: for at in 0..history.len() {
        if is_awaited(items, at as u32, history[at], call, begin) {
            return true;
        }
    }
    false
}

/// Tells whether a request is a store.
fn is_store(request: Request) -> bool
    ensures { result ≡ is_store request }
{
    matches!(request, Request::Store { .. })
}

/// Tells whether an item is a copy for a request that is no store.
fn is_copy_of_none(item: Item, request: Request) -> bool
    ensures { result ≡ is_copy_of_none item request }
{
    match item {
        Item::Reply(_) => false,
        Item::Copy(_) => !is_store(request),
    }
}

/// The call of this number, if the history has it.
fn call_at(history: &[Timed], call: u32) -> Option<Timed>
    ensures { result ≡ slice_get history.now call }
{
    history.get(call as usize).copied()
}

/// Tells whether an item can't stand next behind these: its call's reply is there; or that of another call, which ended before it
/// began, isn't; or there is no such call; or it is a copy for a request that is no store.
pub(crate) fn is_amiss(history: &[Timed], items: &[Item], item: Item) -> bool
    requires { length history.now ≤ 64 }
    ensures { IsTrue result ↔ IsAmiss history.now items.now item }
{
    let call = item.call();
    let Some(timed) = call_at(history, call) else {
        return true;
    };
    if is_replied(items, call) {
        return true;
    }
    if awaits(history, items, call, timed.begin) {
        return true;
    }
    is_copy_of_none(item, timed.call.request)
}

/// The item with this number among all that so many calls have: first their replies, and then their copies.
pub(crate) fn item_at(count: u32, number: u32) -> Item
    ensures { result ≡ item_at count number }
{
    if number < count {
        Item::Reply(number)
    } else {
        Item::Copy(number - count)
    }
}

/// These items, and one more behind them.
pub(crate) fn followed_by<A: Allocator + Clone + Drop>(
    alloc: &A,
    items: &[Item],
    item: Item,
) -> Result<Vec<Item, A>, NoMemory>
    ensures { IfOk result (λ longer. longer.items ≡ items.now ++ item ∷ []) }
{
    let mut longer = Vec::new(alloc.clone()?);
    longer.extend_from_slice(items)?;
    longer.push(item)?;
    Ok(longer)
}

/// Tells whether the items have each call once, in an order that keeps time.
pub(crate) fn is_whole<A: Allocator + Clone + Drop>(
    alloc: &A,
    history: &[Timed],
    items: &[Item],
) -> Result<bool, NoMemory>
    ensures once { result ≡ Ok true → EachOnce (length history.now) items.now }
    ensures time { result ≡ Ok true → KeepsTime history.now items.now }
    ensures no { result ≡ Ok false → EachOnce (length history.now) items.now → ¬ KeepsTime history.now items.now }
{
    let mut marks = vec![in alloc.clone()?; false; history.len()]?;
    if !each_once(&mut marks, items) {
        return Ok(false);
    }
    Ok(keeps_time(history, items))
}
