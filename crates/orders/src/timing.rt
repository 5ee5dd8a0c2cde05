//! Whether an order keeps the times of its calls, and has each of them once.
ghost use Rattle.std.specs.Prelude.{◌≡◌, ◌↔◌, IsTrue, false, length, replicate, true};
ghost use Rattle.orders.specs.Once.{AllMarked, marks_after, may_follow};
ghost use Rattle.orders.specs.Orders.{EachOnce, KeepsTime};

use crate::history::{Item, Timed, call_at};

/// Tells whether no call stands after one that began after it ended.
pub fn keeps_time(history: &[Timed], items: &[Item]) -> bool
    requires { EachOnce (length history.now) items.now }
    ensures { IsTrue result ↔ KeepsTime history.now items.now }
{
    let mut latest = 0u64;
    'order: for at in 0..items.len() {
        let item = items[at];
        let Some(timed) = call_at(history, item.call()) else {
            return false;
        };
        if timed.end < latest {
            return false;
        }
        latest = latest.max(timed.begin);
    }
    true
}

/// Marks an item's call as one that has taken effect, if the item is its reply. `false` where there is no such call, or it has
/// taken effect before.
fn mark(marks: &mut [bool], item: Item) -> bool
    ensures may { result ≡ may_follow marks.old item }
    ensures marks { result ≡ true → marks.new ≡ marks_after marks.old item }
{
    let call = item.call() as usize;
    if call >= marks.len() || marks[call] {
        return false;
    }
    if let Item::Reply(call) = item {
        marks[call as usize] = true;
    }
    true
}

/// Tells whether all calls are marked.
fn all_marked(marks: &[bool]) -> bool
    ensures { IsTrue result ↔ AllMarked marks.now }
{
    'calls: for at in 0..marks.len() {
        if !marks[at] {
            return false;
        }
    }
    true
}

/// Tells whether the items have each of these calls once, and copies only before their calls. No call is marked at first.
pub fn each_once(marks: &mut [bool], items: &[Item]) -> bool
    requires { marks.old ≡ replicate (length marks.old) false }
    ensures { IsTrue result ↔ EachOnce (length marks.old) items.now }
{
    'order: for at in 0..items.len() {
        let item = items[at];
        if !mark(marks, item) {
            return false;
        }
    }
    all_marked(marks)
}
