//! Where in the lists a call stands.
ghost use Rattle.std.specs.Prelude.{◌≡◌};
ghost use Rattle.std.specs.Prelude.{◌++◌, IfOk, OnOk};
ghost use Rattle.litmus_text.specs.Places.{call_at};
ghost use Rattle.litmus_text.specs.Scripts.{by_core, calls_of};

use litmus_merges::Asked;
use std::alloc::Allocator;
use vm_base::{CoreId, NoMemory};

/// How many cores a space may have.
const CORES: u64 = 64;

/// The place among the calls of the core's call with this number, from 1.
pub fn call_at(calls: &[Asked], core: CoreId, number: u64) -> Option<usize>
    ensures { result ≡ call_at calls.now core number }
{
    let mut left = number;
    for (at, call) in calls.iter().enumerate() {
        if call.core.index() == core.index() {
            if left == 1 {
                return Some(at);
            }
            left = left.saturating_sub(1);
        }
    }
    None
}

// Appends the calls of one core.
fn add_calls<A: Allocator>(
    sorted: &mut Vec<Asked, A>,
    calls: &[Asked],
    core: u64,
) -> Result<(), NoMemory>
    ensures { OnOk result (sorted.new.items ≡ sorted.old.items ++ calls_of calls.now core) }
{
    'calls: for at in 0..calls.len() {
        let call = calls[at];
        if u64::from(call.core.index()) == core {
            sorted.push(call)?;
        }
    }
    Ok(())
}

/// The calls, one core's after another's, and each core's in their order.
pub fn by_core<A: Allocator>(alloc: A, calls: &[Asked]) -> Result<Vec<Asked, A>, NoMemory>
    ensures { IfOk result (λ sorted. sorted.items ≡ by_core calls.now) }
{
    let mut sorted = Vec::new(alloc);
    'cores: for core in 0..CORES {
        add_calls(&mut sorted, calls, core)?;
    }
    Ok(sorted)
}
