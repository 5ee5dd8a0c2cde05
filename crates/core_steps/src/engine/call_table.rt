//! The making of the engine's table of calls, which `calls` has, and of the cores beside it.
ghost use Rattle.std.specs.Prelude.{◌≡◌, ◌≤◌, length, IfOk, true};
ghost use Rattle.machine_model.specs.World.{no_calls, no_translations};
ghost use Rattle.machine_model.specs.Setups.{most_calls};
ghost use Rattle.core_steps.specs.Parts.{parts};
ghost use Rattle.core_steps.specs.State.{calls_in};
ghost use Rattle.machine_model.specs.declared.setup.CallLimit.TheVariants.{Long, Usual};

use crate::engine::calls::CallTable;
use crate::engine::cores::{Bare, Cores};
use machine_log::ledger::Opening;
use machine_model::Phase;
use std::alloc::Allocator;
use vm_base::NoMemory;

// A table for this many cores without a call, which has room for this many calls.
fn new_call_table<A: Allocator + Clone, L: Opening<A>>(
    alloc: A,
    cores: usize,
    limit: u64,
) -> Result<CallTable<A, L>, NoMemory>
    requires cores { cores ≤ 64 }
    requires few { limit ≤ most_calls Long }
    requires kept { L.keeps ≡ true → limit ≤ most_calls Usual }
    ensures calls { IfOk result (λ table. calls_in table ≡ no_calls) }
    ensures cores { IfOk result (λ table. length table.phases.items ≡ cores) }
    ensures limit { IfOk result (λ table. table.limit ≡ limit) }
{
    let Ok(for_phases) = alloc.clone() else {
        return Err(NoMemory);
    };
    let Ok(phases) = vec![in for_phases; Phase::Free; cores] else {
        return Err(NoMemory);
    };
    let Ok(for_numbers) = alloc.clone() else {
        return Err(NoMemory);
    };
    let Ok(numbers) = vec![in for_numbers; 0u64; cores] else {
        return Err(NoMemory);
    };
    let Ok(ledger) = L::open(alloc, limit) else {
        return Err(NoMemory);
    };
    Ok(CallTable {
        phases,
        numbers,
        limit,
        ledger,
        events: 0,
    })
}

/// A table for this many cores without a call, which has room for this many calls, and the cores, whose
/// tables, TLBs and inboxes are empty.
pub(crate) fn new_calls<H: Bare<A>, A: Allocator + Clone + Drop, L: Opening<A> + Drop>(
    alloc: A,
    cores: u8,
    limit: u64,
) -> Result<(CallTable<A, L>, Cores<H, A>), NoMemory>
    requires cores { cores ≤ 64 }
    requires few { limit ≤ most_calls Long }
    requires kept { L.keeps ≡ true → limit ≤ most_calls Usual }
    ensures calls { IfOk result (λ made. calls_in made.0 ≡ no_calls) }
    ensures number { IfOk result (λ made. length made.0.phases.items ≡ cores) }
    ensures limit { IfOk result (λ made. made.0.limit ≡ limit) }
    ensures count { IfOk result (λ made. (parts made.1).count ≡ cores) }
    ensures empty { IfOk result (λ made. (parts made.1).hardware ≡ no_translations) }
{
    let Ok(for_table) = alloc.clone() else {
        return Err(NoMemory);
    };
    let Ok(table) = new_call_table(for_table, usize::from(cores), limit) else {
        return Err(NoMemory);
    };
    match Cores::new(alloc, cores) {
        Ok(cores) => Ok((table, cores)),
        Err(refused) => {
            drop(table);
            Err(refused)
        }
    }
}
