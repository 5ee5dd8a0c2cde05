//! What comes before the calls that are merged.
ghost use Rattle.std.specs.Prelude.{◌≡◌, ◌↔◌, IfOk, IsTrue, OnErr, false};
ghost use Rattle.vm_base.specs.Requests.{is_placed};
ghost use Rattle.litmus_merges.specs.Laws.{AreNamed};
ghost use Rattle.litmus_merges.specs.OneTurn.{TurnsTo};
ghost use Rattle.litmus_merges.specs.Steps.{AreSound, map_of};

use crate::Asked;
use crate::change::MapChange;
use crate::turning::turn_of;
use frames::Objects;
use std::alloc::Allocator;
use vm_base::{CoreId, NoMemory, Reply, Request};

/// Tells whether a request leaves its place open.
fn is_placed(request: Request) -> bool
    ensures { result ≡ is_placed request }
{
    match request {
        Request::Mmap { flags, .. } => !flags.fixed,
        Request::Munmap { .. }
        | Request::Mprotect { .. }
        | Request::Load { .. }
        | Request::Store { .. }
        | Request::Fetch { .. } => false,
    }
}

/// Tells whether no call leaves its place open.
pub fn are_named(calls: &[Asked]) -> bool
    ensures { IsTrue result ↔ AreNamed calls.now }
{
    'calls: for k in 0..calls.len() {
        let call = calls[k];
        if is_placed(call.request) {
            return false;
        }
    }
    true
}

/// Gives the core's request, which leaves no place open, its turn behind those before it: its reply, or none where the page that
/// it stores to got a copy first, and its own turn is still to come. `Err` says that memory was refused; the map is as it was.
pub fn lead<A: Allocator>(
    objects: &Objects<A>,
    opening: &mut Vec<MapChange, A>,
    core: CoreId,
    request: Request,
) -> Result<Option<Reply>, NoMemory>
    requires named { is_placed request ≡ false }
    requires sound { AreSound opening.old.items }
    ensures turns { IfOk result (λ reply. TurnsTo (map_of objects.now opening.old.items) core request reply
        (map_of objects.now opening.new.items)) }
    ensures sound { AreSound opening.new.items }
    ensures err { OnErr result (opening.new.items ≡ opening.old.items) }
{
    let turn = turn_of(objects, opening.as_slice(), core, request);
    let Some(step) = turn.step else {
        return Ok(turn.reply);
    };
    opening.push(step)?;
    Ok(turn.reply)
}
