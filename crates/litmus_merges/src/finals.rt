//! What loads show at the end.
ghost use Rattle.std.specs.Prelude.{◌≡◌, IfOk, Some};
ghost use Rattle.vm_base.specs.declared.rights.Access.TheVariants.{Load as LoadOf};
ghost use Rattle.vm_base.specs.Apply.{access_reply};
ghost use Rattle.litmus_merges.specs.Finals.{AreShown};
ghost use Rattle.litmus_merges.specs.Steps.{AreSound, map_of};

use crate::change::MapChange;
use crate::turning::turn_of;
use frames::Objects;
use std::alloc::Allocator;
use vm_base::{CoreId, NoMemory, Reply, Request};

/// What a load of this address is answered.
fn load<A: Allocator>(objects: &Objects<A>, steps: &[MapChange], addr: u64) -> Reply
    requires { AreSound steps.now }
    ensures { access_reply (map_of objects.now steps.now) addr LoadOf ≡ Some result }
{
    let turn = turn_of(objects, steps, CoreId::new(0), Request::Load { addr });
    match turn.reply {
        Some(reply) => reply,
        None => unreachable!(),
    }
}

/// What loads of these addresses are answered.
pub(crate) fn loads<A: Allocator + Clone>(
    objects: &Objects<A>,
    steps: &[MapChange],
    addrs: &[u64],
    alloc: &A,
) -> Result<Vec<Reply, A>, NoMemory>
    requires { AreSound steps.now }
    ensures { IfOk result (λ replies. AreShown (map_of objects.now steps.now) addrs.now replies.items) }
{
    let mut replies = Vec::with_capacity(alloc.clone()?, addrs.len())?;
    'addrs: for k in 0..addrs.len() {
        let addr = addrs[k];
        let reply = load(objects, steps, addr);
        replies.push(reply)?;
    }
    Ok(replies)
}
