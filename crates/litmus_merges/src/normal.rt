//! Lists of steps in a normal form: steps that may change places stand in one order, and steps of which nothing is left are gone. So
//! maps to which the same steps lead in another order have the same list. Only that the map is the same is promised.
ghost use Rattle.std.specs.Prelude.{◌≡◌, ◌≤◌, IfOk, IfSome, Some, length};
ghost use Rattle.litmus_merges.specs.Passing.{AreAlikeBefore, IsCovered, PassFrom};
ghost use Rattle.litmus_merges.specs.Steps.{AreSound, IsSoundStep, StepsAfter};

use crate::change::MapChange;
use crate::passing::{covers, may_pass};
use crate::prints::step_print;
use std::alloc::Allocator;
use vm_base::NoMemory;

/// The place of a step of which this one leaves nothing, if there is one that may stand right before it.
fn covered(steps: &[MapChange], step: MapChange) -> Option<usize>
    ensures { IfSome result (IsCovered steps.now step) }
{
    let mut at = steps.len();
    'back: while at > 0 {
        let next = at - 1;
        let earlier = steps[next];
        if covers(step, earlier) {
            return Some(next);
        }
        if !may_pass(earlier, step) {
            return None;
        }
        at = next;
    }
    None
}

/// Takes steps out of which this one leaves nothing.
fn drop_covered<A: Allocator>(steps: &mut Vec<MapChange, A>, step: MapChange)
    requires sound { AreSound steps.old.items }
    ensures alike { AreAlikeBefore step steps.old.items steps.new.items }
    ensures sound { AreSound steps.new.items }
{
    let count = steps.len();
    'covered: for _ in 0..count {
        let found = covered(steps.as_slice(), step);
        let Some(at) = found else {
            return;
        };
        let _gone = steps.remove(at);
    }
}

/// Where the step is to stand: before the first of the steps that it may pass and whose number is larger.
fn place_of(steps: &[MapChange], step: MapChange) -> usize
    ensures within { result ≤ length steps.now }
    ensures pass { PassFrom steps.now result step }
{
    let print = step_print(0, step);
    let mut place = steps.len();
    let mut at = steps.len();
    'back: while at > 0 {
        let next = at - 1;
        let other = steps[next];
        if !may_pass(other, step) {
            return place;
        }
        at = next;
        if step_print(0, other) > print {
            place = next;
        }
    }
    place
}

/// Puts one more step in. `Err` says that memory was refused.
fn put_in<A: Allocator>(steps: &mut Vec<MapChange, A>, step: MapChange) -> Result<(), NoMemory>
    requires sound { AreSound steps.old.items }
    requires sound_step { IsSoundStep step }
    ensures map { IfOk result (λ _. StepsAfter steps.old.items (Some step) steps.new.items) }
    ensures sound { IfOk result (λ _. AreSound steps.new.items) }
{
    drop_covered(steps, step);
    let listed = steps.as_slice();
    let place = place_of(listed, step);
    steps.insert(place, step)?;
    Ok(())
}

/// The steps with one more, if there is one.
pub(crate) fn steps_after<A: Allocator + Clone>(
    steps: &[MapChange],
    step: Option<MapChange>,
    alloc: &A,
) -> Result<Vec<MapChange, A>, NoMemory>
    requires sound { AreSound steps.now }
    requires sound_step { IfSome step IsSoundStep }
    ensures map { IfOk result (λ new. StepsAfter steps.now step new.items) }
    ensures sound { IfOk result (λ new. AreSound new.items) }
{
    let mut new = Vec::with_capacity(alloc.clone()?, steps.len() + usize::from(step.is_some()))?;
    new.extend_from_slice(steps)?;
    let Some(step) = step else {
        return Ok(new);
    };
    put_in(&mut new, step)?;
    Ok(new)
}
