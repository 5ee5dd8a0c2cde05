//! What the calls have to do with the plain page map, as contracts of functions that do nothing.
ghost use Rattle.vm_calls.specs.Plainly.{DecisionsArePlain, DecisionsLookAtFootprints};
ghost use Rattle.vm_calls.specs.Plainly.{CheckedPlansAreSound, RefusalsArePlain, AccessesArePlain};

/// The decision of a call is the plain page map's reply: over slots that show a plain map's pages,
/// a refusal is what the plain map answers to the request, which it leaves as it is; and where the
/// call acts on a range, the change of that range is what the request does to the plain map.
pub fn decisions_are_plain()
    ensures { DecisionsArePlain }
{}

/// A plan that the check of the arguments lets through is of valid pages, and its file pages fit.
pub fn checked_plans_are_sound()
    ensures { CheckedPlansAreSound }
{}

/// What the check of the arguments answers is what the plain page map answers, which it leaves as
/// it is.
pub fn refusals_are_plain()
    ensures { RefusalsArePlain }
{}

/// An access that the check lets through is answered by its page's entry in the plain page map, and
/// a store that is done changes its byte and nothing else.
pub fn accesses_are_plain()
    ensures { AccessesArePlain }
{}

/// A decision looks at the pages of its plan's footprint alone: over two slot maps that say the
/// same of those it is the same.
pub fn decisions_look_at_footprints()
    ensures { DecisionsLookAtFootprints }
{}
