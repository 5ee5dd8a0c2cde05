//! What follows from the definitions in specs/.
ghost use Rattle.litmus_outcomes.specs.Performed.{FinalsAreShown, PerformedAreCombinations, PerformedEndAtRest};

/// In a reached state no core has a call, and its log leads to a plain page map. From there each list of
/// events, with whatever walks, evictions, takes, flushes, reviews and folds, that performs the cores' lists of
/// calls has replies that some merge of the lists gives on that map, unless one of them is "no frame" or "no
/// memory".
pub fn scripts_are_merged()
    ensures { PerformedAreCombinations }
{}

/// After such a list of events no core has a call, and the log leads to a map that some merge of the lists leaves with just these
/// replies.
pub fn scripts_end_at_rest()
    ensures { PerformedEndAtRest }
{}

/// Where a core then loads from some addresses, one after another, what it is answered is what the addresses show on the map that
/// some merge of the lists leaves with just these replies.
pub fn finals_are_shown()
    ensures { FinalsAreShown }
{}
