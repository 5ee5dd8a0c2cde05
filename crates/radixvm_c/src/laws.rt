//! Codes say what they stand for.
ghost use Rattle.radixvm_c.specs.Laws.{AllEventsHaveCodes, AllItemsHaveCodes, AllOutcomesDiffer, AllEndsDiffer};
ghost use Rattle.radixvm_c.specs.Laws.{AllEntriesDiffer, AllHeldAreLegal, AllAnswersHaveRequests};

/// Each event can be written, and so can each item: what is read is what was meant.
pub fn events_have_codes()
    ensures events { AllEventsHaveCodes }
    ensures items { AllItemsHaveCodes }
{}

/// Different outcomes have different codes or values, and so are different ends, and different
/// entries of a log.
pub fn outcomes_differ()
    ensures outcomes { AllOutcomesDiffer }
    ensures ends { AllEndsDiffer }
    ensures entries { AllEntriesDiffer }
{}

/// Each machine that a handle has is in a legal state: a run leads to it, and it is sound. In such a
/// state's log each answer has its request, so that it is told what was asked for.
pub fn held_are_legal()
    ensures legal { AllHeldAreLegal }
    ensures asked { AllAnswersHaveRequests }
{}
