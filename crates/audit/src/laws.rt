//! What follows from the definitions in specs/.
ghost use Rattle.audit.specs.Laws.{CallsLeadToOneMap, WrongCallsAreNone};

/// Replies of calls that are a plain page map's lead to one map. So where one of them is the first
/// wrong one, no plain page map gives them all.
pub fn audits_are_exact()
    ensures one { CallsLeadToOneMap }
    ensures wrong { WrongCallsAreNone }
{}
