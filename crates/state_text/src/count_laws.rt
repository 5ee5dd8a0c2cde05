//! What is told of the counts of a new machine.
ghost use Rattle.state_text.specs.CountLaws.{NoneAtFirst};

/// A new machine has no frame in use, and no core has anything to add, to review, or has flushed: so its counts have no line.
pub fn new_machines_count_nothing()
    ensures { NoneAtFirst }
{}
