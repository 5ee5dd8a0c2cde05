//! What a step of the machine leaves as it is, as the contract of a function that does nothing.
ghost use Rattle.core_steps.specs.Changing.{AllStepsKeepOtherPages};

/// A step changes what the pages of one range have at the most, which its event and the phase of its
/// core's call tell; most steps change no page. Divisions and joins of slots change none.
pub fn steps_keep_other_pages()
    ensures { AllStepsKeepOtherPages }
{}
