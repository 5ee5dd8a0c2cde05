//! Theorems on the definitions in specs/, as contracts of functions that do nothing.
ghost use Rattle.vm_base.specs.Laws.{EachRequestHasOneFirstAnswer, EachRequestIsAnswered};
ghost use Rattle.vm_base.specs.Laws.{FirstAnswersAreAnswers, PagesHaveBytes};

/// In any state of the plain page map each request of a core has an answer by the first place,
/// after the copy that is due before it, if one is. Two such answers in one state are the same one,
/// and leave the same state; and each is an answer of the plain map, which may also choose another
/// place.
pub fn requests_have_one_answer()
    ensures some { EachRequestIsAnswered }
    ensures one { EachRequestHasOneFirstAnswer }
    ensures first { FirstAnswersAreAnswers }
{}

/// `pages_of` are just the pages in which some byte of the range lies.
pub fn pages_have_bytes()
    ensures { PagesHaveBytes }
{}
