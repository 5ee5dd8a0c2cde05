//! What one who watched each step of a machine knows of it.
ghost use Rattle.state_text.specs.Laws.{AllHeldAreOwned, AllOpeningsAreKnown, AllTextsAreTheStates, AllWatchersKnow};

/// A mirror that knows a state, and watches steps from there on, knows the state to which they lead, where it took all in. Before
/// the first step it knows each new machine. The text of what it knows, in either form, is the text of the state. The pages that are shown as held are
/// those that the core owns.
pub fn mirrors_know_states()
    ensures know { AllWatchersKnow }
    ensures opening { AllOpeningsAreKnown }
    ensures text { AllTextsAreTheStates }
    ensures owned { AllHeldAreOwned }
{}
