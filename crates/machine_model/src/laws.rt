//! What holds of every run of the abstract machine: which pages a call owns, that it can go on, and
//! that each reply stands once in the log; what every step keeps of translations and counts; that a
//! run gives the replies and bytes of a plain page map; and what a call comes to beside which no
//! other runs. No function here does anything: each contract is a law.
ghost use Rattle.machine_model.specs.Orderly.{AllStepsKeepOrder, AllOpeningsAreOrderly};
ghost use Rattle.machine_model.specs.Brackets.{AllRunsBracketed};
ghost use Rattle.machine_model.specs.Coherent.{AllStepsKeepTranslations, AllOpeningsAreCoherent};
ghost use Rattle.machine_model.specs.Counted.{AllStepsKeepCounts, AllOpeningsAreCounted};
ghost use Rattle.vm_base.specs.Log.{EachLogLeadsToOneMap};
ghost use Rattle.machine_model.specs.Sound.{AllReachedAreSound, AllReachedKeepUp, AllStepsAreSound, AllRunsSound};
ghost use Rattle.machine_model.specs.Apart.{AllCallsKeepApart};
ghost use Rattle.machine_model.specs.Alone.{AllLoneCallsAreAnswered, AllStepsBesideRest, AllWaitingCallsAreAnswered};

/// Every step from an orderly state leaves an orderly one, and a machine over new slots begins so.
pub fn order_is_kept()
    ensures kept { AllStepsKeepOrder }
    ensures opening { AllOpeningsAreOrderly }
{}

/// In every run of a machine over new slots, each reply stands once in the log, between the event
/// that began its call and the event that handed it out, and the requests kept are those of the
/// calls begun.
pub fn calls_are_bracketed()
    ensures { AllRunsBracketed }
{}

/// Every step from an orderly and coherent state leaves a coherent one, and a machine over new
/// slots begins so: each entry of a core's tables is what the page's slot says, and its core is
/// recorded there; each entry of its TLB is the tables', or was cleared from them and has to be
/// invalidated at the next take; a call that awaits other cores' acknowledgements is the only one
/// that may change their pages (Intel SDM volume 3A, propagation of changes to other processors).
pub fn translations_are_kept()
    ensures kept { AllStepsKeepTranslations }
    ensures opening { AllOpeningsAreCoherent }
{}

/// Every step from an orderly state whose frames are counted leaves one, and a machine over new
/// slots begins so: each frame's true count (Refcache of the RadixVM paper, EuroSys 2013) is the
/// number of pages that have it; of a frame that is free, or that a call has taken, nothing is left
/// in the counts.
pub fn counts_are_kept()
    ensures kept { AllStepsKeepCounts }
    ensures opening { AllOpeningsAreCounted }
{}

/// Every state that a machine over new slots reaches is sound, with any files, up to 64 cores and
/// any list of events: its log is that of a plain page map (POSIX.1-2017, mmap, munmap and
/// mprotect), each translation agrees with that map, no frame that something names is free, and
/// each frame counts the pages that have it. Every step from such a state makes no log entry, or
/// one with its event's number that was due: "no frame" only where none was free, and "no memory"
/// only for a call that was given up. A frame becomes free only by a review, or by the call that had
/// taken it and gave it to no page, and a call waits only for what holds it up. An event is idle only
/// where it isn't possible, and full only at the limit of calls or of events; then, and where a call
/// waits, only the count of events changes. So all runs are sound, state by state. In each reached
/// state a call owns just the pages that its phase says, tables and TLBs keep up with the slots, and
/// the counts of frames are right. A log leads to no more than one map.
pub fn runs_are_sound()
    ensures reached { AllReachedAreSound }
    ensures keep { AllReachedKeepUp }
    ensures steps { AllStepsAreSound }
    ensures sound { AllRunsSound }
    ensures one { EachLogLeadsToOneMap }
{}

/// A call that begins in a reached state where no core has a call, and during which no other call
/// runs, takes fewer than 2^40 plain steps. The first that isn't plain hands out its reply, or
/// waits for just the other cores that are recorded on its pages. The reply and what it leaves are
/// those of the plain page map (POSIX.1-2017, mmap, munmap and mprotect) to which the log led
/// before, where a private page that showed its file's page gets a copy for a store, and "no frame"
/// is the reply only if no frame was free when the call began. A mapping without MAP_FIXED waits
/// for nobody, and is at its hint, if that is free, else at the least room of its core's window; it
/// is refused only where there is none. Each page then has the users that the reply leaves it. Then
/// no core has a call, and the next one may begin.
pub fn lone_calls_are_answered()
    ensures { AllLoneCallsAreAnswered }
{}

/// The same of a call that waits for other cores, and during which no other call runs: it waits for
/// just those that still have a take before them, and is answered once there are none. (A mapping
/// without MAP_FIXED that is about to be made waits for nobody, and may have any place.)
pub fn waiting_calls_are_answered()
    ensures { AllWaitingCallsAreAnswered }
{}

/// Beside a call that waits, or where no core has a call, takes, walks, evictions, flushes, reviews
/// and folds change neither the calls nor the users of a page, no frame is asked for and no place
/// looked for, and no call can be given up but a store that awaits nobody any more. Of the cores
/// just those that are awaited take.
pub fn steps_beside_rest()
    ensures { AllStepsBesideRest }
{}

/// No page is held by two calls, and no call waits for a slot of another whose pages are disjoint
/// from its own.
pub fn calls_keep_apart()
    ensures { AllCallsKeepApart }
{}
