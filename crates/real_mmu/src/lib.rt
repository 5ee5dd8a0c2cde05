//! Laws of real hardware over the machine: cores that translate and keep bytes by themselves do as a plain page map.
//!
//! - specs/`Remembered`: what a core's tables once had, until the core drops the page; `Uses`: accesses by it, of bytes
//!   that frames have outside; `Fills`: which bytes a step tells of a page's new frame; `Steps`: what a step of the
//!   machine does to the map that is shown.
//! - specs/`Whole`: runs of the machine beside hardware; `Waiting`: stores that wait in a core's buffer; `Driven`: the
//!   same with real tables and TLBs, which a handler brings up to date.
//!
//! It exists for `driven_runs_are_plain`: cores over the machine do what x86-TSO cores do over a plain page map. No
//! function here does anything: each contract is a law. What the handler has to do is a premise, and that real code
//! does it is proved nowhere.
#![tactic(auto)]

ghost use Rattle.real_mmu.specs.Driven.{AllDrivenRunsArePlain};
ghost use Rattle.real_mmu.specs.Entries.{AllEntriesAreMadeThere};
ghost use Rattle.real_mmu.specs.Fills.{AllFillsAreDue};
ghost use Rattle.real_mmu.specs.Remembered.{AllRememberedAreGood};
ghost use Rattle.real_mmu.specs.Steps.{AllStepsLead};
ghost use Rattle.real_mmu.specs.Uses.{AllUsesArePlain};
ghost use Rattle.real_mmu.specs.Whole.{AllWholeRunsArePlain};

/// In every run of a machine over new slots, each translation that a core's tables had, and whose page the core hasn't
/// dropped since, agrees with the plain page map (POSIX.1-2017, mmap, munmap and mprotect) to which the log leads: it
/// leads to the page's frame, which isn't free, allows no access that the page forbids, and its core is recorded on the
/// page. So a real TLB, of any size, that takes in only what the tables have (Intel SDM volume 3A, caching translation
/// information) and drops what it is told to drop, never shows anything else than that map.
pub fn real_tlbs_agree()
    ensures { AllRememberedAreGood }
{}

/// Whatever bytes frames have outside: where the slots and these bytes show a plain page map, each load, store or fetch
/// by such a translation has that map's reply, and leaves the bytes that the map then shows.
pub fn uses_are_plain()
    ensures { AllUsesArePlain }
{}

/// Whatever bytes frames have outside: where the slots and these bytes show a plain page map before a step of the
/// library, the step tells which bytes there are after it, and with these the slots show a plain page map to which the
/// step's log entry leads, if it made one. An access that the library serves leads to nothing.
pub fn steps_lead()
    ensures { AllStepsLead }
{}

/// A step of the library gives a page a new frame just where the page's call has taken the frame for it, and the page
/// has the frame after the step. So whoever sees where a call stands, and the page's frame after its step, knows the
/// fill.
pub fn fills_are_due()
    ensures { AllFillsAreDue }
{}

/// A step of the machine makes an entry of its log only where it gives a call up, or is one of a call that is in one of these
/// phases: Check, Find, Decide, Acks, Try, Settle, Want, Fill, or CopyAcks.
pub fn entries_are_made_there()
    ensures { AllEntriesAreMadeThere }
{}

/// In every run, of any schedule, of the library's steps, of translations that cores' hardware takes in from the
/// tables, and of accesses by what it has taken in and hasn't dropped: each access has the reply of the plain page map
/// (POSIX.1-2017, mmap, munmap and mprotect) at its moment, and leaves the map after it; each step of the library leads
/// as its log entry says; and at each moment slots and bytes show the map, and what any core has of a page is what the
/// page's slot says.
pub fn whole_runs_are_plain()
    ensures { AllWholeRunsArePlain }
{}

/// The same where real tables and TLBs are apart, a handler brings them up to date, and each core's stores wait in a
/// buffer (Intel SDM volume 3A, memory ordering). A core acknowledges a message only when its tables and its TLB have
/// nothing of the range, its program makes no access to what its own call dropped until they have nothing of it, and it
/// drops no page while its store to it waits. Until then words may lag, and the processor may walk them at any moment.
/// Each load has the reply of the plain page map with its core's waiting stores made, each fetch that of the map, and
/// each store is the map's at the moment when memory sees it.
pub fn driven_runs_are_plain()
    ensures { AllDrivenRunsArePlain }
{}
