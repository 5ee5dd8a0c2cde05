//! What all calls together are.
ghost use Rattle.driven.specs.Duties.{AllCallsAreDriven};

/// From a machine that `radixvm_new` made, whatever a caller that does its duties (include/radixvm.h, "A real MMU") asks
/// for under its lock, and whatever its handler, its processors and its programs do between the calls: the calls that
/// returned, each by the contract of its function, are the library's steps of a driven run. So the premises of
/// `driven_runs_are_plain` hold, and each access has the reply of a plain page map (POSIX.1-2017, mmap, munmap and
/// mprotect) at its moment.
pub fn calls_are_driven()
    ensures { AllCallsAreDriven }
{}
