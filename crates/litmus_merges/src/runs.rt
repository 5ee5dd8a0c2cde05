//! Runs of pages that steps change alike, so that one page of each need be looked at.
ghost use Rattle.std.specs.Prelude.{◌<◌, ◌≤◌};
ghost use Rattle.litmus_merges.specs.Runs.{AreOneRun, IsOneRun};

use crate::change::MapChange;
use vm_base::PageRange;

/// Where a run that begins at this page and ends at the latest there ends by the bounds of a range.
fn range_end(range: PageRange, page: u64, end: u64) -> u64
    requires { page < end }
    ensures further { page < result }
    ensures within { result ≤ end }
    ensures first { page < range.first → result ≤ range.first }
    ensures end { range.first ≤ page → page < range.end → result ≤ range.end }
{
    if page < range.first {
        return end.min(range.first);
    }
    if page < range.end {
        return end.min(range.end);
    }
    end
}

/// Where it ends by a step.
fn step_end(step: MapChange, page: u64, end: u64) -> u64
    requires { page < end }
    ensures further { page < result }
    ensures within { result ≤ end }
    ensures run { IsOneRun step page result }
{
    match step {
        MapChange::Change(change) => range_end(change.range(), page, end),
        MapChange::Copy { .. } | MapChange::Own { .. } | MapChange::File { .. } => end,
    }
}

/// Where the run of pages ends that begins at this page, or at the latest there.
pub(crate) fn run_end(steps: &[MapChange], page: u64, end: u64) -> u64
    requires { page < end }
    ensures further { page < result }
    ensures within { result ≤ end }
    ensures run { AreOneRun steps.now page result }
{
    let mut last = end;
    'steps: for at in 0..steps.len() {
        let step = steps[at];
        last = step_end(step, page, last);
    }
    last
}
