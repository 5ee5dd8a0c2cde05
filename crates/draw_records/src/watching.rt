//! Records what happens in the columns of a run.
ghost use Rattle.std.specs.Prelude.{◌≡◌};
ghost use Rattle.core_steps.specs.Machine.{state};
ghost use Rattle.draw_records.specs.Columns.{Columned, columned};
ghost use Rattle.watched.specs.Watching.{makes};

use crate::Recorder;
use crate::lines::Asking;
use crate::looking::{Before, look};
use crate::margin::Margin;
use crate::spot::{Last, Spot, cause_of, goes_on, last_after, waits_on};
use core_steps::Machine;
use draw_lines::waits::Waited;
use machine_log::Ledger;
use machine_model::{Blocker, Event, Outcome};
use slot_lock::SlotMap;
use std::alloc::Allocator;
use std::marker::Model;
use vm_base::{CoreId, NoMemory};
use watched::Watch;

/// The line of a step that no line asked for.
const NO_LINE: Asking = Asking {
    number: 0,
    is_whole: false,
};

/// Records what happens in the columns of a run, 2,000 at most, from a line of the trace on. A column is a longest run of steps
/// of one call that no other step comes between; any other step has its own. A clause sees it as `Columned`.
#[derive(Drop)]
pub struct ColumnRecorder<A: Allocator> {
    moments: Recorder<A>,
    margin: Margin<A>,
    lines: Vec<Asking, A>,
    from: u64,
    spot: Spot,
}

impl<A: Allocator> Model for ColumnRecorder<A> {
    ghost Value = { Columned };

    ghost view = { λ r. record {
      recording = r.moments;
      margins = r.margin;
      lines = r.lines.items;
      from = r.from;
      spot = r.spot;
    } };
}

impl<A: Allocator> ColumnRecorder<A> {
    ghost use Rattle.std.specs.Prelude.{◌≡◌, IfOk};
    ghost use Rattle.core_steps.specs.Machine.{state};
    ghost use Rattle.draw_records.specs.Columns.{column_begun, line_begun, next_column, next_line, noted, nothing_columned, shown_from, step_ended};
    ghost use Rattle.draw_records.specs.Columns.{wait_noted, waited};

    /// A recorder of what happens from the line with this number on, in a trace of which these lines ask for steps, before the first
    /// step of a run.
    pub fn new(
        moments: Recorder<A>,
        margin: Margin<A>,
        lines: Vec<Asking, A>,
        from: u64,
    ) -> ColumnRecorder<A>
        ensures { result ≡ nothing_columned moments margin lines.items from }
    {
        ColumnRecorder {
            moments,
            margin,
            lines,
            from,
            spot: Spot {
                begun: 0,
                present: NO_LINE,
                is_within: false,
                is_shown: false,
                last: Last::Nothing,
            },
        }
    }

    /// What happened, where a step's number is that of its column.
    pub fn moments(&self) -> &Recorder<A>
        ensures { result.now ≡ self.now.recording }
    {
        &self.moments
    }

    /// The lines of the columns, and the waits in them.
    pub fn margin(&self) -> &Margin<A>
        ensures { result.now ≡ self.now.margins }
    {
        &self.margin
    }

    // In which column each core told others last, or 0.
    fn told(&self) -> &[u64; 64]
        ensures { result.now ≡ self.now.recording.told }
    {
        self.moments.told()
    }

    // The next line that asks for steps has begun.
    fn next_line(&mut self)
        ensures { self.new ≡ next_line self.old }
    {
        let at = self.spot.begun;
        self.spot.present = if at < self.lines.len() {
            self.lines[at]
        } else {
            NO_LINE
        };
        self.spot.begun = at.saturating_add(1);
    }

    // Columns are shown from this line on, if it is the first that is asked for or behind it, and none is yet.
    fn show_line(&mut self)
        ensures { self.new ≡ shown_from self.old }
    {
        if !self.spot.is_shown && self.spot.present.number >= self.from {
            self.moments.open();
            self.spot.is_shown = true;
            self.spot.last = Last::Nothing;
        }
    }

    // The line of the next step begins, where the last one asks for no more.
    fn begin_line(&mut self)
        ensures { self.new ≡ line_begun self.old }
    {
        if !self.spot.is_within {
            self.next_line();
            self.show_line();
        }
    }

    // A column begins.
    fn next_column(&mut self, cores: u64)
        ensures { self.new ≡ next_column self.old cores }
    {
        self.moments.advance(cores);
        if self.spot.is_shown {
            self.margin.head(self.spot.present.number);
        }
    }

    // The column of this step begins, if it isn't that of the last one.
    fn begin_column(&mut self, event: &Event, cores: u64)
        ensures { self.new ≡ column_begun self.old event.now cores }
    {
        if !goes_on(self.spot.last, event) {
            self.next_column(cores);
        }
    }

    // This core's call waits, if there is one.
    fn wait(&mut self, core: Option<CoreId>, blocker: Blocker)
        ensures { self.new ≡ waited self.old core blocker }
    {
        if let Some(core) = core {
            if self.moments.keeps() {
                self.margin.wait(Waited {
                    column: self.moments.steps(),
                    core,
                    cause: cause_of(blocker),
                });
            }
        }
    }

    // What the event came to, if it is that the core's call waits.
    fn note_wait(&mut self, event: &Event, outcome: &Outcome)
        ensures { self.new ≡ wait_noted self.old event.now outcome.now }
    {
        if let Outcome::Wait(blocker) = outcome {
            self.wait(event.core(), *blocker);
        }
    }

    // What the event came to, and what was seen before it. A call that waits on is seen once in a column.
    fn note<M: SlotMap, B: Allocator + Clone, L: Ledger>(
        &mut self,
        machine: &Machine<M, B, L>,
        before: &Before,
        event: &Event,
        outcome: &Outcome,
    )
        ensures { self.new ≡ noted self.old before.now event.now outcome.now (state machine.now) }
    {
        if !waits_on(self.spot.last, event, outcome) {
            self.moments.come(machine, before, event, outcome);
            self.note_wait(event, outcome);
        }
    }

    // The step is over.
    fn end_step(&mut self, event: &Event, outcome: &Outcome)
        ensures { self.new ≡ step_ended self.old event.now outcome.now }
    {
        self.spot.is_within = self.spot.present.is_whole && *outcome == Outcome::Stepped;
        self.spot.last = last_after(event, outcome);
    }
}

impl<B: Allocator> Watch for ColumnRecorder<B> {
    ghost after = { makes columned };

    fn step<M: SlotMap, A: Allocator + Clone, L: Ledger>(
        &mut self,
        machine: &mut Machine<M, A, L>,
        event: Event,
    ) -> Result<Outcome, NoMemory> {
        let before = look(machine, self.told(), &event);
        let outcome = match machine.step(event) {
            Ok(outcome) => outcome,
            Err(refused) => return Err(refused),
        };
        self.begin_line();
        self.begin_column(&event, machine.cores() as u64);
        self.note(machine, &before, &event, &outcome);
        self.end_step(&event, &outcome);
        Ok(outcome)
    }
}
