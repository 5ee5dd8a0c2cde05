//! Lines of a trace taken apart into events by hand, to compare with what `trace` makes of them.
use machine_model::{Event, Outcome};
use std::alloc::Global;
use trace_text::{Action, Line};
use vm_base::{CoreId, NoMemory, Request};

/// What takes events one by one.
pub trait Moves {
    /// One event.
    fn take(&mut self, event: Event) -> Result<Outcome, NoMemory>;

    /// Appends all that can be seen from outside: the log, the list of mappings, and the entries of
    /// the cores' tables.
    fn push_state(&self, alloc: Global, out: &mut String<Global>) -> Result<(), NoMemory>;
}

fn event_of(core: CoreId, action: Action) -> Event {
    match action {
        Action::Call(request) => Event::Call(core, request),
        Action::Go => Event::Go(core),
        Action::Take => Event::Take(core),
        Action::Flush => Event::Flush(core),
        Action::Review => Event::Review(core),
        Action::GiveUp => Event::GiveUp(core),
        Action::Frame(frame) => Event::Frame(core, frame),
        Action::Guess(page) => Event::Guess(core, page),
        Action::Whole => Event::Whole(core),
        Action::Walk(page) => Event::Walk(core, page),
        Action::Evict(page) => Event::Evict(core, page),
    }
}

/// The first outcome of the core's call that isn't Stepped. No call of a test has so many steps.
fn finished<S: Moves>(space: &mut S, core: CoreId) -> Result<Outcome, NoMemory> {
    for _step in 0..1_000_000u64 {
        let outcome = space.take(Event::Go(core))?;
        if outcome != Outcome::Stepped {
            return Ok(outcome);
        }
    }
    Ok(Outcome::Stepped)
}

fn called<S: Moves>(space: &mut S, core: CoreId, request: Request) -> Result<Outcome, NoMemory> {
    let outcome = space.take(Event::Call(core, request))?;
    if outcome == Outcome::Stepped {
        finished(space, core)
    } else {
        Ok(outcome)
    }
}

/// What a line comes to that has events.
fn outcome_of_line<S: Moves>(space: &mut S, line: Line) -> Result<Outcome, NoMemory> {
    match line {
        Line::Act(core, action) => space.take(event_of(core, action)),
        Line::Fold(page) => space.take(Event::Fold(page)),
        Line::Finish(core) => finished(space, core),
        Line::Now(core, request) => called(space, core, request),
        Line::Blank | Line::Space { .. } | Line::File { .. } => Ok(Outcome::Idle),
    }
}

/// What a line comes to, if it has events.
pub fn outcome_of<S: Moves>(
    space: &mut S,
    line: Option<Line>,
) -> Result<Option<Outcome>, NoMemory> {
    match line {
        None | Some(Line::Blank | Line::Space { .. } | Line::File { .. }) => Ok(None),
        Some(line) => {
            let outcome = outcome_of_line(space, line)?;
            Ok(Some(outcome))
        }
    }
}
