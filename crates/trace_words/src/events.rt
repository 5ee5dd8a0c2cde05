//! The event of the machine that a core's action is.
ghost use Rattle.std.specs.Prelude.{◌≡◌};
ghost use Rattle.trace_words.specs.Events.{event_of};

use machine_model::Event;
use trace_text::Action;
use vm_base::CoreId;

/// The event that the core's action is.
pub fn event_of(core: CoreId, action: Action) -> Event
    ensures { result ≡ event_of core action }
{
    match action {
        Action::Call(request) => Event::Call(core, request),
        Action::Go => Event::Go(core),
        Action::Take => Event::Take(core),
        Action::Flush => Event::Flush(core),
        Action::Review => Event::Review(core),
        Action::GiveUp => Event::GiveUp(core),
        Action::Frame(frame) => Event::Frame(core, frame),
        Action::Guess(page) => Event::Guess(core, page),
        Action::Whole => Event::Whole(core),
        Action::Walk(page) => Event::Walk(core, page),
        Action::Evict(page) => Event::Evict(core, page),
    }
}
