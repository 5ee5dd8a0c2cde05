//! What the words of the command line ask for.

use machine_model::CallLimit;
use trace_words::show::Show;

/// What a run shows of its trace, and how many calls it lets the trace ask for.
#[derive(Clone, Copy)]
pub struct Shows {
    /// What goes to standard output.
    pub show: Show,
    /// How many calls the trace may ask for, where its log isn't shown.
    pub limit: CallLimit,
    /// Whether the numbers of the run are told, where no fault ended it.
    pub sums: bool,
}

/// Which lines a picture shows, by their numbers.
#[derive(Clone, Copy)]
pub struct LineRange {
    /// The first.
    pub first: u64,
    /// The last one at the most, behind which nothing is looked at.
    pub last: u64,
}

/// Which steps a picture shows, by their numbers.
#[derive(Clone, Copy)]
pub struct StepRange {
    /// The first.
    pub first: u64,
    /// The last one at the most.
    pub last: u64,
}

/// How the lines of a trace are shown beside what they gave.
#[derive(Clone, Copy)]
pub struct Echoed {
    /// Whether they are faint.
    pub coloured: bool,
    /// Whether the entries that they add to the log stand below them.
    pub logs: bool,
}

/// Two lines of a trace, by their numbers.
#[derive(Clone, Copy)]
pub struct LinePair {
    /// The one.
    pub before: u64,
    /// The other.
    pub after: u64,
}

/// Which page is asked about.
#[derive(Clone, Copy)]
pub struct PageAsked {
    /// An address in it.
    pub addr: u64,
    /// The line behind which the state is, where that isn't the last one.
    pub at: Option<u64>,
}

/// What a state may be like.
#[derive(Clone, Copy)]
pub enum Condition {
    /// A translation is stale: a message is to take it away.
    Stale,
    /// A call awaits other cores.
    Waits,
    /// The count of a frame in use is 0.
    Unused,
}

/// A question about the states of a trace.
#[derive(Clone, Copy)]
pub enum Question {
    /// What differs between the states behind two lines.
    Between(LinePair),
    /// What has to do with a page, and since when.
    Page(PageAsked),
    /// Which state is the first that is like this.
    First(Condition),
}

/// What is shown of a trace.
#[derive(Clone, Copy)]
pub enum Drawing {
    /// What happened in the columns of these lines.
    Lines(LineRange),
    /// What happened in these steps.
    Steps(StepRange),
    /// The lives of mappings over all steps, however many there are.
    Lives,
    /// No picture, but the text of the state behind this line, or at the trace's end.
    State(Option<u64>),
    /// The same as JSON.
    Objects(Option<u64>),
    /// The calls of a history, in place of a trace.
    History,
    /// No picture, but the answer to a question about its states.
    Answer(Question),
    /// No picture, but a page that steps through the trace.
    Page,
    /// No picture, but each line with what it changes in the state.
    Changes(Echoed),
    /// No picture, but the list of the mappings at the end, with the names of files, within this limit.
    Listing(CallLimit),
}

/// Which witness is pictured.
#[derive(Clone, Copy)]
pub struct WitnessPicture {
    /// The number of its outcome, from 1.
    pub number: u64,
    /// How many points of orders are looked at, at most.
    pub limit: u64,
    /// What is shown of it.
    pub drawing: Drawing,
}

/// How calls that overlap are judged.
#[derive(Clone, Copy)]
pub struct Overlaps {
    /// A mapping without `MAP_FIXED` may have any place, and not just the first one.
    pub any_place: bool,
    /// Whether their order is given.
    pub is_given: bool,
    /// Whether it is wanted as text.
    pub is_wanted: bool,
}
