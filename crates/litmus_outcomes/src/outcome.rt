//! What comes before the calls, and what can come out of them.
use machine_model::Event;
use slot_lock::MapLine;
use std::alloc::Allocator;
use vm_base::{CoreId, Reply, Request};

/// One line of the opening.
#[derive(Clone, Copy)]
pub enum Opened {
    /// One event.
    Step(Event),
    /// A call, with its steps until one isn't Stepped.
    Whole(CoreId, Request),
    /// Steps of the core's call until one isn't Stepped.
    Finish(CoreId),
}

/// What can come out of the calls behind the opening.
#[derive(Drop)]
pub struct Outcomes<A: Allocator> {
    /// The opening, event by event.
    pub opening: Vec<Event, A>,
    /// What was found, no two with the same replies, finals and mappings.
    pub list: Vec<LitmusOutcome<A>, A>,
    /// Whether nothing else can come out. `false` where the limit of points was reached.
    pub whole: bool,
}

/// One of the outcomes.
#[derive(Drop)]
pub struct LitmusOutcome<A: Allocator> {
    /// The reply to each call, in the order of the calls.
    pub replies: Vec<Reply, A>,
    /// What a load of each address that was asked for is answered once all calls are.
    pub finals: Vec<Reply, A>,
    /// All mappings then, in order, where they were asked for.
    pub maps: Vec<MapLine, A>,
    /// Events behind the opening's that perform the calls with these replies; with none the outcome is open.
    pub witness: Option<Vec<Event, A>>,
}
