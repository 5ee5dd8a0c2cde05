//! What cores know of the machine.
use std::collections::LinkedList;
use vm_base::{Entry, Reply, Request};

/// The requests of the calls begun, and the entries of the log. No value of it is made.
pub struct SeenLog {
    pub requests: LinkedList<Request>,
    pub entries: LinkedList<Entry>,
}

/// A call that was replied, with its reply.
#[derive(Clone, Copy)]
pub struct Replied {
    pub request: Request,
    pub reply: Reply,
}

/// A core's turn: it took the machine, used it, and gave it back as this one. No value of it is made.
pub struct Turn<S> {
    pub core: u64,
    pub machine: S,
}

/// What a core that was taken in knew: the turns so far, and the calls that it had made. No value of it is made.
pub struct JoinedCore<S> {
    pub core: u64,
    pub turns: LinkedList<Turn<S>>,
    pub mine: LinkedList<Replied>,
}
