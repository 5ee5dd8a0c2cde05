//! Steps of a call one after another, with no other core's between them: the way of nearly every call.
//! A function `.._at_once` of the engine counts the events of its steps, calls their work in `rows`, and
//! writes the call's phase once, at its end. What it says is that this many plain steps lead to the same
//! state; where a step may have to wait, to take memory or to tell other cores, it makes none.
pub mod access;
pub mod change;
pub mod fault;
pub mod range;
pub mod starting;
pub mod steps;
