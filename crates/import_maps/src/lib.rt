//! The requests of a trace as an import keeps them, and what they map.
//!
//! - `names`: where the name of a mapping's file is.
//! - `steps` (`TraceRequests`): requests, kept small.
//! - `ranges`: what is mapped where, with its rights, flags and files.
//!
//! It exists for `steps::TraceRequests::parts_mapped`: the ranges are those of all requests so far, and only the requests
//! since its last call are looked at. It doesn't know what a log is.
#![tactic(auto)]

pub mod names;
pub mod ranges;
pub mod steps;
