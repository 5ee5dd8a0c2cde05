//! Whether the notes of threads are a run of the machine.
//!
//! - `certifying` (`certify`): its face; `order`: notes in order of tickets, each once; `following`: a machine is
//!   given them.
//! - `looks`, `visits`: whether each slot's history goes along; `result`: a certificate, or why there is none;
//!   `laws`.
//!
//! It exists for `certifying::certify`, clause `plain`: the log is a plain page map's, and clause `ok`: the notes are
//! a run. `laws::certificates_are_exact` says what a refusal rules out. It needs no space: notes and histories are
//! all that it is given.
#![tactic(auto)]

pub mod certifying;
pub mod following;
pub mod laws;
pub mod looks;
pub mod order;
pub mod result;
pub mod visits;

pub use certifying::{certify, certify_standing};
pub use result::{Certified, CertifyFault};
