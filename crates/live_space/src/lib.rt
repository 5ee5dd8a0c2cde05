//! One address space that threads share, from its making to its end.
//!
//! - `space` (`Live`), `making`, `closing`: what lies under its locks, from its making to its end; `fault`: why a
//!   call didn't begin.
//! - `call`, `in_call`, `access`, `placing`, `changing`, `commit`, `ending`, `giving_up`: a call on its way;
//!   `locking`: its slots.
//! - `counting`: a flush and a review; `gate`: where a test may hold a call.
//!
//! It exists for `call::Live::call`, clause `noted`: a call adds just its own steps to its seat's notes. That what
//! threads do together is a run isn't proved: `certifier` checks each run.
//!
//! Steps that touch only what a call holds share one burst of locks: begin and check; decision, post and change; a
//! served access and its answer; all slots let go and the answer.
#![tactic(auto)]

mod access;
pub mod call;
mod changing;
pub mod closing;
mod commit;
pub mod counting;
mod ending;
pub mod fault;
pub mod gate;
mod giving_up;
mod in_call;
mod locking;
pub mod making;
mod placing;
pub mod space;
