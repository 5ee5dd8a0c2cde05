//! Whether replies of others, one after another, are those of the plain page map.
//!
//! - `auditor` (`Auditor`): the map, and the replies beside it; `judging`: the verdict on one reply.
//! - `holding`, `changing`, `storing`, `copying`, `bytes`: the map as slots, with frames for bytes of pages and of
//!   files.
//! - `placing`, `serving`: where a mapping may be put, and whether an access would be served.
//!
//! It exists for `auditor::Auditor::judge`: legal just where the map gives the reply, and `laws::audits_are_exact`.
//! It knows of no machine, core or table.
#![tactic(auto)]

pub mod auditor;
mod bytes;
mod changing;
mod copying;
mod holding;
mod judging;
pub mod laws;
mod placing;
mod serving;
mod storing;

pub use auditor::{Auditor, Call, Wrong};
pub use judging::ReplyVerdict;
