//! A script run on threads over one machine that all share: its replies and its log.
//!
//! - `running` (`run_shared`), `tasks`, `lane`: each core's tasks on a thread; `logged`: machines that keep their
//!   log.
//! - `texts` (`share_text`), `writing`: what is written of it; `fault`: why it wasn't run.
//!
//! It exists for `running::run_shared`, clause `ran`: the log has the calls with the replies that each thread was
//! told. No run needs a certificate.
#![tactic(auto)]

pub mod fault;
pub mod lane;
pub mod logged;
pub mod running;
mod tasks;
pub mod texts;
pub mod writing;

pub use fault::SharedFault;
pub use logged::{Logged, Tree};
pub use running::{RunMachine, run_shared};
pub use texts::share_text;
