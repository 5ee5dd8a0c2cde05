//! The judgement of a history: by one moment for each call, and by the rule that kernels keep.
//!
//! - `telling` (`judge_calls`): by one moment, and by the kernels' rule where there is no such order; `besides`: what is
//!   said of that.
//! - `kernel` (`judge_by_rule`): the ruling by the kernels' rule alone; `kernel_telling`: a text read whole; `waiting`:
//!   calls that wait when a text ends.
//!
//! It exists for `kernel::judge_by_rule`, clause `ok`, and `telling::judge_calls`, clause `ends`: `legal`, `no order` and
//! `legal by --kernel` go out only where they hold.
#![tactic(auto)]

pub mod besides;
pub mod kernel;
pub mod kernel_telling;
pub mod telling;
mod waiting;

pub use besides::Besides;
pub use kernel_telling::judge_by_kernel;
pub use telling::{Judged, Manner, Maps, judge_calls};
