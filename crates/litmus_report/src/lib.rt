//! What is told of a litmus test: outcomes, clauses, witnesses, and its C.
//!
//! - `reporting`, `texts`, `outcome`, `mappings`: outcomes in order; `verdict`: what clauses come to; `witness`: a
//!   trace that `run` reads.
//! - `counting`: counts of another system, judged; `program`, `program_text`: a test as a program for a kernel.
//!
//! It exists for `counting::judge_counts` and `verdict::judge`. It lists nothing itself.
#![tactic(auto)]

pub mod counting;
mod mappings;
mod outcome;
pub mod program;
mod program_text;
pub mod reporting;
pub mod texts;
pub mod verdict;
pub mod witness;

pub use counting::{Judged, bad_count, judge_counts};
pub use mappings::add_mappings;
pub use program::{Program, program_of};
pub use reporting::{Row, Searched, in_order, report, status_of};
pub use texts::outcome_text;
pub use verdict::{ClauseVerdict, HasOutcome, Named, judge};
pub use witness::trace_of;
