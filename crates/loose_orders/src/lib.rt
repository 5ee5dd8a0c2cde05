//! Whether given moves are an order of overlapping calls by the rule that kernels keep (specs/Kernel.antt).
//!
//! By this rule a change takes effect whole, and until it is over an access may still go by what it has replaced.
//!
//! - `moves`: what an order has at its places; `kernel`, `leading`, `behind`, `late`: what moves lead to; `keeping`:
//!   what is kept of replaced entries; `between`: what comes between a change and an access.
//! - `timely`: the calls without the accesses that may be late.
//!
//! It exists for `obeying::obey`, whether given moves are such an order, and `laws`: calls that have an order at one
//! moment have one, and without the accesses that may be late these have one at one moment. It searches nothing.
#![tactic(auto)]

mod behind;
mod between;
mod keeping;
mod kernel;
mod late;
pub mod laws;
mod leading;
pub mod moves;
pub mod obeying;
mod timely;

pub use moves::Move;
pub use obeying::obey;
pub use timely::{none_is_part, taken};
