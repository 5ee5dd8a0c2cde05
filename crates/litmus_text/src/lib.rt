//! A litmus test as text, read to the test or to its first fault.
//!
//! - `script` (`read_litmus`), `kinds`, `facts`: the test, its lines and its clauses; `places`: where a call stands;
//!   `faults`: why it is none.
//!
//! It exists for `script::read_litmus`. It knows nothing of what comes out.
#![tactic(auto)]

pub mod facts;
pub mod faults;
pub mod kinds;
pub mod places;
pub mod script;

pub use facts::{Connective, Fact, Term};
pub use faults::LitmusFault;
pub use kinds::Quantifier;
pub use script::{Clause, LitmusTest, read_litmus};
