//! The state of a machine as text or as JSON.
//!
//! - `texts`, `page_texts`, `counts`: one walk of a state, which writes lines in either `form`; `words`: what a call
//!   does; `fronts`: a trace up to a line.
//! - `laws`, `count_laws`: what the texts show.
//!
//! It exists for `laws::mirrors_know_states`. It is handed what `state_seen` knows.
#![tactic(auto)]

pub mod count_laws;
pub mod counts;
pub mod form;
pub mod fronts;
pub mod laws;
mod page_texts;
pub mod texts;
pub mod words;

pub use form::Form;
