//! A search of all orders of a few calls, which can tell that there is none.
//!
//! - `searching` (`search_all`): the search; `placing`: which items may stand behind others; `fresh`: the map in
//!   which nothing is mapped.
//!
//! Unlike `order_search` it leaves out nothing that isn't proved to be no order: `searching::search_all`. It takes at
//! most 64 calls.
#![tactic(auto)]

mod fresh;
mod placing;
mod searching;

pub use fresh::files_again;
pub use searching::{Answer, MOST, search_all};
