//! Which replies the calls of several cores can have, by all merges of them.
//!
//! - `exploring` (`explore`), `nodes`, `turning`, `ending`: merges, and the ends that they come to; `seen`, `prints`,
//!   `numbers`: told apart.
//! - `change`, `normal`, `passing`, `protecting`, `runs`, `reading`, `mappings`: the map as a list of changes.
//! - `asked`, `opening`, `finals`: the calls, what comes before them, and loads that come after; `laws`.
//!
//! It exists for `exploring::explore`, clauses `reached`, `once` and `all`. No machine and no events are known here.
#![tactic(auto)]

pub mod asked;
pub mod change;
mod ending;
pub mod exploring;
mod finals;
pub mod laws;
mod mappings;
mod nodes;
mod normal;
mod numbers;
pub mod opening;
mod passing;
mod prints;
mod protecting;
mod reading;
mod runs;
mod seen;
mod turning;

pub use asked::Asked;
pub use change::MapChange;
pub use ending::End;
pub use exploring::{Explored, explore};
pub use mappings::are_same_maps;
pub use opening::{are_named, lead};
