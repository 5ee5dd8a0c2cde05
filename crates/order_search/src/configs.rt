//! Configurations: a map, and which of the calls under way have taken effect.

use crate::arena::Spot;

/// A configuration.
#[derive(Clone, Copy)]
pub(crate) struct Config {
    /// Where its map is.
    pub spot: Spot,
    /// The bits of the calls under way that have taken effect.
    pub done: u64,
    /// The bits of those that may have taken effect, unseen behind a change of all their pages, or may yet.
    pub free: u64,
    /// The node of the last item that took effect.
    pub trail: usize,
}

impl Config {
    /// The first one: nothing is mapped, and no call has taken effect.
    pub fn first() -> Config {
        Config {
            spot: Spot::empty(),
            done: 0,
            free: 0,
            trail: 0,
        }
    }
}
