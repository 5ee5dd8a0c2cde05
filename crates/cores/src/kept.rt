//! A call of a core.

use orders::Timed;

/// A call of a core.
#[derive(Clone, Copy)]
pub struct Kept {
    /// Its number in the history.
    pub number: usize,
    /// What it does within the core's pages, at its times.
    pub timed: Timed,
    /// It may not have taken effect yet, or before the core's first call.
    pub is_open: bool,
}
