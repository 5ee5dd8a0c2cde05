//! The entries of a log as a ledger that keeps them lends them.
ghost use Rattle.std.specs.Prelude.{◌≡◌, ◌<◌, ◌≤◌, [], ◌==◌, Some, drop, length, slice_get};
ghost use Rattle.machine_log.specs.Packing.{listed, unpacked};

use crate::ledger::packing::{PackedEntry, unpacked};
use vm_base::Entry;

/// Entries in order: packed ones beside those that stand in full, or else a plain slice.
#[derive(Clone, Copy)]
pub struct LoggedEntries<'a> {
    packed: &'a [PackedEntry],
    in_full: &'a [Entry],
    plain: &'a [Entry],
}

impl<'a> LoggedEntries<'a> {
    /// The entries of the slice.
    pub fn of(plain: &'a [Entry]) -> LoggedEntries<'a>
        ensures { listed result ≡ plain.now }
    {
        LoggedEntries {
            packed: &[],
            in_full: &[],
            plain,
        }
    }

    // Packed entries, beside those that stand in full.
    pub(crate) fn of_packed(packed: &'a [PackedEntry], in_full: &'a [Entry]) -> LoggedEntries<'a>
        ensures { listed result ≡ unpacked in_full.now packed.now }
    {
        LoggedEntries {
            packed,
            in_full,
            plain: &[],
        }
    }

    /// How many entries there are.
    #[inline(always)]
    pub fn len(&self) -> usize
        ensures { result ≡ length (listed self.now) }
    {
        if self.packed.is_empty() {
            self.plain.len()
        } else {
            self.packed.len()
        }
    }

    /// Tells whether there is none.
    pub fn is_empty(&self) -> bool
        ensures { result ≡ (length (listed self.now) == 0) }
    {
        self.packed.is_empty() && self.plain.is_empty()
    }

    /// The entry at the place, from 0.
    #[inline(always)]
    pub fn get(&self, at: usize) -> Entry
        requires { at < length (listed self.now) }
        ensures { slice_get (listed self.now) at ≡ Some result }
    {
        if self.packed.is_empty() {
            self.plain[at]
        } else {
            unpacked(&self.packed[at], self.in_full)
        }
    }

    /// The entries behind the first ones, of which there are this many.
    pub fn behind(&self, first: usize) -> LoggedEntries<'a>
        requires { first ≤ length (listed self.now) }
        ensures { listed result ≡ drop first (listed self.now) }
    {
        if self.packed.is_empty() {
            return LoggedEntries::of(&self.plain[first..]);
        }
        LoggedEntries {
            packed: &self.packed[first..],
            in_full: self.in_full,
            plain: &[],
        }
    }
}
