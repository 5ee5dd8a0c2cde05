//! How far a long import has come, as standard error shows it.

use import_steps::meter::Meter;
use std::io::Write;

/// From so many lines on an import shows how far it has come: at 20 MB a second it takes two seconds then. No clock is
/// at hand.
const LONG: usize = 400_000;

/// Shows how far an import has come, where that is wanted and its log is long.
#[derive(Drop)]
pub struct Progress<'a, E> {
    errors: &'a mut E,
    is_wanted: bool,
    is_shown: bool,
}

impl<'a, E: Write> Progress<'a, E> {
    /// Nothing is shown yet.
    pub fn new(errors: &'a mut E, is_wanted: bool) -> Progress<'a, E> {
        Progress {
            errors,
            is_wanted,
            is_shown: false,
        }
    }

    /// Takes away what is shown.
    pub fn clear(&mut self) {
        if self.is_shown {
            let _ = self.errors.write_all(b"\r                              \r");
            self.is_shown = false;
        }
    }
}

impl<'a, E: Write> Meter for Progress<'a, E> {
    fn tell(&mut self, part: u8, done: usize, all: usize) {
        if !self.is_wanted || all < LONG {
            return;
        }
        let hundredth = all / 100;
        let percent = done / hundredth;
        self.is_shown = true;
        let _ = write!(self.errors, "\rimport: part {part}, {percent} % ");
    }
}
