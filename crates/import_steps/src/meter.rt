//! Who is told how far an import has come.

/// Who is told how far long work has come. What it does with that changes nothing of the work.
pub trait Meter {
    /// Of this part of the work, counted from 1, so many lines of all are done.
    fn tell(&mut self, part: u8, done: usize, all: usize);
}

/// Nobody is told.
#[derive(Clone, Copy)]
pub struct Unmetered;

impl Meter for Unmetered {
    fn tell(&mut self, part: u8, done: usize, all: usize) {
        let _ = (part, done, all);
    }
}

/// Tells how far the work has come, once in 4,096 lines.
pub fn tell_of<M: Meter>(meter: &mut M, part: u8, done: usize, all: usize) {
    if done % 4096 == 0 {
        meter.tell(part, done, all);
    }
}
