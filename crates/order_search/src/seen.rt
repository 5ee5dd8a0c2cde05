//! Which configurations were seen in a round, by their prints: numbers that two of them share only by chance.

use std::alloc::Allocator;
use vm_base::NoMemory;

/// How many places there may be: more than half of them stay free.
const PLACES: usize = 1 << 20;

/// The number of the last place that a round uses at first, so that all stay in the processor's cache, and at most.
const FEW: u64 = (1 << 10) - 1;

const MOST: u64 = (1 << 20) - 1;

// A place that no round has taken.
const FREE: Seat = Seat { round: 0, print: 0 };

// A place: the round in which it was taken, and by which print.
#[derive(Clone, Copy)]
struct Seat {
    round: u64,
    print: u64,
}

/// The prints of this round. The mask is the number of the last place that it uses.
#[derive(Drop)]
pub(crate) struct Seen<A: Allocator> {
    seats: Vec<Seat, A>,
    prints: Vec<u64, A>,
    round: u64,
    mask: u64,
}

impl<A: Allocator + Clone + Drop> Seen<A> {
    /// Nothing was seen.
    pub fn new(alloc: &A) -> Result<Seen<A>, NoMemory> {
        Ok(Seen {
            seats: vec![in alloc.clone()?; FREE; 1024]?,
            prints: Vec::new(alloc.clone()?),
            round: 0,
            mask: FEW,
        })
    }

    /// Begins a round, in which nothing was seen.
    pub fn begin(&mut self) {
        self.round = self.round.wrapping_add(1);
        self.prints.clear();
        self.mask = FEW;
    }

    // Takes a print in, and tells whether it is new in this round. It isn't where no place is free.
    fn put(&mut self, print: u64) -> bool {
        let mut at = print & self.mask;
        for _ in 0..PLACES {
            let seat = match self.seats.get(at as usize) {
                Some(seat) => *seat,
                None => return false,
            };
            if seat.round != self.round {
                if let Some(place) = self.seats.get_mut(at as usize) {
                    *place = Seat {
                        round: self.round,
                        print,
                    };
                }
                return true;
            }
            if seat.print == print {
                return false;
            }
            at = at.wrapping_add(1) & self.mask;
        }
        false
    }

    /// Tells whether a print was taken in in this round.
    pub fn has(&self, print: u64) -> bool {
        let mut at = print & self.mask;
        for _ in 0..PLACES {
            match self.seats.get(at as usize) {
                Some(seat) if seat.round == self.round => {
                    if seat.print == print {
                        return true;
                    }
                }
                _ => return false,
            }
            at = at.wrapping_add(1) & self.mask;
        }
        false
    }

    // Uses more places.
    fn widen(&mut self) -> Result<(), NoMemory> {
        let mask = (self.mask.wrapping_mul(16) | 15).min(MOST);
        let places = (mask as usize).saturating_add(1);
        if self.seats.len() < places {
            self.seats.resize(places, FREE)?;
        }
        self.round = self.round.wrapping_add(1);
        self.mask = mask;
        for at in 0..self.prints.len() {
            if let Some(print) = self.prints.get(at).copied() {
                let _ = self.put(print);
            }
        }
        Ok(())
    }

    /// Takes a print in, and tells whether it is new in this round. It isn't where no place is free.
    pub fn is_new(&mut self, print: u64) -> Result<bool, NoMemory> {
        if !self.put(print) {
            return Ok(false);
        }
        self.prints.push(print)?;
        if self.prints.len() as u64 > self.mask / 2 && self.mask < MOST {
            self.widen()?;
        }
        Ok(true)
    }
}
