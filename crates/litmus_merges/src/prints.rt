//! Numbers that two nodes share only by chance, and where nodes are looked for by them. Nothing is believed of either: what is
//! found is compared.

use crate::change::MapChange;
use slot_lock::Change;
use std::alloc::Allocator;
use vm_base::{Back, Errno, Meta, NoMemory, PageRange, Prot, Reply, SegvCode};

/// What a free place has.
const FREE: usize = usize::MAX;

/// For how many nodes there are places at most.
const MOST: usize = 1 << 32;

/// A number and another, mixed.
fn mixed(print: u64, number: u64) -> u64 {
    let mut mixed = (print ^ number).wrapping_mul(0x9e37_79b9_7f4a_7c15);
    mixed ^= mixed >> 29;
    mixed = mixed.wrapping_mul(0xbf58_476d_1ce4_e5b9);
    mixed ^ (mixed >> 32)
}

/// A number for a protection.
fn prot_print(prot: Prot) -> u64 {
    u64::from(prot.read) + 2 * u64::from(prot.write) + 4 * u64::from(prot.exec)
}

/// A number for a range.
fn range_print(print: u64, range: PageRange) -> u64 {
    mixed(mixed(print, range.first), range.end)
}

/// A number for a mapping.
fn meta_print(print: u64, meta: Meta) -> u64 {
    let print = mixed(print, prot_print(meta.prot));
    match meta.back {
        Back::Anon => mixed(print, 1),
        Back::Shared { file, page } => mixed(mixed(mixed(print, 2), u64::from(file)), page),
        Back::Private { file, page } => mixed(mixed(mixed(print, 3), u64::from(file)), page),
    }
}

/// A number for a step, with that of the steps before it.
pub(crate) fn step_print(print: u64, step: MapChange) -> u64 {
    match step {
        MapChange::Change(Change::Put { range, meta }) => {
            meta_print(range_print(mixed(print, 1), range), meta)
        }
        MapChange::Change(Change::Clear { range }) => range_print(mixed(print, 2), range),
        MapChange::Change(Change::Protect { range, prot }) => {
            mixed(range_print(mixed(print, 3), range), prot_print(prot))
        }
        MapChange::Copy { page } => mixed(mixed(print, 4), page),
        MapChange::Own { page, offset, byte } => {
            mixed(mixed(mixed(mixed(print, 5), page), offset), u64::from(byte))
        }
        MapChange::File {
            file,
            page,
            offset,
            byte,
        } => {
            let print = mixed(mixed(mixed(print, 6), u64::from(file)), page);
            mixed(mixed(print, offset), u64::from(byte))
        }
    }
}

/// A number for an error.
fn errno_print(errno: Errno) -> u64 {
    match errno {
        Errno::EINVAL => 1,
        Errno::ENOMEM => 2,
        Errno::EACCES => 3,
        Errno::EBADF => 4,
        Errno::EOVERFLOW => 5,
    }
}

/// A number for a reply, or for none, with that of those before it.
fn reply_print(print: u64, reply: Option<Reply>) -> u64 {
    match reply {
        None => mixed(print, 1),
        Some(Reply::Mapped(addr)) => mixed(mixed(print, 2), addr),
        Some(Reply::Done) => mixed(print, 3),
        Some(Reply::Byte(byte)) => mixed(mixed(print, 4), u64::from(byte)),
        Some(Reply::Refused(errno)) => mixed(mixed(print, 5), errno_print(errno)),
        Some(Reply::Segv(SegvCode::MapErr)) => mixed(print, 6),
        Some(Reply::Segv(SegvCode::AccErr)) => mixed(print, 7),
        Some(Reply::Bus) => mixed(print, 8),
        Some(Reply::NoFrame) => mixed(print, 9),
        Some(Reply::NoMemory) => mixed(print, 10),
    }
}

/// A number for a node of these replies and steps.
pub(crate) fn print_of(told: &[Option<Reply>], steps: &[MapChange]) -> u64 {
    let mut print = 0u64;
    'replies: for k in 0..told.len() {
        let reply = told[k];
        print = reply_print(print, reply);
    }
    'steps: for k in 0..steps.len() {
        let step = steps[k];
        print = step_print(print, step);
    }
    print
}

/// Places, each of them free or with a node's number.
#[derive(Drop)]
pub(crate) struct Seats<A: Allocator> {
    seats: Vec<usize, A>,
}

impl<A: Allocator> Seats<A> {
    /// Free places for this many nodes.
    pub fn new(alloc: A, nodes: usize) -> Result<Seats<A>, NoMemory> {
        let count = nodes.min(MOST) * 2 + 1;
        let seats = vec![in alloc; FREE; count]?;
        Ok(Seats { seats })
    }

    /// Whether one more node beside so many is still found soon.
    pub fn has_room(&self, nodes: usize) -> bool {
        nodes < self.seats.len() / 2
    }

    /// How many places there are.
    pub fn count(&self) -> usize {
        self.seats.len()
    }

    /// The place that is looked at first for this number.
    pub fn first(&self, print: u64) -> usize {
        let count = self.seats.len() as u64;
        if count == 0 {
            return 0;
        }
        (print % count) as usize
    }

    /// The place that is looked at behind this one.
    pub fn next(&self, seat: usize) -> usize {
        let next = seat.wrapping_add(1);
        if next < self.seats.len() { next } else { 0 }
    }

    /// What a place has: a node's number, or one that no node has.
    pub fn at(&self, seat: usize) -> usize {
        if seat < self.seats.len() {
            self.seats[seat]
        } else {
            FREE
        }
    }

    /// Takes a node's number in, at the first free place. Where none is free it stays out.
    pub fn take(&mut self, print: u64, node: usize) {
        let mut seat = self.first(print);
        'seats: for _ in 0..self.count() {
            if self.at(seat) == FREE {
                if seat < self.seats.len() {
                    self.seats[seat] = node;
                }
                return;
            }
            seat = self.next(seat);
        }
    }
}
