//! A core's hardware: loads that its TLB has, loads that fill it, and table entries that are dropped.
ghost use Rattle.std.specs.Prelude.{◌≡◌, ◌<◌, true};
ghost use Rattle.vm_base.specs.Pages.{is_page};

use crate::timing::{Part, since};
use mmu::{Cpu, Hardware, Translated};
use std::alloc::Global;
use std::rt::Clock;
use std::time::Instant;
use vm_base::{Access, NoMemory, PageRange, Prot};

const READ_WRITE: Prot = Prot {
    read: true,
    write: true,
    exec: false,
};

/// Where pages stand.
pub trait Spread: Drop {
    /// The page of a place.
    fn page(&self, place: u64) -> u64
        ensures { is_page result ≡ true };
}

/// Eight pages from one to the next, so that no two of 64 share a set of the TLB: the translations of
/// one hash, which are looked through one after another.
#[derive(Drop)]
pub struct Apart;

impl Spread for Apart {
    fn page(&self, place: u64) -> u64 {
        4096 + place % 1024 * 8
    }
}

/// Eight of 64 pages share a set.
#[derive(Drop)]
pub struct EightSets;

impl Spread for EightSets {
    fn page(&self, place: u64) -> u64 {
        4096 + place % 8 + place / 8 % 8 * (1 << 32)
    }
}

/// All of 64 pages share a set.
#[derive(Drop)]
pub struct OneSet;

impl Spread for OneSet {
    fn page(&self, place: u64) -> u64 {
        4096 + place % 8 * (1 << 29) + place / 8 % 8 * (1 << 32)
    }
}

/// A core with a table entry of each of so many pages, one of which is loaded: a hit of the TLB, or a
/// fill of it.
#[derive(Drop)]
pub struct Loads<P> {
    cpu: Cpu<Global>,
    pages: P,
    is_hit: bool,
}

/// 64 pages, which the TLB has all at once.
pub fn hits<P: Spread>(alloc: Global, pages: P) -> Option<Loads<P>> {
    installed(alloc, pages, 64, true)
}

/// So many pages, more than the TLB has, so that each went from it before it is loaded again in turn.
pub fn misses(alloc: Global, count: u16) -> Option<Loads<Apart>> {
    installed(alloc, Apart, count, false)
}

fn installed<P: Spread>(alloc: Global, pages: P, count: u16, is_hit: bool) -> Option<Loads<P>> {
    let mut cpu = Cpu::new(alloc).ok()?;
    'pages: for place in 0..count {
        let page = pages.page(u64::from(place));
        cpu.install(page, u32::from(place), READ_WRITE).ok()?;
        if is_hit {
            cpu.translate(page, Access::Load);
        }
    }
    Some(Loads { cpu, pages, is_hit })
}

impl<P: Spread> Part for Loads<P> {
    fn round(&mut self, place: u64) -> bool {
        let page = self.pages.page(place);
        match self.cpu.translate(page, Access::Load) {
            Translated::Hit(frame) => self.is_hit && u64::from(frame) == place,
            Translated::Fill(frame) => !self.is_hit && u64::from(frame) == place,
            Translated::Fault => false,
        }
    }
}

/// 2^27 pages.
const RANGE: PageRange = PageRange {
    first: 0x800_0000,
    end: 0x1000_0000,
};

/// The page of a place among ten that are spread over the range.
fn page_at(place: u64) -> u64
    requires { place < 10 }
    ensures { is_page result ≡ true }
{
    0x800_0000 + 13_421_772 * place
}

/// Sets the entries of the ten pages. Their tables stay when entries are dropped, so only the first
/// time takes memory.
fn install(cpu: &mut Cpu<Global>) -> Result<(), NoMemory> {
    'pages: for place in 0..10u64 {
        cpu.install(page_at(place), place as u32, READ_WRITE)?;
    }
    Ok(())
}

/// The nanoseconds of so many clears, each after the ten entries were set again, which isn't
/// counted; none where memory is refused.
pub fn time_clears(rt: &impl Clock, alloc: Global, rounds: u64) -> Option<u128> {
    let mut cpu = Cpu::new(alloc).ok()?;
    let mut nanos = 0u128;
    'rounds: for _ in 0..rounds {
        install(&mut cpu).ok()?;
        let start = Instant::now(rt).ok()?;
        cpu.clear_tables(RANGE);
        nanos = nanos.wrapping_add(since(rt, start)?);
    }
    Some(nanos)
}
