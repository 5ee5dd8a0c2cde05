//! Rounds, and how long they take.
use std::rt::Clock;
use std::time::Instant;

/// What is timed, round by round.
pub trait Part: Drop {
    /// One round at a place; tells whether it did what it should.
    fn round(&mut self, place: u64) -> bool;
}

/// The places of rounds: from the first number on, each so many after the last as the second says, modulo
/// the third, which is above both.
pub type Places = (u64, u64, u64);

/// How many of so many rounds did what they should.
fn make_rounds<P: Part>(part: &mut P, places: Places, rounds: u64) -> u64 {
    let (mut place, by, count) = places;
    let mut done = 0u64;
    'rounds: for _ in 0..rounds {
        let next = place.wrapping_add(by);
        place = if next < count {
            next
        } else {
            next.wrapping_sub(count)
        };
        if part.round(place) {
            done = done.wrapping_add(1);
        }
    }
    done
}

/// The nanoseconds since then.
pub fn since(rt: &impl Clock, start: Instant) -> Option<u128> {
    let took = start.elapsed(rt).ok()?;
    Some(took.as_nanos())
}

/// The nanoseconds of so many rounds of the part; none where memory for it was refused, or a round didn't
/// do what it should.
pub fn time<P: Part>(
    rt: &impl Clock,
    part: Option<P>,
    places: Places,
    rounds: u64,
) -> Option<u128> {
    let Some(mut part) = part else {
        return None;
    };
    let start = Instant::now(rt).ok()?;
    if make_rounds(&mut part, places, rounds) != rounds {
        return None;
    }
    since(rt, start)
}
