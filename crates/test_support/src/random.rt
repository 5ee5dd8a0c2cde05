//! Numbers that look random.

/// Numbers that look random, the same from the same start (Marsaglia, Xorshift RNGs, 2003).
#[derive(Clone, Copy, Drop)]
pub struct Random {
    state: u64,
}

impl Random {
    /// The numbers from a start on.
    pub fn new(start: u64) -> Random {
        Random {
            state: start.wrapping_mul(0x9e37_79b9_7f4a_7c15).wrapping_add(1),
        }
    }

    /// A number of 32 bits.
    pub fn next(&mut self) -> u64 {
        let mut x = self.state;
        x ^= x << 13;
        x ^= x >> 7;
        x ^= x << 17;
        self.state = x;
        x >> 32
    }
}
