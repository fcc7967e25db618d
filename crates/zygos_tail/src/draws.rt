//! Random numbers, and numbers of an exponential distribution.

/// A generator of random numbers.
#[derive(Clone, Copy, Drop)]
pub(crate) struct Draws {
    state: u64,
}

impl Draws {
    /// Makes the generator of a number.
    pub(crate) fn new(number: u64) -> Draws {
        Draws {
            state: mixed(number),
        }
    }

    /// Returns the next number.
    pub(crate) fn next(&mut self) -> u64 {
        self.state = self.state.wrapping_add(0x9E37_79B9_7F4A_7C15);
        mixed(self.state)
    }
}

/// Returns the number with its bits mixed.
pub(crate) fn mixed(number: u64) -> u64 {
    let once = (number ^ (number >> 30)).wrapping_mul(0xBF58_476D_1CE4_E5B9);
    let twice = (once ^ (once >> 27)).wrapping_mul(0x94D0_49BB_1331_11EB);
    twice ^ (twice >> 31)
}

/// Returns the number of an exponential distribution with this mean, at most 2^40, for a random
/// number.
pub(crate) fn exponential(draw: u64, mean: u64) -> u64 {
    // The natural logarithm of 2, times 2^16, is 45,426.
    let nats = halvings(draw).wrapping_mul(45_426) >> 16;
    mean.wrapping_mul(nats) >> 16
}

// Returns how often 2^64 is halved to come to the draw, times 2^16.
fn halvings(draw: u64) -> u64 {
    let mut high = draw | 1;
    let mut count = 1u64;
    for _ in 0..63 {
        if high >= 1 << 63 {
            break;
        }
        high = high.wrapping_mul(2);
        count = count.wrapping_add(1);
    }
    (count << 16).wrapping_sub(fraction(high >> 32))
}

// Returns the logarithm to base 2 of a number of 32 bits over 2^31, times 2^16.
fn fraction(number: u64) -> u64 {
    let mut number = number;
    let mut bits = 0u64;
    for _ in 0..16 {
        number = number.wrapping_mul(number) >> 31;
        bits = bits.wrapping_mul(2);
        if number >= 1 << 32 {
            number /= 2;
            bits |= 1;
        }
    }
    bits
}
