//! The hash of the addresses and ports of a packet.
ghost use Rattle.std.specs.Prelude.{◌≡◌, ◌<◌};
ghost use Rattle.zy_rss.specs.Toeplitz as hashes;

use crate::windows::WINDOWS;

/// Returns the hash of twelve bytes: source address, destination address, source port, destination
/// port, each with its highest byte first. Takes no memory.
pub fn toeplitz(input: &[u8; 12]) -> u32
    ensures value { result ≡ hashes.toeplitz input.now }
{
    let mut hash = 0;
    for place in 0..96 {
        hash ^= term(input, place);
    }
    hash
}

// Returns what this bit of the input adds to the hash.
#[tactic(auto, using(crate::proofs::WindowLemmas::window_at))]
fn term(input: &[u8; 12], place: usize) -> u32
    requires within { place < 96 }
    ensures value { result ≡ hashes.term input.now place }
{
    if (input[place / 8] >> (7 - place % 8)) % 2 == 1 {
        WINDOWS[place]
    } else {
        0
    }
}
