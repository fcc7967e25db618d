//! Hashes of keys, values and uniques. Two that are equal by chance only cost an order.

use zy_base::read_number;

const PRIME: u64 = 0x100000001b3;

// How many bytes at each end of a long value are hashed.
const END: usize = 48;

/// Adds a number to a hash.
pub fn mixed(hash: u64, number: u64) -> u64 {
    let own = hash.wrapping_mul(0xff51afd7ed558ccd) ^ number;
    let more = own.wrapping_mul(0x9e3779b97f4a7c15);
    more ^ (more >> 29)
}

// Adds bytes to a hash.
fn with_bytes(hash: u64, bytes: &[u8]) -> u64 {
    let mut more = hash;
    for byte in bytes {
        more = (more ^ (*byte as u64)).wrapping_mul(PRIME);
    }
    more
}

/// Returns the hash of a key.
pub fn key_hash(key: &[u8]) -> u64 {
    mixed(with_bytes(0, key), 1)
}

/// Returns the hash of a number as the value of a key.
pub fn number_hash(key: u32, number: u64) -> u64 {
    mixed(mixed(2, key as u64), number)
}

/// Returns the hash of a unique of a key.
pub fn unique_hash(key: u32, unique: u64) -> u64 {
    mixed(mixed(3, key as u64), unique)
}

/// Returns the hash of no item at a key.
pub fn absence_hash(key: u32) -> u64 {
    mixed(7, key as u64)
}

/// Returns the hash of the values of a key that are not known.
pub fn unknown_hash(key: u32) -> u64 {
    mixed(8, key as u64)
}

/// Returns the hash of a value of a key; spaces behind a number do not count.
pub fn value_hash(key: u32, value: &[u8]) -> u64 {
    let mut digits = value;
    if value.len() <= END {
        for _ in 0..value.len() {
            match digits {
                [rest @ .., b' '] => digits = rest,
                _ => break,
            }
        }
        if let Some(number) = read_number(digits) {
            return number_hash(key, number);
        }
    }
    let begun = mixed(mixed(4, key as u64), value.len() as u64);
    if value.len() <= 2 * END {
        mixed(with_bytes(begun, value), 5)
    } else {
        let first = with_bytes(begun, value.get(..END).unwrap_or(value));
        let last = value
            .get(value.len().saturating_sub(END)..)
            .unwrap_or(value);
        mixed(with_bytes(first, last), 5)
    }
}
