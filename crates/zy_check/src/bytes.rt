//! Comparing bytes.
ghost use Rattle.std.specs.Prelude.{◌≡◌, ◌≤◌, length};
ghost use Rattle.zy_check.specs.Cause.{agreeing};

/// Counts the first bytes of two texts that agree.
pub fn agreeing(one: &[u8], other: &[u8]) -> usize
    ensures value { result ≡ agreeing one.now other.now }
    ensures few { result ≤ length one.now }
{
    // Usually all of `other` matches, and slices are compared faster than bytes.
    if one.starts_with(other) {
        return other.len();
    }
    first_difference(one, other)
}

// Counts the first bytes of two texts that agree, byte by byte.
fn first_difference(one: &[u8], other: &[u8]) -> usize
    ensures value { result ≡ agreeing one.now other.now }
    ensures few { result ≤ length one.now }
{
    for at in 0..one.len() {
        if other.len() <= at || one[at] != other[at] {
            return at;
        }
    }
    one.len()
}
