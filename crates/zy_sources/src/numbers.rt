//! Small numbers, which name calls and keys.

/// No call, or no key.
pub const NONE: u32 = u32::MAX;

/// Returns an offset as a small number; `NONE` if it is too large.
pub fn small(offset: usize) -> u32 {
    u32::try_from(offset).unwrap_or(NONE)
}

/// Returns the number at an offset of a list; `NONE` if there is none.
pub fn at(list: &[u32], offset: u32) -> u32 {
    match list.get(offset as usize) {
        Some(number) => *number,
        None => NONE,
    }
}

/// Puts a number at an offset of a list.
pub fn put(list: &mut [u32], offset: u32, number: u32) {
    if let Some(own) = list.get_mut(offset as usize) {
        *own = number;
    }
}

/// Returns the time at an offset of a list, or the last of all.
pub fn time_at(list: &[u64], offset: u32) -> u64 {
    match list.get(offset as usize) {
        Some(time) => *time,
        None => u64::MAX,
    }
}
