//! The first line of an item.
ghost use Rattle.std.specs.Prelude.{◌≡◌, option_map};
ghost use Rattle.std.specs.Option.{option_and_then};
ghost use Rattle.mc_answered.specs.Reading.{halves_at, number_before, unique_of, length_stop, heading_with};
ghost use Rattle.mc_answered.specs.Reading.{heading_counted, heading_flagged, heading_named, heading_after, heading_of};
ghost use Rattle.mc_answered.specs.Halved.{halves_seen, heading_seen};

use crate::text::{Halved, after_front, halve_at, read_decimal};

/// What the first line of an item says.
#[derive(Clone, Copy)]
pub struct Heading<'a> {
    pub key: &'a [u8],
    pub flags: u32,
    /// The number of the value's bytes.
    pub count: u64,
    /// 0 if the line shows none.
    pub unique: u64,
}

/// Reads the first line of an item, with its unique if uniques were asked for.
pub fn read_heading(line: &[u8], asked: bool) -> Option<Heading<'_>>
    ensures value { option_map heading_seen result ≡ heading_of asked line.now }
{
    match after_front(line, b"VALUE ") {
        Some(text) => read_after(text, asked),
        None => None,
    }
}

// Reads what is after the first word.
fn read_after(text: &[u8], asked: bool) -> Option<Heading<'_>>
    ensures value { option_map heading_seen result ≡ heading_after asked text.now }
{
    match halve_at(text, b' ') {
        Some(named) => read_named(named, asked),
        None => None,
    }
}

// Reads what is after the key.
fn read_named(named: Halved<'_>, asked: bool) -> Option<Heading<'_>>
    ensures value { option_map heading_seen result ≡ heading_named asked (halves_seen named.entry) }
{
    match halve_at(named.rest, b' ') {
        Some(flagged) => read_flagged(named.front, flagged, asked),
        None => None,
    }
}

// Reads what is after the flags.
fn read_flagged<'a>(key: &'a [u8], flagged: Halved<'_>, asked: bool) -> Option<Heading<'a>>
    ensures value { option_map heading_seen result ≡ heading_flagged asked key.now (halves_seen flagged.entry) }
{
    match halve_at(flagged.rest, length_stop(asked)) {
        Some(counted) => read_counted(key, flagged.front, counted, asked),
        None => None,
    }
}

// Reads the numbers.
fn read_counted<'a>(
    key: &'a [u8],
    flags: &[u8],
    counted: Halved<'_>,
    asked: bool,
) -> Option<Heading<'a>>
    ensures value { option_map heading_seen result
        ≡ heading_counted asked key.now flags.now (halves_seen counted.entry) }
{
    heading_with(
        key,
        read_decimal(flags),
        read_decimal(counted.front),
        read_unique(counted.rest, asked),
    )
}

// Returns the heading with these parts, whose flags are below 2^32.
fn heading_with(
    key: &[u8],
    flags: Option<u64>,
    count: Option<u64>,
    unique: Option<u64>,
) -> Option<Heading<'_>>
    ensures value { option_map heading_seen result ≡ heading_with key.now flags count unique }
{
    match (flags, count, unique) {
        (Some(flags), Some(count), Some(unique)) if flags < 1 << 32 => Some(Heading {
            key,
            flags: flags as u32,
            count,
            unique,
        }),
        _ => None,
    }
}

// Reads the unique at the end of the line, if uniques were asked for.
fn read_unique(text: &[u8], asked: bool) -> Option<u64>
    ensures value { result ≡ unique_of asked text.now }
{
    if asked {
        read_last_number(text)
    } else if text == b"\n".as_slice() {
        Some(0)
    } else {
        None
    }
}

/// Reads the number that a line ends with, after which nothing but the end of the line stands.
pub(crate) fn read_last_number(text: &[u8]) -> Option<u64>
    ensures value { result ≡ option_and_then number_before (halves_at 13 text.now) }
{
    match halve_at(text, b'\r') {
        Some(parted) => read_number_before(parted),
        None => None,
    }
}

// Reads the number before the end of the line.
fn read_number_before(parted: Halved<'_>) -> Option<u64>
    ensures value { result ≡ number_before (halves_seen parted.entry) }
{
    if parted.rest == b"\n".as_slice() {
        read_decimal(parted.front)
    } else {
        None
    }
}

// Returns the byte after the length of the value.
fn length_stop(asked: bool) -> u8
    ensures value { result ≡ length_stop asked }
{
    if asked { b' ' } else { b'\r' }
}
