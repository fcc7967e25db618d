//! What a key has after a call.

use crate::decided::{Change, Decided};
use crate::getting::{Glimpse, glimpse_of};
use crate::held::{AT_FIRST, Held, Known, Sight, brought, found, stored};
use mc_calls::Call;
use std::alloc::Global;
use zy_base::{Blob, NoMemory, number_text};
use zy_refute::Observed;

/// Returns what a key that has this has after a call at this offset of the order; none if it keeps it
/// as it is. May answer `NoMemory`.
pub fn held_after(
    alloc: Global,
    sight: Sight<'_>,
    one: &Observed,
    decided: Decided,
    place: usize,
) -> Result<Option<Held>, NoMemory> {
    let held = match decided.change {
        Change::Keeps => return Ok(None),
        Change::Shows => return shown(sight, one),
        Change::Clears => Held::Nothing,
        Change::Finds => found(alloc),
        Change::Stores => brought(&one.call, place)?,
        Change::Joins => joined(alloc, sight, &one.call, place)?,
        Change::Counts { number, length } => counted(alloc, sight, number, length, place)?,
        Change::Doubts => match sight {
            Sight::Item(known) => known.with_doubt(Some(place))?,
            _ => return Ok(None),
        },
    };
    Ok(Some(held))
}

// The item that an answer shows.
fn shown(sight: Sight<'_>, one: &Observed) -> Result<Option<Held>, NoMemory> {
    match (sight, glimpse_of(&one.shown)) {
        (Sight::Item(known), Some(glimpse)) => { Ok(Some(shown_of(known, glimpse, one.unique)?)) }
        (Sight::Any, Some(glimpse)) => match glimpse.value {
            Some(value) => Ok(Some(Held::Item(Known {
                flags: glimpse.flags.unwrap_or(0),
                digits: value.bytes().len(),
                value: value.copy()?,
                unique: one.unique,
                origin: AT_FIRST,
                doubt: None,
                open: None,
            }))),
            None => Ok(None),
        },
        _ => Ok(None),
    }
}

// An item, with what an answer shows of it.
fn shown_of(known: &Known, glimpse: Glimpse<'_>, unique: Option<u64>) -> Result<Held, NoMemory> {
    let value = glimpse.value.unwrap_or(&known.value);
    let length = value.bytes().len();
    let was_open = known.open.is_some();
    let is_open = was_open && glimpse.value.is_none();
    let digits = if was_open {
        length
    } else {
        length.min(known.digits)
    };
    let flags = match glimpse.flags {
        Some(flags) if was_open => flags,
        _ => known.flags,
    };
    Ok(Held::Item(Known {
        flags,
        value: value.copy()?,
        digits,
        unique: known.unique.or(unique),
        origin: known.origin,
        doubt: None,
        open: if is_open { known.open } else { None },
    }))
}

// The item with a piece joined to its value.
fn joined(alloc: Global, sight: Sight<'_>, call: &Call, place: usize) -> Result<Held, NoMemory> {
    let mut value = Blob::new(alloc);
    match write_joined(&mut value, sight, call) {
        Ok(()) => Ok(opened(sight, call, value, place)),
        Err(refused) => {
            drop(value);
            Err(refused)
        }
    }
}

// Writes an item's value with a piece joined to it.
fn write_joined(value: &mut Blob, sight: Sight<'_>, call: &Call) -> Result<(), NoMemory> {
    let own = match sight {
        Sight::Item(known) => known.value.bytes(),
        _ => &[],
    };
    match call {
        Call::Append { value: piece, .. } => {
            value.append(own)?;
            value.append(piece.bytes())
        }
        Call::Prepend { value: piece, .. } => {
            value.append(piece.bytes())?;
            value.append(own)
        }
        _ => Ok(()),
    }
}

// The item with this joined value.
fn opened(sight: Sight<'_>, call: &Call, value: Blob, place: usize) -> Held {
    let (flags, before) = match sight {
        Sight::Item(known) => (known.flags, known.open),
        _ => (0, Some(0)),
    };
    let open = match (before, call) {
        (Some(offset), Call::Prepend { value: piece, .. }) => {
            Some(offset.saturating_add(piece.bytes().len()))
        }
        (offset, _) => offset,
    };
    let mut held = stored(flags, value, place);
    if let Held::Item(known) = &mut held {
        known.open = open;
    }
    held
}

// The item with this number, and with spaces after it up to this length.
fn counted(
    alloc: Global,
    sight: Sight<'_>,
    number: u64,
    length: usize,
    place: usize,
) -> Result<Held, NoMemory> {
    let flags = match sight {
        Sight::Item(known) => known.flags,
        _ => 0,
    };
    let mut value = Blob::new(alloc);
    match write_counted(&mut value, number, length) {
        Ok(digits) => {
            let mut held = stored(flags, value, place);
            if let Held::Item(known) = &mut held {
                known.digits = digits;
            }
            Ok(held)
        }
        Err(refused) => {
            drop(value);
            Err(refused)
        }
    }
}

// Writes a number, and spaces up to a length. Returns how many digits it has.
fn write_counted(value: &mut Blob, number: u64, length: usize) -> Result<usize, NoMemory> {
    number_text(value, number)?;
    let digits = value.bytes().len();
    for _ in digits..length {
        value.append(b" ")?;
    }
    Ok(digits)
}
