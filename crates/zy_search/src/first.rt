//! The items that were there at first.

use crate::decided::First;
use crate::getting::glimpse_of;
use crate::held::{Known, Sight};
use std::alloc::Global;
use zy_base::{Blob, NoMemory, number_text};
use zy_refute::Observed;

/// The flags and the value of an item that was there at first.
#[derive(Drop)]
pub struct FirstItem {
    pub flags: u32,
    pub value: Blob,
}

impl FirstItem {
    /// Copies it. May answer `NoMemory`.
    pub fn copy(&self) -> Result<FirstItem, NoMemory> {
        Ok(FirstItem {
            flags: self.flags,
            value: self.value.copy()?,
        })
    }
}

// The value of a first item that no answer shows: it is no number.
const UNSEEN: [u8; 1] = *b"x";

/// Returns the item that was there at first, as a call shows it at a key that has this; none if it says
/// nothing new. May answer `NoMemory`.
pub fn first_item(
    alloc: Global,
    sight: Sight<'_>,
    one: &Observed,
    first: First,
) -> Result<Option<FirstItem>, NoMemory> {
    match first {
        First::Unsaid => Ok(None),
        First::Some => Ok(Some(FirstItem {
            flags: 0,
            value: Blob::copy_of(alloc, &UNSEEN)?,
        })),
        First::Number(number) => numbered(alloc, number),
        First::Shown => match glimpse_of(&one.shown) {
            Some(glimpse) => match glimpse.value {
                Some(value) => Ok(Some(FirstItem {
                    flags: glimpse.flags.unwrap_or(0),
                    value: Blob::copy_of(alloc, inner(sight, value.bytes()))?,
                })),
                None => Ok(None),
            },
            None => Ok(None),
        },
    }
}

// An item whose value is a number.
fn numbered(alloc: Global, number: u64) -> Result<Option<FirstItem>, NoMemory> {
    let mut value = Blob::new(alloc);
    match number_text(&mut value, number) {
        Ok(()) => Ok(Some(FirstItem { flags: 0, value })),
        Err(refused) => {
            drop(value);
            Err(refused)
        }
    }
}

// The part of a value that was there before pieces were joined to it.
fn inner<'a>(sight: Sight<'_>, value: &'a [u8]) -> &'a [u8] {
    match sight {
        Sight::Item(
            Known {
                value: pieces,
                open: Some(offset),
                ..
            },
        ) => {
            let behind = pieces.bytes().len().saturating_sub(*offset);
            let end = value.len().saturating_sub(behind);
            value.get(*offset..end).unwrap_or(value)
        }
        _ => value,
    }
}
