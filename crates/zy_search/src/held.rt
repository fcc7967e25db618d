//! What a key has.

use mc_calls::{Call, Item};
use std::alloc::Global;
use zy_base::{Blob, NoMemory};

/// An item, as far as it is known.
#[derive(Drop)]
pub struct Known {
    pub flags: u32,
    pub value: Blob,
    /// The length of the value without the spaces that a server may have left out.
    pub digits: usize,
    /// The unique, once it is shown.
    pub unique: Option<u64>,
    /// The offset, in the order, of the call that stored it; `AT_FIRST` for a first item.
    pub origin: usize,
    /// The offset of a call that failed, with which the item may be gone.
    pub doubt: Option<usize>,
    /// The offset in the value at which the value of a first item belongs that no answer has shown yet;
    /// its flags are not known then either.
    pub open: Option<usize>,
}

/// The origin of an item that was there at first.
pub const AT_FIRST: usize = usize::MAX;

/// What a key has.
#[derive(Drop)]
pub enum Held {
    /// Anything: no call has shown it.
    Any,
    /// No item.
    Nothing,
    /// This item.
    Item(Known),
}

/// What a key has, as it is looked at.
#[derive(Clone, Copy)]
pub enum Sight<'a> {
    Any,
    Nothing,
    Item(&'a Known),
}

impl Held {
    /// Lends it.
    pub fn sight(&self) -> Sight<'_> {
        match self {
            Held::Any => Sight::Any,
            Held::Nothing => Sight::Nothing,
            Held::Item(known) => Sight::Item(known),
        }
    }

    /// Checks whether it is no item.
    pub fn is_nothing(&self) -> bool {
        matches!(self, Held::Nothing)
    }

    /// Copies it.
    pub fn copy(&self) -> Result<Held, NoMemory> {
        match self {
            Held::Any => Ok(Held::Any),
            Held::Nothing => Ok(Held::Nothing),
            Held::Item(known) => known.with_doubt(known.doubt),
        }
    }

    /// Says that the item was stored before a list of calls.
    pub fn set_before(&mut self) {
        if let Held::Item(known) = self {
            known.origin = AT_FIRST;
            known.doubt = None;
        }
    }
}

impl Known {
    // Copies the item, with this call that failed.
    pub(crate) fn with_doubt(&self, doubt: Option<usize>) -> Result<Held, NoMemory> {
        let value = self.value.copy()?;
        Ok(Held::Item(Known {
            flags: self.flags,
            value,
            digits: self.digits,
            unique: self.unique,
            origin: self.origin,
            doubt,
            open: self.open,
        }))
    }
}

// Makes an item that is stored at this offset of the order.
pub(crate) fn stored(flags: u32, value: Blob, origin: usize) -> Held {
    let digits = value.bytes().len();
    Held::Item(Known {
        flags,
        value,
        digits,
        unique: None,
        origin,
        doubt: None,
        open: None,
    })
}

// Makes a first item that is known.
pub(crate) fn first_known(item: &Item) -> Result<Held, NoMemory> {
    let value = item.value.copy()?;
    Ok(Held::Item(Known {
        flags: item.flags,
        digits: value.bytes().len(),
        value,
        unique: Some(item.unique),
        origin: AT_FIRST,
        doubt: None,
        open: None,
    }))
}

/// Makes a first item whose unique is not known. May answer `NoMemory`.
pub fn held_at_first(flags: u32, value: &Blob) -> Result<Held, NoMemory> {
    let value = value.copy()?;
    Ok(stored(flags, value, AT_FIRST))
}

// Makes the item that a call brings, stored at this offset.
pub(crate) fn brought(call: &Call, origin: usize) -> Result<Held, NoMemory> {
    match (call.flags(), call.value()) {
        (Some(flags), Some(value)) => {
            let value = value.copy()?;
            Ok(stored(flags, value, origin))
        }
        _ => Ok(Held::Nothing),
    }
}

// Makes a first item of which nothing is known.
pub(crate) fn found(alloc: Global) -> Held {
    Held::Item(Known {
        flags: 0,
        value: Blob::new(alloc),
        digits: 0,
        unique: None,
        origin: AT_FIRST,
        doubt: None,
        open: Some(0),
    })
}
