//! The commands that are made: each second one a `set` and the others `get`, of 1,000 keys with values
//! of 100 bytes.
ghost use Rattle.std.specs.Prelude.{◌<◌};

use crate::calls::{VALUE, get, set};
use mc_calls::Call;
use std::alloc::Global;
use zy_base::{Blob, NoMemory, number_text};

// Returns the key of a command, of seven digits.
fn key_of(number: u64) -> u64
    ensures few { result < 1001000 }
{
    1_000_000 + (number.wrapping_mul(6_364_136_223_846_793_005) >> 33) % 1_000
}

/// Appends a command.
pub(crate) fn spell(text: &mut Blob, number: u64) -> Result<(), NoMemory> {
    if number % 2 == 0 {
        text.append(b"set ")?;
        number_text(text, key_of(number))?;
        text.append(b" 0 0 100\r\n")?;
        text.append(&VALUE)?;
    } else {
        text.append(b"get ")?;
        number_text(text, key_of(number))?;
    }
    text.append(b"\r\n")
}

/// Makes the text of `size` commands from this one on.
pub(crate) fn text_of(alloc: Global, first: u64, size: u64) -> Result<Blob, NoMemory> {
    let mut text = Blob::new(alloc);
    match spell_all(&mut text, first, size) {
        Ok(()) => Ok(text),
        Err(e) => {
            drop(text);
            Err(e)
        }
    }
}

// Appends `size` commands from this one on.
fn spell_all(text: &mut Blob, first: u64, size: u64) -> Result<(), NoMemory> {
    for at in 0..size {
        spell(text, first.wrapping_add(at))?;
    }
    Ok(())
}

/// Returns the call of a command.
pub(crate) fn call_of(alloc: Global, number: u64) -> Result<Call, NoMemory> {
    if number % 2 == 0 {
        set(alloc, key_of(number))
    } else {
        get(alloc, key_of(number))
    }
}
