//! Calls on a shard of the store.
ghost use Rattle.std.specs.Prelude.{◌≡◌, IfOk, option_copied};
ghost use Rattle.mc_calls.specs.Call.{key_of};
ghost use Rattle.mc_calls.specs.Code.{call_kind, call_code, call_flags, call_number, call_value};
ghost use Rattle.mc_calls.specs.declared.call.Call.TheVariants.{Cas};

use crate::call_kind::CallKind;
use zy_base::{Blob, NoMemory};

/// A call on one shard of the store. A key has 1 to 250 bytes, and a value at most 1,048,576.
#[derive(PartialEq, Eq, Drop)]
pub enum Call {
    /// Asks for the item of the key.
    Get {
        key: Blob,
    },
    /// Stores an item.
    Set {
        key: Blob,
        flags: u32,
        value: Blob,
    },
    /// Stores an item if the key has none.
    Add {
        key: Blob,
        flags: u32,
        value: Blob,
    },
    /// Stores an item if the key has one.
    Replace {
        key: Blob,
        flags: u32,
        value: Blob,
    },
    /// Appends the value to the item's.
    Append {
        key: Blob,
        value: Blob,
    },
    /// Puts the value before the item's.
    Prepend {
        key: Blob,
        value: Blob,
    },
    /// Stores an item if the one at the key has this unique.
    Cas {
        // The flags come first, so that they share a word with the kind of the call.
        flags: u32,
        key: Blob,
        unique: u64,
        value: Blob,
    },
    /// Adds to a value that is a number, modulo 2^64.
    Incr {
        key: Blob,
        amount: u64,
    },
    /// Takes from a value that is a number, down to 0 at most.
    Decr {
        key: Blob,
        amount: u64,
    },
    /// Removes the item of the key.
    Delete {
        key: Blob,
    },
    /// Removes all items of the shard.
    Flush,
    /// Asks how many calls of each kind the shard has answered, and how many items it has.
    Tally,
}

impl Call {
    /// Returns the key that the call is about. A flush and a tally have none.
    pub fn key(&self) -> Option<&Blob>
        ensures value { option_copied result ≡ key_of self.now }
    {
        match self {
            Call::Get { key } | Call::Delete { key } => Some(key),
            Call::Set { key, .. } | Call::Add { key, .. } | Call::Replace { key, .. } => Some(key),
            Call::Append { key, .. } | Call::Prepend { key, .. } => Some(key),
            Call::Cas { key, .. } => Some(key),
            Call::Incr { key, .. } | Call::Decr { key, .. } => Some(key),
            Call::Flush | Call::Tally => None,
        }
    }

    /// Returns the kind of the call.
    pub fn kind(&self) -> CallKind
        ensures value { result ≡ call_kind self.now }
    {
        match self {
            Call::Get { .. } => CallKind::Get,
            Call::Set { .. } => CallKind::Set,
            Call::Add { .. } => CallKind::Add,
            Call::Replace { .. } => CallKind::Replace,
            Call::Append { .. } => CallKind::Append,
            Call::Prepend { .. } => CallKind::Prepend,
            Call::Cas { .. } => CallKind::Cas,
            Call::Incr { .. } => CallKind::Incr,
            Call::Decr { .. } => CallKind::Decr,
            Call::Delete { .. } => CallKind::Delete,
            Call::Flush => CallKind::Flush,
            Call::Tally => CallKind::Tally,
        }
    }

    /// Returns the code of the call in a journal.
    pub fn code(&self) -> u8
        ensures value { result ≡ call_code self.now }
    {
        self.kind().code()
    }

    /// Returns the flags of the call, if it has some.
    pub fn flags(&self) -> Option<u32>
        ensures value { result ≡ call_flags self.now }
    {
        match self {
            Call::Set { flags, .. } => Some(*flags),
            Call::Add { flags, .. } => Some(*flags),
            Call::Replace { flags, .. } => Some(*flags),
            Call::Cas { flags, .. } => Some(*flags),
            _ => None,
        }
    }

    /// Returns the unique of a cas, and the amount of an incr or a decr.
    pub fn number(&self) -> Option<u64>
        ensures value { result ≡ call_number self.now }
    {
        match self {
            Call::Cas { unique, .. } => Some(*unique),
            Call::Incr { amount, .. } => Some(*amount),
            Call::Decr { amount, .. } => Some(*amount),
            _ => None,
        }
    }

    /// Returns the value of the call, if it has one.
    pub fn value(&self) -> Option<&Blob>
        ensures value { option_copied result ≡ call_value self.now }
    {
        match self {
            Call::Set { value, .. } => Some(value),
            Call::Add { value, .. } => Some(value),
            Call::Replace { value, .. } => Some(value),
            Call::Append { value, .. } => Some(value),
            Call::Prepend { value, .. } => Some(value),
            Call::Cas { value, .. } => Some(value),
            _ => None,
        }
    }

    /// Copies the call.
    pub fn copy(&self) -> Result<Call, NoMemory>
        ensures value { IfOk result (λ copy. copy ≡ self.now) }
    {
        match self {
            Call::Get { key } => Ok(Call::Get { key: key.copy()? }),
            Call::Set { key, flags, value } => {
                let (key, value) = copy_both(key, value)?;
                let flags = *flags;
                Ok(Call::Set { key, flags, value })
            }
            Call::Add { key, flags, value } => {
                let (key, value) = copy_both(key, value)?;
                let flags = *flags;
                Ok(Call::Add { key, flags, value })
            }
            Call::Replace { key, flags, value } => {
                let (key, value) = copy_both(key, value)?;
                let flags = *flags;
                Ok(Call::Replace { key, flags, value })
            }
            Call::Append { key, value } => {
                let (key, value) = copy_both(key, value)?;
                Ok(Call::Append { key, value })
            }
            Call::Prepend { key, value } => {
                let (key, value) = copy_both(key, value)?;
                Ok(Call::Prepend { key, value })
            }
            Call::Cas {
                flags,
                key,
                unique,
                value,
            } => copy_cas(*flags, key, *unique, value),
            Call::Incr { key, amount } => Ok(Call::Incr {
                key: key.copy()?,
                amount: *amount,
            }),
            Call::Decr { key, amount } => Ok(Call::Decr {
                key: key.copy()?,
                amount: *amount,
            }),
            Call::Delete { key } => Ok(Call::Delete { key: key.copy()? }),
            Call::Flush => Ok(Call::Flush),
            Call::Tally => Ok(Call::Tally),
        }
    }

    /// Lets copies share the bytes of key and value from now on.
    pub fn share(&mut self) -> Result<(), NoMemory>
        ensures value { self.new ≡ self.old }
    {
        match self {
            Call::Get { key } => key.share(),
            Call::Set { key, value, .. } => share_both(key, value),
            Call::Add { key, value, .. } => share_both(key, value),
            Call::Replace { key, value, .. } => share_both(key, value),
            Call::Append { key, value } => share_both(key, value),
            Call::Prepend { key, value } => share_both(key, value),
            Call::Cas { key, value, .. } => share_both(key, value),
            Call::Incr { key, .. } => key.share(),
            Call::Decr { key, .. } => key.share(),
            Call::Delete { key } => key.share(),
            Call::Flush | Call::Tally => Ok(()),
        }
    }
}

fn share_both(key: &mut Blob, value: &mut Blob) -> Result<(), NoMemory>
    ensures key { key.new ≡ key.old }
    ensures value { value.new ≡ value.old }
{
    key.share()?;
    value.share()
}

// Copies a key and a value.
fn copy_both(key: &Blob, value: &Blob) -> Result<(Blob, Blob), NoMemory>
    ensures key { IfOk result (λ both. both.0 ≡ key.now) }
    ensures value { IfOk result (λ both. both.1 ≡ value.now) }
{
    let key = key.copy()?;
    match value.copy() {
        Ok(value) => Ok((key, value)),
        Err(refused) => {
            drop(key);
            Err(refused)
        }
    }
}

// Makes a `cas` of copies of a key and a value.
fn copy_cas(flags: u32, key: &Blob, unique: u64, value: &Blob) -> Result<Call, NoMemory>
    ensures value { IfOk result (λ copy. copy ≡ Cas flags key.now unique value.now) }
{
    let (key, value) = copy_both(key, value)?;
    Ok(Call::Cas {
        flags,
        key,
        unique,
        value,
    })
}
