//! The kinds of calls, with the code and the fields of each, and what it is counted as.
ghost use Rattle.std.specs.Prelude.{◌≡◌};
ghost use Rattle.mc_calls.specs.Table.{kind_of, row_of, having, call_of};
ghost use Rattle.mc_calls.specs.Code.{code_of, fields_of};

use crate::call::Call;
use zy_base::Blob;

/// The kind of a call.
#[derive(Clone, Copy)]
pub enum CallKind {
    Get,
    Set,
    Add,
    Replace,
    Append,
    Prepend,
    Cas,
    Incr,
    Decr,
    Delete,
    Flush,
    Tally,
}

/// The greatest code of a call.
pub const LAST_CALL_CODE: u8 = 12;

/// Which fields a kind of call has. In a file they are in this order.
#[derive(Clone, Copy)]
pub struct CallFields {
    pub key: bool,
    pub flags: bool,
    /// The unique of a cas, or the amount of an incr or a decr.
    pub number: bool,
    pub value: bool,
}

/// What a call is counted as by its shard.
#[derive(Clone, Copy)]
pub enum CountedAs {
    AsGet,
    AsSet,
    Uncounted,
}

// A kind's code, its fields, and what it is counted as.
#[derive(Clone, Copy)]
struct KindRow {
    code: u8,
    fields: CallFields,
    counted: CountedAs,
}

impl CallKind {
    /// Returns the kind that has this code, 1 to 12.
    pub fn of(code: u8) -> CallKind
        ensures value { result ≡ kind_of code }
    {
        match code {
            1 => CallKind::Get,
            2 => CallKind::Set,
            3 => CallKind::Add,
            4 => CallKind::Replace,
            5 => CallKind::Append,
            6 => CallKind::Prepend,
            7 => CallKind::Cas,
            8 => CallKind::Incr,
            9 => CallKind::Decr,
            10 => CallKind::Delete,
            11 => CallKind::Flush,
            _ => CallKind::Tally,
        }
    }

    // Returns the row of the kind.
    fn row(self) -> KindRow
        ensures code { result.code ≡ (row_of self).code }
        ensures fields { result.fields ≡ (row_of self).fields }
        ensures counted { result.counted ≡ (row_of self).counted }
    {
        match self {
            CallKind::Get => row(1, having(true, false, false, false), CountedAs::AsGet),
            CallKind::Set => row(2, having(true, true, false, true), CountedAs::AsSet),
            CallKind::Add => row(3, having(true, true, false, true), CountedAs::AsSet),
            CallKind::Replace => row(4, having(true, true, false, true), CountedAs::AsSet),
            CallKind::Append => row(5, having(true, false, false, true), CountedAs::AsSet),
            CallKind::Prepend => row(6, having(true, false, false, true), CountedAs::AsSet),
            CallKind::Cas => row(7, having(true, true, true, true), CountedAs::AsSet),
            CallKind::Incr => row(8, having(true, false, true, false), CountedAs::Uncounted),
            CallKind::Decr => row(9, having(true, false, true, false), CountedAs::Uncounted),
            CallKind::Delete => row(10, having(true, false, false, false), CountedAs::Uncounted),
            CallKind::Flush => row(11, having(false, false, false, false), CountedAs::Uncounted),
            CallKind::Tally => row(12, having(false, false, false, false), CountedAs::Uncounted),
        }
    }

    /// Returns the code of the kind.
    pub fn code(self) -> u8
        ensures value { result ≡ code_of self }
    {
        self.row().code
    }

    /// Returns the fields of the kind.
    pub fn fields(self) -> CallFields
        ensures value { result ≡ fields_of self }
    {
        self.row().fields
    }

    /// Returns what the kind is counted as.
    pub fn counted(self) -> CountedAs
        ensures value { result ≡ (row_of self).counted }
    {
        self.row().counted
    }

    /// Makes the call of the kind, with those of these fields that the kind has.
    pub fn call(self, key: Blob, flags: u32, number: u64, value: Blob) -> Call
        ensures value { result ≡ call_of self key flags number value }
    {
        match self {
            CallKind::Get => {
                drop(value);
                Call::Get { key }
            }
            CallKind::Set => Call::Set { key, flags, value },
            CallKind::Add => Call::Add { key, flags, value },
            CallKind::Replace => Call::Replace { key, flags, value },
            CallKind::Append => Call::Append { key, value },
            CallKind::Prepend => Call::Prepend { key, value },
            CallKind::Cas => Call::Cas {
                flags,
                key,
                unique: number,
                value,
            },
            CallKind::Incr => {
                drop(value);
                let amount = number;
                Call::Incr { key, amount }
            }
            CallKind::Decr => {
                drop(value);
                let amount = number;
                Call::Decr { key, amount }
            }
            CallKind::Delete => {
                drop(value);
                Call::Delete { key }
            }
            CallKind::Flush => {
                drop(value);
                drop(key);
                Call::Flush
            }
            CallKind::Tally => {
                drop(value);
                drop(key);
                Call::Tally
            }
        }
    }
}

// Makes a row of these.
fn row(code: u8, fields: CallFields, counted: CountedAs) -> KindRow
    ensures code { result.code ≡ code }
    ensures fields { result.fields ≡ fields }
    ensures counted { result.counted ≡ counted }
{
    KindRow {
        code,
        fields,
        counted,
    }
}

// Returns these fields.
fn having(key: bool, flags: bool, number: bool, value: bool) -> CallFields
    ensures value { result ≡ having key flags number value }
{
    CallFields {
        key,
        flags,
        number,
        value,
    }
}
