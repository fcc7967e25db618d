//! What comes next in a call, by the fields that its kind has.
ghost use Rattle.std.specs.Prelude.{◌≡◌};
ghost use Rattle.zy_journal_reader.specs.Fields.{after_call_code, at_flags, at_number, at_value, IsOpenAnywhere};

use crate::due::{ByteField, Due, LongField, NumberField};
use mc_calls::CallFields;

// Returns what comes after the code: the key, or what comes if there is none.
pub(crate) fn at_key(fields: CallFields) -> Due
    ensures value { result ≡ after_call_code fields }
    ensures open { IsOpenAnywhere result }
{
    if fields.key {
        Due::Byte(ByteField::KeyLength)
    } else {
        at_flags(fields)
    }
}

// Returns what comes after the key: the flags, or what comes if there are none.
pub(crate) fn at_flags(fields: CallFields) -> Due
    ensures value { result ≡ at_flags fields }
    ensures open { IsOpenAnywhere result }
{
    if fields.flags {
        Due::Number(NumberField::Flags)
    } else {
        at_number(fields)
    }
}

// Returns what comes after the flags: the number, or what comes if there is none.
pub(crate) fn at_number(fields: CallFields) -> Due
    ensures value { result ≡ at_number fields }
    ensures open { IsOpenAnywhere result }
{
    if fields.number {
        Due::Long(LongField::CallNumber)
    } else {
        at_value(fields)
    }
}

// Returns what comes after the number: the value, or the reply.
pub(crate) fn at_value(fields: CallFields) -> Due
    ensures value { result ≡ at_value fields }
    ensures open { IsOpenAnywhere result }
{
    if fields.value {
        Due::Number(NumberField::ValueLength)
    } else {
        Due::Byte(ByteField::ReplyCode)
    }
}
