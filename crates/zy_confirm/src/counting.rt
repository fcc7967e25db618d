//! Counting the value of an item.
ghost use Rattle.std.specs.Prelude.{◌≡◌, ◌-◌, ◌++◌, ℕ, List, [], true, Some, IfOk, IfSome, OnOk, length, replicate};
ghost use Rattle.mc_allows.specs.Values.{may_read, IsNumberText};
ghost use Rattle.mc_calls.specs.declared.call.Call.TheVariants.{Incr, Decr};
ghost use Rattle.zy_confirm.specs.Choosing.{IsAnyChosen, IsCounted};

use crate::outcome::{After, Outcome};
use mc_allows::{Said, may_read, padded_number};
use mc_calls::{CallReply, Item};
use std::alloc::Global;
use zy_base::{Blob, NoMemory, number_text};
use zy_verdict::Choice;

/// Counts the item's value up, if the server's choice is one that it has.
pub(crate) fn count_up(
    alloc: Global,
    item: &Item,
    amount: u64,
    choice: Choice,
) -> Result<Option<Outcome>, NoMemory>
    ensures chosen { IfOk result (λ o. IfSome o (λ x. (key : List ℕ)
        → IsAnyChosen (Some item.now) (Incr key amount) x)) }
{
    match number_read(item, choice) {
        Some(number) => Ok(Some(counted(alloc, item, number.wrapping_add(amount), choice)?)),
        None => Ok(None),
    }
}

/// Counts the item's value down, if the server's choice is one that it has.
pub(crate) fn count_down(
    alloc: Global,
    item: &Item,
    amount: u64,
    choice: Choice,
) -> Result<Option<Outcome>, NoMemory>
    ensures chosen { IfOk result (λ o. IfSome o (λ x. (key : List ℕ)
        → IsAnyChosen (Some item.now) (Decr key amount) x)) }
{
    match number_read(item, choice) {
        Some(number) => Ok(Some(counted(alloc, item, number.saturating_sub(amount), choice)?)),
        None => Ok(None),
    }
}

// Returns the number that a server reads in the item's value, if it may read the one that it chose.
fn number_read(item: &Item, choice: Choice) -> Option<u64>
    ensures read { IfSome result (λ number. may_read item.now.value number ≡ true) }
{
    let number = match choice {
        Choice::Read(number) => Some(number),
        _ => padded_number(item.value.bytes()),
    };
    match number {
        Some(number) if may_read(item.value.bytes(), number) => Some(number),
        _ => None,
    }
}

// Stores a number as the server chose to write it, with the item's flags.
fn counted(alloc: Global, item: &Item, number: u64, choice: Choice) -> Result<Outcome, NoMemory>
    ensures counted { IfOk result (IsCounted item.now number) }
{
    let mut value = Blob::new(alloc);
    if let Err(refused) = write_number(&mut value, number, item.value.bytes().len(), choice) {
        drop(value);
        return Err(refused);
    }
    Ok(Outcome {
        said: Said::Replied {
            reply: CallReply::Number { number },
        },
        after: After::Put {
            flags: item.flags,
            value,
        },
    })
}

// Writes a number into an empty value, with spaces up to this width if the server chose them.
fn write_number(value: &mut Blob, number: u64, width: usize, choice: Choice) -> Result<(), NoMemory>
    requires empty { value.old ≡ [] }
    ensures text { OnOk result (IsNumberText number width value.new) }
{
    number_text(value, number)?;
    if choice == Choice::Padded {
        pad(value, width)?;
    }
    Ok(())
}

// Appends spaces up to this width.
fn pad(value: &mut Blob, width: usize) -> Result<(), NoMemory>
    ensures padded { OnOk result (value.new ≡ value.old ++ replicate (width - length value.old) 32) }
{
    let missing = width.saturating_sub(value.bytes().len());
    for _ in 0..missing {
        value.append(b" ")?;
    }
    Ok(())
}
