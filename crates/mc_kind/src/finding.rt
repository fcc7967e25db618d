//! The first answer in some bytes.
ghost use Rattle.std.specs.Prelude.{◌≡◌};
ghost use Rattle.mc_kind.specs.First.{IsFirst, is_loud_line};

use crate::counts::first_counts;
use crate::first::First;
use crate::lines::first_line;
use crate::listing::first_listing;
use crate::marked::first_meta;
use mc_parse::{Command, ErrorLine, Meta};

/// Finds where the first answer to a command ends, whatever was said to its calls.
pub fn first_answer(command: &Command, bytes: &[u8]) -> First
    ensures value { IsFirst command.now bytes.now result }
{
    match command {
        Command::Get { keys, unique } => first_listing(keys.items(), *unique, bytes),
        Command::Stats => first_counts(bytes),
        Command::Fault {
            line: ErrorLine::TooLarge,
            ..
        } => First::Other,
        Command::Meta { meta: Meta::Noop } => first_by_line(command, bytes),
        Command::Meta { meta } => first_meta(meta, bytes),
        _ => first_by_line(command, bytes),
    }
}

// Finds where the answer to a command ends that is one line or nothing.
fn first_by_line(command: &Command, bytes: &[u8]) -> First
    ensures value { IsFirst command.now bytes.now result }
{
    if is_loud_line(command) {
        return first_line(command, bytes);
    }
    if command.is_quiet() {
        First::Whole { length: 0 }
    } else {
        First::Unread
    }
}

// Checks whether a command is answered by one line.
fn is_loud_line(command: &Command) -> bool
    ensures value { result ≡ is_loud_line command.now }
{
    match command {
        Command::Get { .. } | Command::Stats => false,
        Command::Meta { meta } => matches!(meta, Meta::Noop),
        _ => !command.is_quiet(),
    }
}
