//! Answers of one line.
ghost use Rattle.std.specs.Prelude.{◌≡◌, ◌↔◌, true};
ghost use Rattle.mc_answers.specs.Answer.{IsSomeAnswer};
ghost use Rattle.mc_answers.specs.Cut.{IsLine};
ghost use Rattle.mc_kind.specs.First.{IsFirst, IsFixedAnswer, is_loud_line};

use crate::first::First;
use mc_answered::{is_error_line, is_line_with, line_length, may_be_said, reply_kind};
use mc_parse::{Command, Meta};

/// Finds where the line that answers a command ends.
pub(crate) fn first_line(command: &Command, bytes: &[u8]) -> First
    requires line { is_loud_line command.now ≡ true }
    ensures value { IsFirst command.now bytes.now result }
{
    let Some(length) = line_length(bytes) else {
        return First::Unread;
    };
    let line = &bytes[..length];
    if may_answer(command, line) {
        return First::Whole { length };
    }
    if is_error_line(line) {
        return First::Other;
    }
    if is_fault(command) {
        First::Other
    } else {
        First::Refused
    }
}

// Checks whether a line gave the command that has a fault.
fn is_fault(command: &Command) -> bool {
    matches!(command, Command::Fault { .. })
}

// Checks whether a line may answer a command that is answered by one.
fn may_answer(command: &Command, line: &[u8]) -> bool
    requires loud { is_loud_line command.now ≡ true }
    requires line { IsLine line.now }
    ensures value { (result ≡ true) ↔ IsSomeAnswer command.now line.now }
{
    match reply_kind(command) {
        Some(kind) => may_be_said(kind, line),
        None => may_be_fixed(command, line),
    }
}

// Checks whether a line answers a command whatever is said to its calls.
fn may_be_fixed(command: &Command, line: &[u8]) -> bool
    requires line { IsLine line.now }
    ensures value { (result ≡ true) ↔ IsFixedAnswer command.now line.now }
{
    match command {
        Command::Version => is_line_with(line, b"VERSION "),
        Command::Fault { .. } => is_error_line(line),
        Command::Meta { meta: Meta::Noop } => line == b"MN\r\n".as_slice(),
        Command::Verbosity { .. } | Command::Flush { .. } => line == b"OK\r\n".as_slice(),
        _ => false,
    }
}
