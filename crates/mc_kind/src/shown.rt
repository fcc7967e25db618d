//! The answers to `mg` that may show a value.
ghost use Rattle.std.specs.Prelude.{◌≡◌, ◌≤◌, true, IfSome};
ghost use Rattle.mc_parse.specs.declared.command.Command.TheVariants as Commands;
ghost use Rattle.mc_answers.specs.Answer.{IsCuttable};
ghost use Rattle.mc_kind.specs.First.{IsFirst};
ghost use Rattle.mc_kind.specs.Marked.{shows_value, HasSize};

use crate::first::First;
use mc_answered::{is_error_line, is_line_with, line_length, read_size};
use mc_parse::Meta;
use zy_base::VALUE_LIMIT;

/// Finds where the answer to a meta command ends that may show a value.
pub(crate) fn first_shown(meta: &Meta, bytes: &[u8]) -> First
    requires plain { IsCuttable (Commands.Meta meta.now) }
    requires shows { shows_value meta.now ≡ true }
    ensures value { IsFirst (Commands.Meta meta.now) bytes.now result }
{
    let Some(length) = line_length(bytes) else {
        return First::Unread;
    };
    let line = &bytes[..length];
    if is_error_line(line) {
        return First::Other;
    }
    if is_line_with(line, b"EN") {
        return First::Whole { length };
    }
    if !is_line_with(line, b"VA ") {
        return First::Refused;
    }
    match value_size(line, bytes.len() - length) {
        Some(more) => First::Whole {
            length: length + more,
        },
        None => First::Unread,
    }
}

// Returns the size of the value that a line announces, and of the end of its line, if they are within these bytes.
fn value_size(line: &[u8], bytes: usize) -> Option<usize>
    ensures within { IfSome result (λ more. more ≤ bytes) }
    ensures value { IfSome result (λ more. HasSize line.now more) }
{
    match read_size(line) {
        Some(size) if size <= VALUE_LIMIT as u64 && size + 2 <= bytes as u64 => {
            Some(size as usize + 2)
        }
        _ => None,
    }
}
