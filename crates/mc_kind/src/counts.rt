//! The answer to `stats`.
ghost use Rattle.std.specs.Prelude.{codes};
ghost use Rattle.mc_parse.specs.declared.command.Command.{Command};
ghost use Rattle.mc_kind.specs.First.{IsFirst};

use crate::first::First;
use crate::piece::is_end;
use mc_answered::{is_error_line, is_line_with, line_length, text_from};

/// Finds where lines of counts and the end of them end.
pub(crate) fn first_counts(bytes: &[u8]) -> First
    ensures value { IsFirst Command.Stats bytes.now result }
{
    let mut at = 0;
    for _ in 0..bytes.len() {
        let rest = text_from(bytes, at);
        let Some(length) = line_length(rest) else {
            return First::Unread;
        };
        let line = &rest[..length];
        if is_end(line) {
            return First::Whole {
                length: at + length,
            };
        }
        if !is_line_with(line, b"STAT ") {
            return if is_error_line(line) {
                First::Other
            } else {
                First::Refused
            };
        }
        at += length;
    }
    First::Unread
}
