//! The answers to meta commands.
ghost use Rattle.std.specs.Prelude.{◌≡◌, ◌↔◌, true};
ghost use Rattle.mc_parse.specs.declared.command.Command.TheVariants as Commands;
ghost use Rattle.mc_answers.specs.Answer.{IsCuttable};
ghost use Rattle.mc_answers.specs.Cut.{IsLine};
ghost use Rattle.mc_kind.specs.First.{IsFirst};
ghost use Rattle.mc_kind.specs.Marked.{shows_value, IsCoded, IsSet};

use crate::first::First;
use crate::keys::is_word;
use crate::shown::first_shown;
use mc_answered::{is_error_line, is_line_with, line_length, stores};
use mc_parse::Meta;

/// Finds where the answer to a meta command ends.
pub(crate) fn first_meta(meta: &Meta, bytes: &[u8]) -> First
    ensures value { IsFirst (Commands.Meta meta.now) bytes.now result }
{
    if !is_plain(meta) {
        return First::Other;
    }
    if shows_value(meta) {
        return first_shown(meta, bytes);
    }
    let Some(length) = line_length(bytes) else {
        return First::Unread;
    };
    let line = &bytes[..length];
    if is_error_line(line) {
        if is_set(meta) && is_line_with(line, b"SERVER_ERROR") {
            return First::Whole { length };
        }
        return First::Other;
    }
    if is_coded(meta, line) {
        First::Whole { length }
    } else {
        First::Refused
    }
}

// Checks whether no flag hides the answers to a command, so that they are cut in one way.
fn is_plain(meta: &Meta) -> bool
    ensures value { result ≡ true → IsCuttable (Commands.Meta meta.now) }
{
    match meta {
        Meta::Noop => true,
        Meta::Get { key, flags } => is_word(key.bytes()) && !flags.has(b'q'),
        Meta::Set { key, call, marks } => {
            is_word(key.bytes()) && stores(call.kind()) && !marks.has(b'q')
        }
        Meta::Delete { key, flags } => is_word(key.bytes()) && !flags.has(b'q'),
    }
}

// Checks whether the answer to a command may show a value.
fn shows_value(meta: &Meta) -> bool
    ensures value { result ≡ shows_value meta.now }
{
    match meta {
        Meta::Get { flags, .. } => flags.has(b'v'),
        _ => false,
    }
}

// Checks whether a command stores.
fn is_set(meta: &Meta) -> bool
    ensures value { result ≡ true → IsSet meta.now }
{
    matches!(meta, Meta::Set { .. })
}

// Checks whether a line begins with a code that answers a command.
fn is_coded(meta: &Meta, line: &[u8]) -> bool
    requires line { IsLine line.now }
    ensures value { (result ≡ true) ↔ IsCoded meta.now line.now }
{
    match meta {
        Meta::Noop => is_line_with(line, b"MN"),
        Meta::Get { .. } => is_line_with(line, b"HD") || is_line_with(line, b"EN"),
        Meta::Set { .. } => {
            is_line_with(line, b"HD")
                || is_line_with(line, b"NS")
                || is_line_with(line, b"EX")
                || is_line_with(line, b"NF")
        }
        Meta::Delete { .. } => is_line_with(line, b"HD") || is_line_with(line, b"NF"),
    }
}
