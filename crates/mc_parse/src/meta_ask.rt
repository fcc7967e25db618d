//! What a meta line asks for.
ghost use Rattle.std.specs.Prelude.{◌≡◌, ◌≤◌, length};
ghost use Rattle.mc_meta.specs.Meta.{meta_line};
ghost use Rattle.mc_meta.specs.Key.{bytes_in, IsKeyIn};
ghost use Rattle.mc_parse.specs.Words.{line_limit};
ghost use Rattle.mc_parse.specs.MetaAsk.{meta_ask_seen, verb_of, storing_ask};
ghost use Rattle.mc_parse.specs.Form.{meta_form};
ghost use Rattle.mc_parse.specs.Line.{meta_seen};

use crate::error_line::ErrorLine;
use crate::verb::Verb;
use mc_meta::{Letters, MetaLine, Span, read_meta};

/// What a meta line asks for. Its key is a part of the line.
#[derive(Drop)]
pub(crate) enum MetaAsk<'a> {
    /// Nothing but an answer.
    Noop,
    /// Get the item.
    Get {
        key: &'a [u8],
        flags: Letters,
    },
    /// Store the block.
    Store {
        verb: Verb,
        key: &'a [u8],
        flags: u32,
        bytes: u32,
        marks: Letters,
    },
    /// Store the block if the item has this unique.
    Cas {
        key: &'a [u8],
        flags: u32,
        bytes: u32,
        unique: u64,
        marks: Letters,
    },
    /// Remove the item.
    Delete {
        key: &'a [u8],
        flags: Letters,
    },
}

/// Reads what a line asks for as a meta command, or its fault.
#[inline(never)]
pub(crate) fn read_meta_ask(line: &[u8]) -> Result<MetaAsk<'_>, ErrorLine>
    requires within { length line.now ≤ line_limit }
    ensures value { meta_seen result ≡ meta_form line.now (meta_line line.now) }
{
    match read_meta(line) {
        MetaLine::Other | MetaLine::WrongCount => Err(ErrorLine::Unknown),
        MetaLine::Bad => Err(ErrorLine::BadLine),
        MetaLine::Noop => Ok(MetaAsk::Noop),
        MetaLine::Get { key, flags } => Ok(MetaAsk::Get {
            key: part(line, key),
            flags,
        }),
        MetaLine::Set {
            key,
            bytes,
            flags,
            unique,
            mode,
            marks,
        } => Ok(storing_ask(part(line, key), bytes, flags, unique, mode, marks)),
        MetaLine::Delete { key, flags } => Ok(MetaAsk::Delete {
            key: part(line, key),
            flags,
        }),
    }
}

// Returns what a storage line asks for, by its unique and its mode.
fn storing_ask(
    key: &[u8],
    bytes: u32,
    flags: u32,
    unique: Option<u64>,
    mode: u8,
    marks: Letters,
) -> MetaAsk<'_>
    ensures value { meta_ask_seen result ≡ storing_ask key.now bytes flags unique mode marks }
{
    match unique {
        Some(unique) => MetaAsk::Cas {
            key,
            flags,
            bytes,
            unique,
            marks,
        },
        None => MetaAsk::Store {
            verb: verb_of(mode),
            key,
            flags,
            bytes,
            marks,
        },
    }
}

// Returns the verb of a mode, which is a capital.
fn verb_of(mode: u8) -> Verb
    ensures value { result ≡ verb_of mode }
{
    match mode {
        b'E' => Verb::Add,
        b'A' => Verb::Append,
        b'P' => Verb::Prepend,
        b'R' => Verb::Replace,
        _ => Verb::Set,
    }
}

// Returns the bytes of a key in its line.
fn part(line: &[u8], key: Span) -> &[u8]
    requires within { IsKeyIn line.now key }
    ensures value { result.now ≡ bytes_in line.now key }
{
    &line[key.from..key.to]
}
