//! What a line says as a meta command.
ghost use Rattle.std.specs.Prelude.{◌≡◌, ◌≤◌, ◌+◌, length, Option, IfSome};
ghost use Rattle.mc_meta.specs.Words.{words_at, line_limit};
ghost use Rattle.mc_meta.specs.Key.{key_of, IsKeyIn};
ghost use Rattle.mc_meta.specs.Meta.{meta_line, line_of, noop_line, get_line, set_line, delete_line, set_with, agrees};

use crate::flags::{Flags, read_flags};
use crate::meta_line::MetaLine;
use crate::number::read_small_number;
use crate::word::{Split, is_key, next_word};

/// Reads what a line says as a meta command. The line is given without the bytes that end it. Its
/// key is a word of the line. Takes no memory.
pub fn read_meta(line: &[u8]) -> MetaLine
    requires within { length line.now ≤ line_limit }
    ensures value { result ≡ meta_line line.now }
    ensures key { IfSome (key_of result) (IsKeyIn line.now) }
{
    match next_word(0, line) {
        Some(name) => read_after(name.word, name.to, name.rest),
        None => MetaLine::Other,
    }
}

// Reads what a line with this first word says, by the text after the word.
fn read_after(name: &[u8], at: usize, text: &[u8]) -> MetaLine
    requires within { at + length text.now ≤ line_limit }
    ensures value { result ≡ line_of name.now (words_at at text.now) }
{
    if name == b"mn".as_slice() {
        read_noop(at, text)
    } else if name == b"mg".as_slice() {
        read_get(at, text)
    } else if name == b"ms".as_slice() {
        read_set(at, text)
    } else if name == b"md".as_slice() {
        read_delete(at, text)
    } else {
        MetaLine::Other
    }
}

// Reads what comes after `mn`, which must be no word.
fn read_noop(at: usize, text: &[u8]) -> MetaLine
    requires within { at + length text.now ≤ line_limit }
    ensures value { result ≡ noop_line (words_at at text.now) }
{
    match next_word(at, text) {
        Some(_) => MetaLine::WrongCount,
        None => MetaLine::Noop,
    }
}

// Reads a key and flags after `mg`.
fn read_get(at: usize, text: &[u8]) -> MetaLine
    requires within { at + length text.now ≤ line_limit }
    ensures value { result ≡ get_line (words_at at text.now) }
{
    let Some(key) = next_word(at, text) else {
        return MetaLine::WrongCount;
    };
    if !is_key(key.word) {
        return MetaLine::Bad;
    }
    match read_flags(b"vkfcsq", key.to, key.rest) {
        Some(said) => MetaLine::Get {
            key: key.span(),
            flags: said.marks,
        },
        None => MetaLine::Bad,
    }
}

// Reads a key and flags after `md`.
fn read_delete(at: usize, text: &[u8]) -> MetaLine
    requires within { at + length text.now ≤ line_limit }
    ensures value { result ≡ delete_line (words_at at text.now) }
{
    let Some(key) = next_word(at, text) else {
        return MetaLine::WrongCount;
    };
    if !is_key(key.word) {
        return MetaLine::Bad;
    }
    match read_flags(b"kq", key.to, key.rest) {
        Some(said) => MetaLine::Delete {
            key: key.span(),
            flags: said.marks,
        },
        None => MetaLine::Bad,
    }
}

// Reads a key, a datalen and flags after `ms`.
fn read_set(at: usize, text: &[u8]) -> MetaLine
    requires within { at + length text.now ≤ line_limit }
    ensures value { result ≡ set_line (words_at at text.now) }
{
    let Some(key) = next_word(at, text) else {
        return MetaLine::WrongCount;
    };
    let Some(datalen) = next_word(key.to, key.rest) else {
        return MetaLine::WrongCount;
    };
    if !is_key(key.word) {
        return MetaLine::Bad;
    }
    match read_flags(b"FCMTkq", datalen.to, datalen.rest) {
        Some(said) => set_with(key, read_small_number(datalen.word), said),
        None => MetaLine::Bad,
    }
}

// Returns what the line of a storage command says, by its key, its datalen and its flags.
fn set_with(key: Split<'_>, bytes: Option<u32>, said: Flags) -> MetaLine
    requires places { key.to ≡ key.from + length key.word.now }
    ensures value { result ≡ set_with
        (record { from = key.entry.from; text = key.entry.word.now }) bytes (Option.Some said) }
{
    let Some(bytes) = bytes else {
        return MetaLine::Bad;
    };
    if !agrees(said.unique, said.mode) {
        return MetaLine::Bad;
    }
    MetaLine::Set {
        key: key.span(),
        bytes,
        flags: said.flags,
        unique: said.unique,
        mode: said.mode,
        marks: said.marks,
    }
}

// Checks whether there is no unique, or the mode is one that goes with it.
fn agrees(unique: Option<u64>, mode: u8) -> bool
    ensures value { result ≡ agrees unique mode }
{
    match unique {
        Some(_) => mode == b'S',
        None => true,
    }
}
