//! The names of commands, how many words may follow each, and whether the first of them is a key.
ghost use Rattle.std.specs.Prelude.{◌≡◌};
ghost use Rattle.std.specs.Str.{bytes_eq};
ghost use Rattle.mc_parse.specs.Name.{name_among, name_of, which_keys, is_one_word, arity_of};
ghost use Rattle.mc_parse.specs.Line.{names_of_length};

use crate::arity::{Arity, from_to};
use crate::verb::Verb;

/// The name that a line begins with.
#[derive(Clone, Copy)]
pub enum Name {
    /// `set`, `add`, `replace`, `append` or `prepend`.
    Store { verb: Verb },
    /// `cas`.
    Cas,
    /// `get`, or `gets` if uniques are asked for.
    Get { unique: bool },
    /// `delete`.
    Delete,
    /// `incr` or `decr`.
    Count { up: bool },
    /// `version`.
    Version,
    /// `verbosity`.
    Verbosity,
    /// `flush_all`.
    Flush,
    /// `quit`.
    Quit,
    /// `stats`.
    Stats,
}

/// Returns the name that a word is.
#[inline(always)]
pub(crate) fn name_of(word: &[u8]) -> Option<Name>
    ensures value { result ≡ name_of word.now }
{
    match word.len() {
        3 => name_of_three(word),
        4 => name_of_four(word),
        5 => name_of_five(word),
        6 => name_of_six(word),
        7 => name_of_seven(word),
        9 => name_of_nine(word),
        _ => None,
    }
}

/// Returns how many words may follow a name.
pub(crate) fn arity_of(name: Name) -> Arity
    ensures value { result ≡ arity_of name }
{
    match name {
        Name::Store { .. } => from_to(4, 5),
        Name::Cas => from_to(5, 6),
        Name::Get { .. } => Arity {
            least: 1,
            most: None,
            noreply: false,
        },
        Name::Delete => from_to(1, 3),
        Name::Count { .. } => from_to(2, 3),
        Name::Verbosity => from_to(1, 2),
        Name::Flush => from_to(0, 2),
        Name::Version | Name::Quit | Name::Stats => Arity {
            least: 0,
            most: Some(0),
            noreply: false,
        },
    }
}

/// Checks whether the first word after a name is a key, and no other is.
pub(crate) fn has_one_key(name: Name) -> bool
    ensures value { result ≡ is_one_word (which_keys name) }
{
    match name {
        Name::Store { .. } | Name::Cas | Name::Delete | Name::Count { .. } => true,
        _ => false,
    }
}

// Returns the name that a word of three bytes is.
fn name_of_three(word: &[u8]) -> Option<Name>
    ensures value { result ≡ name_among word.now (names_of_length 3) }
{
    if is(word, b"set") {
        Some(Name::Store { verb: Verb::Set })
    } else if is(word, b"add") {
        Some(Name::Store { verb: Verb::Add })
    } else if is(word, b"cas") {
        Some(Name::Cas)
    } else if is(word, b"get") {
        Some(Name::Get { unique: false })
    } else {
        None
    }
}

// Returns the name that a word of four bytes is.
fn name_of_four(word: &[u8]) -> Option<Name>
    ensures value { result ≡ name_among word.now (names_of_length 4) }
{
    if is(word, b"gets") {
        Some(Name::Get { unique: true })
    } else if is(word, b"incr") {
        Some(Name::Count { up: true })
    } else if is(word, b"decr") {
        Some(Name::Count { up: false })
    } else if is(word, b"quit") {
        Some(Name::Quit)
    } else {
        None
    }
}

// Returns the name that a word of five bytes is.
fn name_of_five(word: &[u8]) -> Option<Name>
    ensures value { result ≡ name_among word.now (names_of_length 5) }
{
    if is(word, b"stats") {
        Some(Name::Stats)
    } else {
        None
    }
}

// Returns the name that a word of six bytes is.
fn name_of_six(word: &[u8]) -> Option<Name>
    ensures value { result ≡ name_among word.now (names_of_length 6) }
{
    if is(word, b"append") {
        Some(Name::Store { verb: Verb::Append })
    } else if is(word, b"delete") {
        Some(Name::Delete)
    } else {
        None
    }
}

// Returns the name that a word of seven bytes is.
fn name_of_seven(word: &[u8]) -> Option<Name>
    ensures value { result ≡ name_among word.now (names_of_length 7) }
{
    if is(word, b"replace") {
        Some(Name::Store {
            verb: Verb::Replace,
        })
    } else if is(word, b"prepend") {
        Some(Name::Store {
            verb: Verb::Prepend,
        })
    } else if is(word, b"version") {
        Some(Name::Version)
    } else {
        None
    }
}

// Returns the name that a word of nine bytes is.
fn name_of_nine(word: &[u8]) -> Option<Name>
    ensures value { result ≡ name_among word.now (names_of_length 9) }
{
    if is(word, b"verbosity") {
        Some(Name::Verbosity)
    } else if is(word, b"flush_all") {
        Some(Name::Flush)
    } else {
        None
    }
}

// Checks whether a word is this text.
fn is(word: &[u8], text: &[u8]) -> bool
    ensures value { result ≡ bytes_eq word.now text.now }
{
    word == text
}
