//! What a line asks for, and what a name asks for with the words after it.
ghost use Rattle.std.specs.Prelude.{◌≡◌, option_map};
ghost use Rattle.mc_parse.specs.Form.{number_fault, sizes_of, with_zero};
ghost use Rattle.mc_parse.specs.Form.{delete_words, count_words, verbosity_words, ask_of, ask_seen};
ghost use Rattle.mc_parse.specs.Line.{texts, HasFew};
ghost use Rattle.mc_parse.specs.Parsed.{stored_ask};

use crate::error_line::ErrorLine;
use crate::name::Name;
use crate::number::is_zero;
use crate::sizes::Sizes;
use crate::verb::Verb;
use mc_meta::{is_exptime, read_small_number};
use zy_base::read_number;

/// What a line that is no retrieval asks for. Its words are parts of the line.
#[derive(Clone, Copy)]
pub(crate) enum Ask<'a> {
    /// Store the block.
    Store {
        verb: Verb,
        key: &'a [u8],
        flags: u32,
        bytes: u32,
    },
    /// Store the block if the item has this unique.
    Cas {
        key: &'a [u8],
        flags: u32,
        bytes: u32,
        unique: u64,
    },
    /// Remove the item.
    Delete {
        key: &'a [u8],
    },
    /// Count the value.
    Count {
        key: &'a [u8],
        up: bool,
        amount: u64,
    },
    /// Report the version.
    Version,
    /// Set the verbosity.
    Verbosity,
    /// Remove all items.
    Flush,
    /// End the connection.
    Quit,
    /// Report the counts.
    Stats,
}

/// Reads what a name asks for with the few words that follow; `None` if a number is bad.
pub(crate) fn read_ask<'a>(name: Name, words: &[&'a [u8]]) -> Option<Ask<'a>>
    requires few { HasFew name }
    ensures value { option_map ask_seen result ≡ ask_of name (texts words.now) }
{
    match name {
        Name::Store { .. } | Name::Cas | Name::Get { .. } => unreachable!(),
        Name::Delete => read_delete(words),
        Name::Count { up } => read_count(up, words),
        Name::Version => Some(Ask::Version),
        Name::Verbosity => read_verbosity(words),
        Name::Flush => read_zero(Ask::Flush, words),
        Name::Quit => Some(Ask::Quit),
        Name::Stats => Some(Ask::Stats),
    }
}

/// Returns the fault of a bad number.
pub(crate) fn number_fault(name: Name) -> ErrorLine
    ensures value { result ≡ number_fault name }
{
    match name {
        Name::Count { .. } => ErrorLine::BadDelta,
        _ => ErrorLine::BadLine,
    }
}

/// Returns what a storage line asks for: a verb stores as it says, and any other name is `cas`.
pub(crate) fn stored_ask(name: Name, key: &[u8], flags: u32, bytes: u32, unique: u64) -> Ask<'_>
    ensures value { ask_seen result ≡ stored_ask name key.now flags bytes unique }
{
    match name {
        Name::Store { verb } => Ask::Store {
            verb,
            key,
            flags,
            bytes,
        },
        _ => Ask::Cas {
            key,
            flags,
            bytes,
            unique,
        },
    }
}

/// Reads flags and bytes, between which is an exptime.
pub(crate) fn read_sizes(flags: &[u8], exptime: &[u8], bytes: &[u8]) -> Option<Sizes>
    ensures value { result ≡ sizes_of flags.now exptime.now bytes.now }
{
    if !is_exptime(exptime) {
        return None;
    }
    match (read_small_number(flags), read_small_number(bytes)) {
        (Some(flags), Some(bytes)) => Some(Sizes { flags, bytes }),
        _ => None,
    }
}

// Reads a key, and a zero that may follow it.
fn read_delete<'a>(words: &[&'a [u8]]) -> Option<Ask<'a>>
    ensures value { option_map ask_seen result ≡ delete_words (texts words.now) }
{
    match words {
        [key, rest @ ..] => read_zero(Ask::Delete { key }, rest),
        [] => None,
    }
}

// Answers `ask` if no word follows, or a zero.
fn read_zero<'a>(ask: Ask<'a>, words: &[&[u8]]) -> Option<Ask<'a>>
    ensures value { option_map ask_seen result ≡ with_zero (ask_seen ask.entry) (texts words.now) }
{
    match words {
        [] => Some(ask),
        [zero] if is_zero(zero) => Some(ask),
        _ => None,
    }
}

// Reads a key and an amount.
fn read_count<'a>(up: bool, words: &[&'a [u8]]) -> Option<Ask<'a>>
    ensures value { option_map ask_seen result ≡ count_words up (texts words.now) }
{
    match words {
        [key, amount] => match read_number(amount) {
            Some(amount) => Some(Ask::Count { key, up, amount }),
            None => None,
        },
        _ => None,
    }
}

// Reads a number, which has no effect.
fn read_verbosity<'a>(words: &[&'a [u8]]) -> Option<Ask<'a>>
    ensures value { option_map ask_seen result ≡ verbosity_words (texts words.now) }
{
    match words {
        [number] if read_small_number(number).is_some() => Some(Ask::Verbosity),
        _ => None,
    }
}
