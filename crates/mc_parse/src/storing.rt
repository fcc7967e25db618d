//! What the text after the name of a storage command says, read from word to word.
ghost use Rattle.std.specs.Prelude.{◌≡◌, ◌<◌, ◌∷◌, length, IfOk, IfSome, IfNone};
ghost use Rattle.mc_parse.specs.declared.name.Name.TheVariants as Names;
ghost use Rattle.mc_parse.specs.Words.{words};
ghost use Rattle.mc_parse.specs.Form.{form_after};
ghost use Rattle.mc_parse.specs.Storing.{Parts, quiet_by, storing_seen};

use crate::asking::read_sizes;
use crate::error_line::ErrorLine;
use crate::sizes::Sizes;
use crate::verb::Verb;
use crate::word::{is_noreply, next_word};
use mc_meta::is_key;
use zy_base::read_number;

/// What a storage line says.
#[derive(Clone, Copy)]
pub(crate) struct Storing<'a> {
    pub(crate) key: &'a [u8],
    /// The text after the key.
    pub(crate) after: &'a [u8],
    pub(crate) flags: u32,
    pub(crate) bytes: u32,
    /// 0 if the line has none.
    pub(crate) unique: u64,
    pub(crate) quiet: bool,
}

// The key, flags, exptime and bytes of a storage line, and the text after the key and after them all.
#[derive(Clone, Copy)]
struct FourWords<'a> {
    key: &'a [u8],
    after: &'a [u8],
    flags: &'a [u8],
    exptime: &'a [u8],
    bytes: &'a [u8],
    rest: &'a [u8],
}

/// Reads what the text after a verb says, or its fault.
#[tactic(auto, using(crate::proofs::StoringLemmas::store_few, crate::proofs::StoringLemmas::store_says))]
pub(crate) fn read_store(verb: Verb, text: &[u8]) -> Result<Storing<'_>, ErrorLine>
    ensures value { storing_seen (Names.Store verb) result ≡ form_after (Names.Store verb) (words text.now) }
    ensures parts { IfOk result (λ said. Parts text.now said.key.now said.after.now) }
{
    let Some(four) = four_words(text) else {
        return Err(ErrorLine::Unknown);
    };
    let Some(quiet) = quiet_by(four.rest) else {
        return Err(ErrorLine::Unknown);
    };
    if !is_key(four.key) {
        return Err(ErrorLine::BadLine);
    }
    match read_sizes(four.flags, four.exptime, four.bytes) {
        Some(Sizes { flags, bytes }) => Ok(Storing {
            key: four.key,
            after: four.after,
            flags,
            bytes,
            unique: 0,
            quiet,
        }),
        None => Err(ErrorLine::BadLine),
    }
}

/// Reads what the text after `cas` says, or its fault.
#[tactic(auto, using(crate::proofs::StoringLemmas::cas_few, crate::proofs::StoringLemmas::cas_says))]
pub(crate) fn read_cas(text: &[u8]) -> Result<Storing<'_>, ErrorLine>
    ensures value { storing_seen Names.Cas result ≡ form_after Names.Cas (words text.now) }
    ensures parts { IfOk result (λ said. Parts text.now said.key.now said.after.now) }
{
    let Some(four) = four_words(text) else {
        return Err(ErrorLine::Unknown);
    };
    let Some(unique) = next_word(four.rest) else {
        return Err(ErrorLine::Unknown);
    };
    let Some(quiet) = quiet_by(unique.rest) else {
        return Err(ErrorLine::Unknown);
    };
    if !is_key(four.key) {
        return Err(ErrorLine::BadLine);
    }
    match (
        read_sizes(four.flags, four.exptime, four.bytes),
        read_number(unique.word),
    ) {
        (Some(Sizes { flags, bytes }), Some(unique)) => Ok(Storing {
            key: four.key,
            after: four.after,
            flags,
            bytes,
            unique,
            quiet,
        }),
        _ => Err(ErrorLine::BadLine),
    }
}

// Returns the first four words of a text; `None` if it has fewer.
#[inline(always)]
fn four_words(text: &[u8]) -> Option<FourWords<'_>>
    ensures some { IfSome result (λ four. words text.now
        ≡ four.key.now ∷ four.flags.now ∷ four.exptime.now ∷ four.bytes.now ∷ words four.rest.now) }
    ensures parts { IfSome result (λ four. Parts text.now four.key.now four.after.now) }
    ensures none { IfNone result (length (words text.now) < 4) }
{
    let Some(key) = next_word(text) else {
        return None;
    };
    let Some(flags) = next_word(key.rest) else {
        return None;
    };
    let Some(exptime) = next_word(flags.rest) else {
        return None;
    };
    let Some(bytes) = next_word(exptime.rest) else {
        return None;
    };
    Some(FourWords {
        key: key.word,
        after: key.rest,
        flags: flags.word,
        exptime: exptime.word,
        bytes: bytes.word,
        rest: bytes.rest,
    })
}

// Returns true if noreply is the only word of a text, false if it has no word, and `None` if it has
// others.
fn quiet_by(text: &[u8]) -> Option<bool>
    ensures value { result ≡ quiet_by (words text.now) }
{
    let Some(word) = next_word(text) else {
        return Some(false);
    };
    if is_noreply(word.word) && next_word(word.rest).is_none() {
        Some(true)
    } else {
        None
    }
}
