//! The key to which a frame gives an exptime.
ghost use Rattle.std.specs.Prelude.{◌≡◌, ◌<◌, [], ◌∷◌, length, IfSome, IfNone, option_copied};
ghost use Rattle.std.specs.List.{list_any};
ghost use Rattle.mc_meta.specs.Meta.{is_meta_name};
ghost use Rattle.mc_parse.specs.Number.{is_zero};
ghost use Rattle.mc_parse.specs.Words.{words};
ghost use Rattle.zy_verdict.specs.Losses.{is_lasting_flag, key_of_words, key_with_exptime};

use mc_meta::{count_spaces, word_length};
use zy_base::read_number;
use zy_frame::{Frame, Parts};

// A word, and the text after it.
#[derive(Clone, Copy)]
struct Split<'a> {
    word: &'a [u8],
    rest: &'a [u8],
}

/// Returns the key to which a frame gives an exptime other than 0, if it does.
pub(crate) fn key_with_exptime(frame: &Frame) -> Option<&[u8]>
    ensures value { option_copied result ≡ key_with_exptime frame.now }
{
    match frame.parts() {
        Parts::Block { line, .. } => key_of_line(line),
        _ => None,
    }
}

// Returns the key to which a storage line gives an exptime other than 0, if it does.
fn key_of_line(line: &[u8]) -> Option<&[u8]>
    ensures value { option_copied result ≡ key_of_words (words line.now) }
{
    let name = next_word(line)?;
    let key = next_word(name.rest)?;
    let size = next_word(key.rest)?;
    let exptime = next_word(size.rest)?;
    let lasts = if is_meta_name(name.word) {
        has_lasting_flag(size.rest)
    } else {
        !is_zero(exptime.word)
    };
    if lasts { Some(key.word) } else { None }
}

// Returns the first word of a text, and the text after it.
#[tactic(auto, using(mc_parse::proofs::WordLemmas::words_none))]
fn next_word(text: &[u8]) -> Option<Split<'_>>
    ensures found { IfSome result (λ s. words text.now ≡ s.word.now ∷ words s.rest.now) }
    ensures shorter { IfSome result (λ s. length s.rest.now < length text.now) }
    ensures none { IfNone result (words text.now ≡ []) }
{
    let spaces = count_spaces(text);
    if spaces == text.len() {
        return None;
    }
    let from = &text[spaces..];
    let (word, rest) = from.split_at(word_length(from));
    Some(Split { word, rest })
}

// Checks whether the word is the name of a meta command.
fn is_meta_name(word: &[u8]) -> bool
    ensures value { result ≡ is_meta_name word.now }
{
    word == b"mn".as_slice()
        || word == b"mg".as_slice()
        || word == b"ms".as_slice()
        || word == b"md".as_slice()
}

// Checks whether some word of a text is the flag `T` with an exptime other than 0.
fn has_lasting_flag(text: &[u8]) -> bool
    ensures value { result ≡ list_any is_lasting_flag (words text.now) }
{
    let mut rest = text;
    while let Some(split) = next_word(rest) {
        if is_lasting_flag(split.word) {
            return true;
        }
        rest = split.rest;
    }
    false
}

// Checks whether the word is the flag `T` with an exptime other than 0.
fn is_lasting_flag(word: &[u8]) -> bool
    ensures value { result ≡ is_lasting_flag word.now }
{
    match word {
        [letter, token @ ..] => *letter == b'T' && !is_zero(token),
        [] => false,
    }
}

// Checks whether the word is the number 0.
fn is_zero(word: &[u8]) -> bool
    ensures value { result ≡ is_zero word.now }
{
    match read_number(word) {
        Some(number) => number == 0,
        None => false,
    }
}
