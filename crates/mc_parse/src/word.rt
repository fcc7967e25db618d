//! The words of a line.
ghost use Rattle.std.specs.Prelude.{◌≡◌, ◌<◌, [], ◌∷◌, length, IfSome, IfNone};
ghost use Rattle.mc_parse.specs.Words.{words, is_noreply};
ghost use Rattle.mc_parse.specs.Storing.{Parts};

use mc_meta::{count_spaces, word_length};

/// A word, and the text after it.
#[derive(Clone, Copy)]
pub(crate) struct Split<'a> {
    pub(crate) word: &'a [u8],
    pub(crate) rest: &'a [u8],
}

/// Returns the first word of a text, and the text after it.
#[tactic(auto, using(crate::proofs::WordLemmas::words_none))]
pub(crate) fn next_word(text: &[u8]) -> Option<Split<'_>>
    ensures found { IfSome result (λ s. words text.now ≡ s.word.now ∷ words s.rest.now) }
    ensures parts { IfSome result (λ s. Parts text.now s.word.now s.rest.now) }
    ensures shorter { IfSome result (λ s. length s.rest.now < length text.now) }
    ensures none { IfNone result (words text.now ≡ []) }
{
    let spaces = count_spaces(text);
    if spaces == text.len() {
        return None;
    }
    let from = &text[spaces..];
    let (word, rest) = from.split_at(word_length(from));
    Some(Split { word, rest })
}

/// Checks whether a word is the one that asks for no answer.
pub(crate) fn is_noreply(word: &[u8]) -> bool
    ensures value { result ≡ is_noreply word.now }
{
    word == b"noreply".as_slice()
}
