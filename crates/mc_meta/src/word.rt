//! The words of a line.
ghost use Rattle.std.specs.Prelude.{◌≡◌, ◌≢◌, ◌<◌, ◌≤◌, ◌+◌, ℕ, [], ◌∷◌, length, IfSome, IfNone, drop, take, get_or};
ghost use Rattle.mc_meta.specs.Words.{words, words_at, line_limit};
ghost use Rattle.mc_meta.specs.Meta.{is_key, span_of};

use crate::meta_line::Span;

// The most bytes of a key.
const KEY_LIMIT: usize = 250;

/// A word with its place, and the text after it with its own.
#[derive(Clone, Copy)]
pub(crate) struct Split<'a> {
    pub(crate) from: usize,
    pub(crate) word: &'a [u8],
    pub(crate) to: usize,
    pub(crate) rest: &'a [u8],
}

impl Split<'_> {
    /// Returns the place of the word.
    pub(crate) fn span(&self) -> Span
        requires places { self.now.to ≡ self.now.from + length self.now.word.now }
        ensures value { result
            ≡ span_of (record { from = self.now.from; text = self.now.word.now }) }
    {
        Span {
            from: self.from,
            to: self.to,
        }
    }
}

/// Returns the first word of a text that begins at a place of the line, and the text after it.
#[tactic(auto, using(crate::proofs::WordLemmas::words_none))]
pub(crate) fn next_word(at: usize, text: &[u8]) -> Option<Split<'_>>
    requires within { at + length text.now ≤ line_limit }
    ensures found { IfSome result (λ s. words_at at text.now
        ≡ record { from = s.from; text = s.word.now } ∷ words_at s.to s.rest.now) }
    ensures places { IfSome result (λ s. s.to ≡ s.from + length s.word.now) }
    ensures ends { IfSome result (λ s. s.to + length s.rest.now ≡ at + length text.now) }
    ensures shorter { IfSome result (λ s. length s.rest.now < length text.now) }
    ensures none { IfNone result (words_at at text.now ≡ []) }
{
    let spaces = count_spaces(text);
    if spaces == text.len() {
        return None;
    }
    let from = at + spaces;
    let words = &text[spaces..];
    let (word, rest) = words.split_at(word_length(words));
    Some(Split {
        from,
        word,
        to: from + word.len(),
        rest,
    })
}

/// Returns how many spaces a text begins with. The text after them has the same words at the same
/// places.
#[tactic(auto, using(crate::proofs::WordLemmas::words_past, crate::proofs::PlaceLemmas::same_words))]
pub fn count_spaces(text: &[u8]) -> usize
    ensures value { words (drop result text.now) ≡ words text.now }
    ensures places { (at : ℕ)
        → words_at (at + result) (drop result text.now) ≡ words_at at text.now }
    ensures within { result ≤ length text.now }
    ensures begun { result < length text.now → get_or text.now result 0 ≢ 32 }
{
    for count in 0..text.len() {
        if text[count] != b' ' {
            return count;
        }
    }
    text.len()
}

/// Returns the length of the word that a text begins with: the number of bytes before the first
/// space, or of all bytes if there is none. The other words are those of the text after it. Four
/// bytes are tested in a step, since keys are long.
#[tactic(auto, using(crate::proofs::WordLemmas::word_ends_at, crate::proofs::WordLemmas::ended_whole))]
pub fn word_length(text: &[u8]) -> usize
    requires some { 0 < length text.now }
    requires begun { get_or text.now 0 0 ≢ 32 }
    ensures some { 0 < result }
    ensures within { result ≤ length text.now }
    ensures value { words text.now ≡ take result text.now ∷ words (drop result text.now) }
    ensures places { (at : ℕ) → words_at at text.now
        ≡ record { from = at; text = take result text.now }
        ∷ words_at (at + result) (drop result text.now) }
{
    let mut start = 0;
    while text.len() - start >= 4 {
        if text[start] == b' ' {
            return start;
        }
        if text[start + 1] == b' ' {
            return start + 1;
        }
        if text[start + 2] == b' ' {
            return start + 2;
        }
        if text[start + 3] == b' ' {
            return start + 3;
        }
        start += 4;
    }
    for at in start..text.len() {
        if text[at] == b' ' {
            return at;
        }
    }
    text.len()
}

/// Checks whether a word has at most 250 bytes, and so is not too long for a key.
pub fn is_key(word: &[u8]) -> bool
    ensures value { result ≡ is_key word.now }
{
    word.len() <= KEY_LIMIT
}
