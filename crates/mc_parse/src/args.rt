//! The words after a name.
ghost use Rattle.std.specs.Prelude.{◌≡◌, ◌<◌, ◌≤◌, length, IfSome, MatchOption};
ghost use Rattle.mc_parse.specs.Words.{words};
ghost use Rattle.mc_parse.specs.Line.{texts, words_in};

use crate::word::next_word;

/// The words after a name, three at most.
#[derive(Clone, Copy)]
pub(crate) struct Args<'a> {
    words: [&'a [u8]; 3],
    count: usize,
}

impl<'a> Args<'a> {
    /// Returns the words of a text; `None` if and only if it has more than three.
    pub(crate) fn of(text: &'a [u8]) -> Option<Args<'a>>
        ensures within { IfSome result (λ args. args.count ≤ 3) }
        ensures value { MatchOption result (3 < length (words text.now)) (λ args. words_in args
            ≡ words text.now) }
    {
        let mut words = [&text[..0]; 3];
        let mut count = 0;
        let mut rest = text;
        while let Some(split) = next_word(rest) {
            if count >= 3 {
                return None;
            }
            words[count] = split.word;
            count += 1;
            rest = split.rest;
        }
        Some(Args { words, count })
    }

    /// Returns the words.
    pub(crate) fn words(&self) -> &[&'a [u8]]
        requires within { self.now.count ≤ 3 }
        ensures value { texts result.now ≡ words_in self.now }
    {
        &self.words[..self.count]
    }
}
