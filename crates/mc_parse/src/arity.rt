//! How many words may follow a name.
ghost use Rattle.std.specs.Prelude.{◌≡◌};
ghost use Rattle.mc_parse.specs.Arity.{from_to, has_count, ends_in_noreply, lacks_noreply, asks_silence};
ghost use Rattle.mc_parse.specs.Line.{texts};

use crate::word::is_noreply;

/// How many words may follow a name, and whether the last of the largest number must be noreply.
#[derive(Clone, Copy)]
pub(crate) struct Arity {
    pub(crate) least: usize,
    /// `None`: any number may follow.
    pub(crate) most: Option<usize>,
    pub(crate) noreply: bool,
}

impl Arity {
    /// Checks whether this number of words may follow.
    pub(crate) fn has_count(&self, count: usize) -> bool
        ensures value { result ≡ has_count self.now count }
    {
        self.least <= count
            && match self.most {
                Some(most) => count <= most,
                None => true,
            }
    }

    /// Checks whether the largest allowed number of words follows and the last is not noreply, as
    /// it must be.
    pub(crate) fn lacks_noreply(&self, words: &[&[u8]]) -> bool
        ensures value { result ≡ lacks_noreply self.now (texts words.now) }
    {
        self.noreply && self.most == Some(words.len()) && !ends_in_noreply(words)
    }

    /// Checks whether more words follow than are required, and the last is noreply.
    pub(crate) fn asks_silence(&self, words: &[&[u8]]) -> bool
        ensures value { result ≡ asks_silence self.now (texts words.now) }
    {
        self.noreply && self.least < words.len() && ends_in_noreply(words)
    }
}

// Checks whether the last word is noreply.
fn ends_in_noreply(words: &[&[u8]]) -> bool
    ensures value { result ≡ ends_in_noreply (texts words.now) }
{
    match words {
        [.., last] => is_noreply(last),
        [] => false,
    }
}

/// Allows `least` to `most` words; if there are `most`, the last must be noreply.
pub(crate) fn from_to(least: usize, most: usize) -> Arity
    ensures value { result ≡ from_to least most }
{
    Arity {
        least,
        most: Some(most),
        noreply: true,
    }
}
