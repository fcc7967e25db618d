//! Words that are allowed after a command: ASCII text, and options if they begin with a hyphen.
ghost use Rattle.std.specs.Prelude.{◌≡◌, true, false, MatchOption};
ghost use Rattle.zy_command_line.specs.Grammar.{is_ascii, is_option, has_hyphen, is_plain};

use std::str;

/// Returns the word as text, if it is plain.
#[tactic(auto, using(crate::proofs::Ascii::ascii_is_text))]
pub(crate) fn plain_text(word: &[u8]) -> Option<&str>
    ensures value { MatchOption result (is_plain word.now ≡ false) (λ text. (text.now ≡ word.now)
        × (is_plain word.now ≡ true)) }
{
    if !is_plain(word) {
        return None;
    }
    match str::from_utf8(word) {
        Ok(text) => Some(text),
        Err(_) => unreachable!(),
    }
}

fn is_plain(word: &[u8]) -> bool
    ensures value { result ≡ is_plain word.now }
{
    is_ascii(word) && (is_option(word) || !has_hyphen(word))
}

#[tactic(auto, using(std::proofs::lemmas::List::drop_more))]
fn is_ascii(word: &[u8]) -> bool
    ensures value { result ≡ is_ascii word.now }
{
    for byte in word {
        if *byte >= 128 {
            return false;
        }
    }
    true
}

// Checks whether the word has a byte after two hyphens.
fn is_option(word: &[u8]) -> bool
    ensures value { result ≡ is_option word.now }
{
    match word {
        [first, second, _, ..] => *first == b'-' && *second == b'-',
        _ => false,
    }
}

fn has_hyphen(word: &[u8]) -> bool
    ensures value { result ≡ has_hyphen word.now }
{
    match word {
        [first, ..] => *first == b'-',
        [] => false,
    }
}
