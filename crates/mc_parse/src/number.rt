//! The numbers of a line.
ghost use Rattle.std.specs.Prelude.{◌≡◌};
ghost use Rattle.mc_parse.specs.Number.{is_zero};

use zy_base::read_number;

/// Checks whether a word is the number 0.
pub(crate) fn is_zero(word: &[u8]) -> bool
    ensures value { result ≡ is_zero word.now }
{
    match read_number(word) {
        Some(number) => number == 0,
        None => false,
    }
}
