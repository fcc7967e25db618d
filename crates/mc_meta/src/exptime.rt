//! The exptimes of a line, which are checked and have no effect.
ghost use Rattle.std.specs.Prelude.{◌≡◌};
ghost use Rattle.std.specs.Str.{all_ascii_digits};
ghost use Rattle.mc_meta.specs.Number.{is_exptime, without_sign};

/// Checks whether a word is an exptime: 1 to 19 digits, which a minus sign may precede.
pub fn is_exptime(word: &[u8]) -> bool
    ensures value { result ≡ is_exptime word.now }
{
    let digits = without_sign(word);
    !digits.is_empty() && digits.len() <= 19 && are_digits(digits)
}

// Returns the word without the minus sign that it may begin with.
fn without_sign(word: &[u8]) -> &[u8]
    ensures value { result.now ≡ without_sign word.now }
{
    if !word.is_empty() && word[0] == b'-' {
        &word[1..]
    } else {
        word
    }
}

// Checks whether all bytes are digits.
fn are_digits(text: &[u8]) -> bool
    ensures value { result ≡ all_ascii_digits text.now }
{
    for byte in text {
        if !byte.is_ascii_digit() {
            return false;
        }
    }
    true
}
