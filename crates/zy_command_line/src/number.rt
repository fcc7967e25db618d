//! Numbers as values of options.
ghost use Rattle.std.specs.Prelude.{◌≡◌, option_map};
ghost use Rattle.zy_command_line.specs.Request.{number_in, number_or};

use zy_base::read_number;

/// Returns a number of at most ten digits, from `low` to `high`.
pub(crate) fn number_in(low: u32, high: u32, word: &str) -> Option<u32>
    ensures value { result ≡ number_in low high word.now }
{
    if word.len() > 10 {
        return None;
    }
    match read_number(word.as_bytes()) {
        Some(number) if low as u64 <= number && number <= high as u64 => Some(number as u32),
        _ => None,
    }
}

/// Returns the number, or its default if the option is not given.
pub(crate) fn number_or(low: u32, high: u32, default: u32, word: Option<&str>) -> Option<u32>
    ensures value { result ≡ number_or low high default (option_map (λ s. s.now) word.entry) }
{
    match word {
        None => Some(default),
        Some(word) => number_in(low, high, word),
    }
}
