//! The flags of a line.
ghost use Rattle.std.specs.Prelude.{◌≡◌, ◌≤◌, ◌<◌, ◌+◌, length, IfSome};
ghost use Rattle.mc_meta.specs.Words.{words_at, line_limit};
ghost use Rattle.mc_meta.specs.Flags.{no_flags, mode_of, mode_of_letter, with_token, with_lone, with_flag, flags_of};
ghost use Rattle.mc_meta.specs.Room.{HasRoom, Follows};

use crate::exptime::is_exptime;
use crate::letters::Letters;
use crate::number::{read_number, read_small_number};
use crate::word::next_word;

/// What flags say.
#[derive(Drop)]
pub(crate) struct Flags {
    /// The letters of all flags.
    pub(crate) seen: Letters,
    /// The letters without a token.
    pub(crate) marks: Letters,
    /// The flags of an item.
    pub(crate) flags: u32,
    /// The unique of an item.
    pub(crate) unique: Option<u64>,
    /// `E`, `A`, `P`, `R` or `S`.
    pub(crate) mode: u8,
}

/// Reads what the words of a text that begins at a place of the line say as flags; `None` if a
/// word is no flag.
pub(crate) fn read_flags(listed: &[u8], at: usize, text: &[u8]) -> Option<Flags>
    requires few { length listed.now ≤ 6 }
    requires within { at + length text.now ≤ line_limit }
    ensures value { result ≡ flags_of listed.now (words_at at text.now) }
{
    let mut flags = Flags {
        seen: Letters::new(),
        marks: Letters::new(),
        flags: 0,
        unique: None,
        mode: b'S',
    };
    let mut at = at;
    let mut rest = text;
    while let Some(split) = next_word(at, rest) {
        match with_flag(listed, flags, split.word) {
            Some(more) => flags = more,
            None => return None,
        }
        at = split.to;
        rest = split.rest;
    }
    Some(flags)
}

// Returns what some flags and one more say; `None` if the word is no flag.
fn with_flag(listed: &[u8], mut flags: Flags, word: &[u8]) -> Option<Flags>
    requires room { HasRoom listed.now flags }
    ensures value { result ≡ with_flag listed.now flags word.now }
    ensures room { IfSome result (λ more. HasRoom listed.now more) }
{
    let [letter, token @ ..] = word else {
        return None;
    };
    if !listed.contains(letter) || flags.seen.has(*letter) {
        return None;
    }
    flags.seen.push(*letter);
    with_token(flags, *letter, token)
}

// Returns what some flags say with a letter and its token; `None` if the token is bad.
fn with_token(mut flags: Flags, letter: u8, token: &[u8]) -> Option<Flags>
    requires room { length flags.marks < 6 }
    ensures value { result ≡ with_token flags letter token.now }
    ensures room { IfSome result (Follows flags) }
{
    match letter {
        b'F' => match read_small_number(token) {
            Some(number) => {
                flags.flags = number;
                Some(flags)
            }
            None => None,
        },
        b'C' => match read_number(token) {
            Some(number) => {
                flags.unique = Some(number);
                Some(flags)
            }
            None => None,
        },
        b'M' => match read_mode(token) {
            Some(mode) => {
                flags.mode = mode;
                Some(flags)
            }
            None => None,
        },
        b'T' => { if is_exptime(token) { Some(flags) } else { None } }
        _ => with_lone(flags, letter, token),
    }
}

// Returns what some flags say with a letter that has no token.
fn with_lone(mut flags: Flags, letter: u8, token: &[u8]) -> Option<Flags>
    requires room { length flags.marks < 6 }
    ensures value { result ≡ with_lone flags letter token.now }
    ensures room { IfSome result (Follows flags) }
{
    if !token.is_empty() {
        return None;
    }
    flags.marks.push(letter);
    Some(flags)
}

// Reads the mode that a token is, in capitals.
fn read_mode(token: &[u8]) -> Option<u8>
    ensures value { result ≡ mode_of token.now }
{
    match token {
        [letter] => capital_mode(*letter),
        _ => None,
    }
}

// Returns the mode that a letter is, in capitals.
fn capital_mode(letter: u8) -> Option<u8>
    ensures value { result ≡ mode_of_letter letter }
{
    match letter {
        b'E' | b'A' | b'P' | b'R' | b'S' => Some(letter),
        b'e' | b'a' | b'p' | b'r' | b's' => Some(letter - 32),
        _ => None,
    }
}
