//! The first text of a retrieval's answer.
ghost use Rattle.std.specs.Prelude.{◌≡◌, ◌↔◌, true};
ghost use Rattle.std.specs.List.{AllByRecursion};
ghost use Rattle.mc_answers.specs.Kinds.{IsEndText};
ghost use Rattle.mc_answered.specs.With.{IsFound};
ghost use Rattle.mc_kind.specs.Piece.{IsPiece, IsKeyWord, IsValueLine};

use crate::keys::has_key;
use mc_answered::{is_error_line, line_length, read_heading, text_from};
use zy_base::{Blob, VALUE_LIMIT};

/// The first text of a retrieval's answer in some bytes.
#[derive(Clone, Copy)]
pub(crate) enum Piece {
    /// An item of this length.
    Item { length: usize },
    /// The end, of this length.
    End { length: usize },
    /// The bytes neither begin with such a text, nor begin one.
    Refused,
    /// No whole text was found.
    Unread,
}

/// Finds the first item of one of these keys, or the end.
pub(crate) fn first_piece(keys: &[Blob], asked: bool, bytes: &[u8]) -> Piece
    requires words { AllByRecursion IsKeyWord keys.now }
    ensures value { IsPiece asked keys.now bytes.now result }
{
    let Some(length) = line_length(bytes) else {
        return Piece::Unread;
    };
    let line = &bytes[..length];
    if is_end(line) {
        return Piece::End { length };
    }
    match read_heading(line, asked) {
        Some(heading) => {
            if !has_key(keys, heading.key) {
                return Piece::Refused;
            }
            match value_length(text_from(bytes, length), heading.count) {
                Some(more) => Piece::Item {
                    length: length + more,
                },
                None => Piece::Unread,
            }
        }
        None => {
            if is_error_line(line) {
                Piece::Unread
            } else {
                Piece::Refused
            }
        }
    }
}

/// Checks whether a line is the end of items or counts.
pub(crate) fn is_end(line: &[u8]) -> bool
    ensures value { (result ≡ true) ↔ IsEndText line.now }
{
    line == b"END\r\n".as_slice()
}

// Returns the length of a value of this many bytes and the end of its line, if the bytes begin with them.
fn value_length(bytes: &[u8], count: u64) -> Option<usize>
    ensures value { IsFound (IsValueLine count) bytes.now result }
{
    if count > VALUE_LIMIT as u64 {
        return None;
    }
    let count = count as usize;
    if bytes.len() < count {
        return None;
    }
    if text_from(bytes, count).starts_with(b"\r\n") {
        Some(count + 2)
    } else {
        None
    }
}
