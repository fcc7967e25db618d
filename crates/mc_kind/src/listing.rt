//! The answer to a retrieval.
ghost use Rattle.mc_parse.specs.declared.command.Command.{Command};
ghost use Rattle.mc_kind.specs.First.{IsFirst};

use crate::first::First;
use crate::keys::are_words;
use crate::piece::{Piece, first_piece};
use mc_answered::text_from;
use zy_base::Blob;

/// Finds where the items of keys and the end of them end.
pub(crate) fn first_listing(keys: &[Blob], asked: bool, bytes: &[u8]) -> First
    ensures value { IsFirst (Command.Get keys.now asked) bytes.now result }
{
    if !are_words(keys) {
        return First::Unread;
    }
    let mut at = 0;
    for _ in 0..bytes.len() {
        match first_piece(keys, asked, text_from(bytes, at)) {
            Piece::Item { length } => at += length,
            Piece::End { length } => return First::Whole {
                length: at + length,
            },
            Piece::Refused => return First::Refused,
            Piece::Unread => return First::Unread,
        }
    }
    First::Unread
}
