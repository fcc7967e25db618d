//! Replies without fields.

use mc_allows::Shown;
use mc_calls::CallReply;

/// A reply that has no fields.
#[derive(Clone, Copy, PartialEq, Eq)]
pub(crate) enum Word {
    Stored,
    NotStored,
    Exists,
    NotFound,
    Deleted,
    NotNumber,
}

// The word that a reply is, if it is one of these.
fn word_of(reply: &CallReply) -> Option<Word> {
    match reply {
        CallReply::Stored => Some(Word::Stored),
        CallReply::NotStored => Some(Word::NotStored),
        CallReply::Exists => Some(Word::Exists),
        CallReply::NotFound => Some(Word::NotFound),
        CallReply::Deleted => Some(Word::Deleted),
        CallReply::NotNumber => Some(Word::NotNumber),
        _ => None,
    }
}

// Checks whether an answer shows this reply.
pub(crate) fn shows(shown: &Shown, word: Word) -> bool {
    match shown {
        Shown::Reply { reply } => word_of(reply) == Some(word),
        _ => false,
    }
}

// Checks whether a call may have this reply: its answer shows it, or shows nothing.
pub(crate) fn says(shown: &Shown, word: Word) -> bool {
    is_silent(shown) || shows(shown, word)
}

// Checks whether no reply is shown of a call that did not fail.
pub(crate) fn is_silent(shown: &Shown) -> bool {
    matches!(shown, Shown::Nothing | Shown::NoFailure)
}

// The number that an answer shows.
pub(crate) fn number_shown(shown: &Shown) -> Option<u64> {
    match shown {
        Shown::Reply {
            reply: CallReply::Number { number },
        } => Some(*number),
        _ => None,
    }
}
