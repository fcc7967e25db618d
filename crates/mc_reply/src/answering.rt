//! The answers that are one line.
ghost use Rattle.std.specs.Prelude.{◌≡◌};
ghost use Rattle.mc_reply.specs.Text.{unless, error_line, reply_line, only_line};
ghost use Rattle.mc_reply.specs.Shape.{answer_text};

use crate::answer::Answer;
use crate::lines;
use mc_calls::CallReply;
use mc_parse::ErrorLine;

/// Returns the answer, or nothing if no answer is requested.
pub(crate) fn unless(quiet: bool, answer: Answer) -> Answer
    ensures value { answer_text result ≡ unless quiet (answer_text answer) }
{
    if quiet { Answer::Nothing } else { answer }
}

/// Returns the answer of the only reply.
pub(crate) fn only_answer(replies: &[CallReply]) -> Answer
    ensures value { answer_text result ≡ only_line replies.now }
{
    match replies {
        [reply] => reply_answer(reply),
        _ => Answer::Nothing,
    }
}

// Returns the answer of a reply.
fn reply_answer(reply: &CallReply) -> Answer
    ensures value { answer_text result ≡ reply_line reply.now }
{
    match reply {
        CallReply::Stored => Answer::Line(lines::STORED),
        CallReply::NotStored => Answer::Line(lines::NOT_STORED),
        CallReply::Exists => Answer::Line(lines::EXISTS),
        CallReply::NotFound => Answer::Line(lines::NOT_FOUND),
        CallReply::Deleted => Answer::Line(lines::DELETED),
        CallReply::Number { number } => Answer::Number(*number),
        CallReply::NotNumber => Answer::Line(lines::NOT_NUMBER),
        CallReply::TooLarge => Answer::Line(lines::TOO_LARGE),
        CallReply::Miss | CallReply::Hit { .. } | CallReply::Flushed | CallReply::Tally { .. } =>
            Answer::Nothing,
    }
}

/// Returns the answer of a fault.
pub(crate) fn fault_answer(line: ErrorLine) -> Answer
    ensures value { answer_text result ≡ error_line line }
{
    Answer::Line(match line {
        ErrorLine::Unknown => lines::UNKNOWN,
        ErrorLine::BadLine => lines::BAD_LINE,
        ErrorLine::BadDelta => lines::BAD_DELTA,
        ErrorLine::LongLine => lines::LONG_LINE,
        ErrorLine::BadChunk => lines::BAD_CHUNK,
        ErrorLine::TooLarge => lines::TOO_LARGE,
    })
}
