//! The lines that answer `stats`.
ghost use Rattle.std.specs.Prelude.{◌<◌, codes, IfSome};
ghost use Rattle.mc_answers.specs.Answer.{IsCounts};
ghost use Rattle.mc_answers.specs.Kinds.{IsLineWith};
ghost use Rattle.mc_answered.specs.With.{IsFound};

use crate::line::{is_line_with, line_length};
use crate::listing::end_length;
use crate::text::text_from;

/// Returns the length of lines of counts and the end, if the bytes begin with them.
pub(crate) fn counts_length(bytes: &[u8]) -> Option<usize>
    ensures value { IsFound IsCounts bytes.now result }
{
    let mut at = 0;
    while let Some(length) = count_length(text_from(bytes, at)) {
        at += length;
    }
    let Some(end) = end_length(text_from(bytes, at)) else {
        return None;
    };
    Some(at + end)
}

// Returns the length of the line of a count.
fn count_length(bytes: &[u8]) -> Option<usize>
    ensures value { IsFound (IsLineWith (codes "STAT ")) bytes.now result }
    ensures some { IfSome result (λ n. 0 < n) }
{
    let Some(length) = line_length(bytes) else {
        return None;
    };
    if is_line_with(&bytes[..length], b"STAT ") {
        Some(length)
    } else {
        None
    }
}
