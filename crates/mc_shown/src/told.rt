//! What the line of a reply shows.
ghost use Rattle.std.specs.Prelude.{◌≡◌};
ghost use Rattle.mc_allows.specs.declared.said.Said.{Said};
ghost use Rattle.mc_allows.specs.Needs.{Suits};
ghost use Rattle.mc_shown.specs.Told.{IsToldBy, shown_of};

use mc_allows::Shown;
use mc_answered::read_reply;
use mc_calls::CallReply;

/// Returns what a line shows of what was said to the one call of its command.
pub(crate) fn line_shown(line: &[u8]) -> Shown
    ensures value { (said : Said) → IsToldBy line.now said → Suits result said }
{
    match read_reply(line) {
        Some(reply) => shown_of(reply),
        None => Shown::Failure,
    }
}

// Returns what a reply shows that a line is read as.
fn shown_of(reply: CallReply) -> Shown
    ensures value { result ≡ shown_of reply }
{
    match reply {
        CallReply::TooLarge => Shown::Failure,
        reply => Shown::Reply { reply },
    }
}
