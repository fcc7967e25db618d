//! What the answers to meta commands show.
ghost use Rattle.std.specs.Prelude.{◌≡◌};
ghost use Rattle.mc_allows.specs.declared.shown.Shown.TheVariants as Shows;
ghost use Rattle.mc_shown.specs.Marked.{found_shown, stored_shown, removed_shown, meta_shown};

use mc_allows::Shown;
use mc_calls::CallReply;
use mc_parse::Meta;

/// Returns what an answer shows of what was said to the call of a meta command.
pub(crate) fn marked_shown(meta: &Meta, text: &[u8]) -> Shown
    ensures value { result ≡ meta_shown meta.now text.now }
{
    match meta {
        Meta::Noop => Shown::Nothing,
        Meta::Get { .. } => found_shown(text),
        Meta::Set { .. } => stored_shown(text),
        Meta::Delete { .. } => removed_shown(text),
    }
}

// Returns what the answer to `mg` shows.
fn found_shown(text: &[u8]) -> Shown
    ensures value { result ≡ found_shown text.now }
{
    if text.starts_with(b"HD") || text.starts_with(b"VA ") {
        Shown::SomeHit
    } else if text.starts_with(b"EN") {
        reply_shown(CallReply::Miss)
    } else {
        Shown::Nothing
    }
}

// Returns what the answer to `ms` shows.
fn stored_shown(text: &[u8]) -> Shown
    ensures value { result ≡ stored_shown text.now }
{
    if text.starts_with(b"HD") {
        reply_shown(CallReply::Stored)
    } else if text.starts_with(b"NS") {
        reply_shown(CallReply::NotStored)
    } else if text.starts_with(b"EX") {
        reply_shown(CallReply::Exists)
    } else if text.starts_with(b"NF") {
        reply_shown(CallReply::NotFound)
    } else if text.starts_with(b"SERVER_ERROR") {
        Shown::Failure
    } else {
        Shown::Nothing
    }
}

// Returns what the answer to `md` shows.
fn removed_shown(text: &[u8]) -> Shown
    ensures value { result ≡ removed_shown text.now }
{
    if text.starts_with(b"HD") {
        reply_shown(CallReply::Deleted)
    } else if text.starts_with(b"NF") {
        reply_shown(CallReply::NotFound)
    } else {
        Shown::Nothing
    }
}

// Makes what shows a reply.
fn reply_shown(reply: CallReply) -> Shown
    ensures value { result ≡ Shows.Reply reply }
{
    Shown::Reply { reply }
}
