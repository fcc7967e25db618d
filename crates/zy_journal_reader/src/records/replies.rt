//! Replies that bytes begin with, each with the bytes after it.
ghost use Rattle.std.specs.Prelude.{◌≡◌, ◌∷◌, IfSome};
ghost use Rattle.mc_calls.specs.Code.{hit_code, number_code, tally_code};
ghost use Rattle.zy_journal_reader.specs.Found.{HasReply};

use super::fields::{contents, eight, four};
use mc_calls::{CallReply, HIT_CODE, LAST_REPLY_CODE, NUMBER_CODE, TALLY_CODE, Tallied};
use std::alloc::Global;
use zy_base::Blob;

// Returns a reply; nothing also if an allocation fails.
#[tactic(auto, using(crate::proofs::FoundLemmas::plain_found))]
pub(crate) fn reply(alloc: Global, bytes: &[u8]) -> Option<(CallReply, &[u8])>
    ensures value { IfSome result (λ found. HasReply bytes.now found.0 found.1.now) }
{
    let (code, rest) = bytes.split_first()?;
    if *code == 0 || *code > LAST_REPLY_CODE {
        return None;
    }
    if *code == HIT_CODE {
        hit(alloc, rest)
    } else if *code == NUMBER_CODE {
        counted(rest)
    } else if *code == TALLY_CODE {
        tally(rest)
    } else {
        Some((CallReply::plain(*code), rest))
    }
}

// Returns the fields of a hit.
#[tactic(auto, using(crate::proofs::FoundLemmas::hit_found))]
fn hit(alloc: Global, bytes: &[u8]) -> Option<(CallReply, &[u8])>
    ensures value { IfSome result (λ found. HasReply (hit_code ∷ bytes.now) found.0 found.1.now) }
{
    let (flags, after_flags) = four(bytes)?;
    let (unique, after_unique) = eight(after_flags)?;
    let (found, rest) = contents(after_unique)?;
    match Blob::copy_of(alloc, found) {
        Ok(value) => Some((
            CallReply::Hit {
                flags,
                unique,
                value,
            },
            rest,
        )),
        Err(_) => None,
    }
}

// Returns the number that a value is now.
#[tactic(auto, using(crate::proofs::FoundLemmas::number_found))]
fn counted(bytes: &[u8]) -> Option<(CallReply, &[u8])>
    ensures value { IfSome result (λ found.
        HasReply (number_code ∷ bytes.now) found.0 found.1.now) }
{
    let (number, rest) = eight(bytes)?;
    Some((CallReply::Number { number }, rest))
}

// Returns the numbers of a tally.
#[tactic(auto, using(crate::proofs::FoundLemmas::tally_found))]
fn tally(bytes: &[u8]) -> Option<(CallReply, &[u8])>
    ensures value { IfSome result (λ found. HasReply (tally_code ∷ bytes.now) found.0 found.1.now) }
{
    let (gets, after_gets) = eight(bytes)?;
    let (sets, after_sets) = eight(after_gets)?;
    let (hits, after_hits) = eight(after_sets)?;
    let (misses, after_misses) = eight(after_hits)?;
    let (items, rest) = eight(after_misses)?;
    let counts = Tallied {
        gets,
        sets,
        hits,
        misses,
        items,
    };
    Some((CallReply::tally(counts), rest))
}
