//! What an answer shows of one call.
ghost use Rattle.std.specs.Prelude.{◌≡◌, [], ◌∷◌, ◌++◌, OnOk, IfOk};

use mc_allows::Shown;
use std::alloc::Global;
use zy_base::NoMemory;

/// What an answer shows of one of its command's calls.
#[derive(Drop)]
pub struct Part {
    pub shown: Shown,
    /// The unique that is shown with an item. No clause speaks of it.
    pub unique: Option<u64>,
}

impl Part {
    /// Makes a part that shows no unique.
    pub(crate) fn new(shown: Shown) -> Part
        ensures value { result.shown ≡ shown }
    {
        Part {
            shown,
            unique: None,
        }
    }
}

/// Appends a part. May answer `NoMemory`.
pub(crate) fn push_part(parts: &mut Vec<Part>, part: Part) -> Result<(), NoMemory>
    ensures ok { OnOk result (parts.new.items ≡ parts.old.items ++ part ∷ []) }
{
    match parts.push(part) {
        Ok(()) => Ok(()),
        Err(refused) => {
            drop(refused);
            Err(NoMemory)
        }
    }
}

/// Makes the list of one part. May answer `NoMemory`.
pub(crate) fn only_part(alloc: Global, part: Part) -> Result<Vec<Part>, NoMemory>
    ensures value { IfOk result (λ parts. parts.items ≡ part ∷ []) }
{
    let mut parts = Vec::new(alloc);
    match push_part(&mut parts, part) {
        Ok(()) => Ok(parts),
        Err(refused) => {
            drop(parts);
            Err(refused)
        }
    }
}
