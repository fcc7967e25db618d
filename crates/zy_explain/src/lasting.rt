//! The keys whose items may be lost.
ghost use Rattle.std.specs.Prelude.{◌≡◌, [], ◌∷◌, IfOk, OnOk};
ghost use Rattle.std.specs.List.{AllPairs};
ghost use Rattle.zy_items.specs.Standing.{IsKeyBefore};
ghost use Rattle.zy_explain.specs.Lasting.{AddsAll, IsUnion};

use std::alloc::Global;
use std::collections::BTreeSet;
use zy_base::{Blob, NoMemory};

/// Returns the keys of two sets.
pub fn union_of(
    alloc: Global,
    one: &BTreeSet<Blob>,
    other: &BTreeSet<Blob>,
) -> Result<BTreeSet<Blob>, NoMemory>
    ensures union { IfOk result (IsUnion one.now other.now) }
    ensures rises { IfOk result (λ all. AllPairs IsKeyBefore all.keys) }
{
    let mut all = BTreeSet::new(alloc);
    match add_both(&mut all, one, other) {
        Ok(()) => {
            keys_rise(&all);
            Ok(all)
        }
        Err(refused) => {
            drop(all);
            Err(refused)
        }
    }
}

// The keys of a set rise, as its length says of every set.
fn keys_rise(keys: &BTreeSet<Blob>)
    ensures rises { AllPairs IsKeyBefore keys.now.keys }
{
    let _ = keys.len();
}

// Adds the keys of two sets.
fn add_both(
    all: &mut BTreeSet<Blob>,
    one: &BTreeSet<Blob>,
    other: &BTreeSet<Blob>,
) -> Result<(), NoMemory>
    requires empty { all.old.keys ≡ [] }
    ensures union { OnOk result (IsUnion one.now other.now all.new) }
{
    add_all(all, one)?;
    add_all(all, other)
}

// Adds the keys of a set.
fn add_all(all: &mut BTreeSet<Blob>, keys: &BTreeSet<Blob>) -> Result<(), NoMemory>
    ensures added { OnOk result (AddsAll keys.now.keys all.old all.new) }
{
    for key in keys.iter() {
        add_one(all, key)?;
    }
    Ok(())
}

// Adds a key.
fn add_one(all: &mut BTreeSet<Blob>, key: &Blob) -> Result<(), NoMemory>
    ensures added { OnOk result (AddsAll (key.now ∷ []) all.old all.new) }
{
    let key = key.copy()?;
    match all.insert(key) {
        Ok(_) => Ok(()),
        Err(refused) => {
            drop(refused.value);
            Err(NoMemory)
        }
    }
}
