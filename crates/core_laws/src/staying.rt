//! What stays of cores.
ghost use Rattle.std.specs.Prelude.{◌≡◌, ℕ, List, Some, slice_get};
ghost use Rattle.zy_core.specs.Core.{Cored, identity_of};
ghost use Rattle.zy_core.specs.Cores.{identities};

/// If all that stays of cores is as before, then each core has the number, the connections, the
/// label, the tables and the receive ring that it had before.
pub fn each_core_stays()
    ensures value { (before after : List Cored) (i : ℕ) (c : Cored)
        → identities after ≡ identities before → slice_get after i ≡ Some c
        → (was : Cored) × (slice_get before i ≡ Some was) × (identity_of c ≡ identity_of was) }
{}
