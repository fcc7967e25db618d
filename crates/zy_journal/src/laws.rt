//! Laws over the definitions of this crate.
ghost use Rattle.std.specs.Prelude.{ℕ, List, None};
ghost use Rattle.mc_calls.specs.declared.entry.Entry.{Entry};
ghost use Rattle.mc_calls.specs.Order.{StampsRise, IsOrdered};

/// If stamps rise along a history, it is in order, as `merge` requires.
pub fn rising_histories_are_in_order()
    ensures ordered { (before : ℕ) (es : List Entry) → StampsRise before es → IsOrdered None es }
{}
