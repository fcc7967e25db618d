//! Laws over the definitions of this crate.
ghost use Rattle.std.specs.Prelude.{◌≡◌, ℕ, List};
ghost use Rattle.zy_items.specs.Standing.{Standing, IsStanding};
ghost use Rattle.zy_items.specs.Verdict.{items_verdict};
ghost use Rattle.zy_items.specs.Verdict.ItemsVerdict.{Good};

/// In what a good items file says the keys rise, and no unique is greater than the bound.
pub fn a_good_items_file_says_what_a_server_can_have()
    ensures standing { (text : List ℕ) (standing : Standing) → items_verdict text ≡ Good standing
        → IsStanding standing }
{}
