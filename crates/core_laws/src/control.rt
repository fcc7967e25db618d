//! Laws of the control words.
ghost use Rattle.std.specs.Prelude.{◌≡◌, ◌↔◌, ◌≤◌, ℕ, Bool, true, slice_index};
ghost use Rattle.std.specs.Int.{bit_at};
ghost use Rattle.atomic_table.specs.Table.{State};
ghost use Rattle.zy_control.specs.declared.view.View.{View};
ghost use Rattle.zy_control.specs.declared.view.Role.TheVariants.{Core};
ghost use Rattle.zy_control.specs.View.{MustHaveCounted};
ghost use Rattle.zy_control.specs.ControlRule.{ControlRule};
ghost use mathlib.Core.Option.{some};
ghost use lib.ListN.{get_elem?};

/// When done is the number of cores, each seat of a core has counted itself.
#[tactic(auto, using(crate::proofs::ControlLemmas::where_all_counted))]
pub fn all_cores_have_counted_themselves_where_done_says_so()
    ensures value { (cores : ℕ) (s : State ℕ View) (j : ℕ) (v : View) → ControlRule cores s
        → get_elem? s.views j ≡ some v → slice_index s.words 0 ≡ cores → MustHaveCounted v.role }
{}

/// Done is at most the number of cores.
#[tactic(auto, using(crate::proofs::ControlLemmas::at_most_all))]
pub fn done_is_at_most_the_number_of_cores()
    ensures value { (cores : ℕ) (s : State ℕ View) → ControlRule cores s → slice_index s.words 0 ≤ cores }
{}

/// The bit of sleepers with the number of a core is 1 if and only if its seat has announced itself.
pub fn the_bit_of_a_core_is_set_exactly_where_it_has_announced_itself()
    ensures value { (cores : ℕ) (s : State ℕ View) (j number : ℕ) (v : View) (counted announced : Bool)
        → ControlRule cores s → get_elem? s.views j ≡ some v → v.role ≡ Core number counted announced
        → (bit_at (slice_index s.words 2) number ≡ 1) ↔ (announced ≡ true) }
{}

/// Only bits of sleepers of cores that have announced themselves are 1.
pub fn each_bit_that_is_set_is_of_a_core_that_has_announced_itself()
    ensures value { (cores : ℕ) (s : State ℕ View) (number : ℕ)
        → ControlRule cores s → bit_at (slice_index s.words 2) number ≡ 1
        → (j : ℕ) × (v : View) × (counted : Bool)
        × (get_elem? s.views j ≡ some v) × (v.role ≡ Core number counted true) }
{}
