//! The law of rounds.
ghost use Rattle.std.specs.Prelude.{◌<◌, ℕ};
ghost use Rattle.zy_rounds.specs.Order.{HasOneTurn};

/// In a round each core has exactly one turn, whichever core it begins with.
#[tactic(auto, using(zy_rounds::proofs::OrderLemmas::one_turn_each))]
pub fn each_core_has_one_turn_in_a_round()
    ensures value { (cores first core : ℕ) → first < cores → core < cores → HasOneTurn cores first core }
{}
