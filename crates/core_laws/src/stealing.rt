//! Laws of the order of victims, of a steal, and of giving the stolen block back.
ghost use Rattle.std.specs.Prelude.{◌≡◌, ℕ, [], ◌∷◌};
ghost use Rattle.zy_table.specs.declared.name.Name.{Name};
ghost use Rattle.zy_steal.specs.Order.{order_of};
ghost use Rattle.zy_steal.specs.Steal.{PassList, AreIdle, TakesFrom, GivesTo, seats_of};

use zy_shuffle::Marked;

/// A block that was stolen by passes with this label has the label.
pub fn a_stolen_block_has_the_label<T: Marked>()
    ensures value { (label : Name) (p q : PassList T) (core place : ℕ) (block : T) → AreIdle label (seats_of p.items)
        → TakesFrom T.mark T.label p q core place block → T.label block ≡ label }
{}

/// After a stolen block was given back, the hands of the passes are as before: empty.
pub fn a_block_given_back_leaves_the_hands<T: Marked>()
    ensures value { (label : Name) (p q r : PassList T) (core place : ℕ) (block given : T) → q.core ≡ p.core
        → AreIdle label (seats_of p.items) → TakesFrom T.mark T.label p q core place block
        → GivesTo q r core place given → seats_of r.items ≡ seats_of p.items }
{}

/// Example orders: the cores that a core looks at in a steal call, by the number of cores, its own
/// number, and the number of its earlier calls.
pub fn worked_orders()
    ensures alone { order_of 1 0 7 ≡ [] }
    ensures other { order_of 2 1 9 ≡ 0 ∷ [] }
    ensures first { order_of 5 2 0 ≡ 3 ∷ 4 ∷ 0 ∷ 1 ∷ [] }
    ensures second { order_of 5 2 1 ≡ 4 ∷ 0 ∷ 1 ∷ 3 ∷ [] }
    ensures fourth { order_of 5 2 3 ≡ 1 ∷ 3 ∷ 4 ∷ 0 ∷ [] }
    ensures round { order_of 5 2 4 ≡ 3 ∷ 4 ∷ 0 ∷ 1 ∷ [] }
    ensures last { order_of 5 4 0 ≡ 0 ∷ 1 ∷ 2 ∷ 3 ∷ [] }
{}
