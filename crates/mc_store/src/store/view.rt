//! What a seat of the table knows. No value of these types is made: they are for proofs only.
use atomic_table::TableRule;
use mc_calls::Entry;
use mc_shard::Shard;
use std::collections::LinkedList;

/// The number that a step found at a word, and the number of that step among the pass's.
pub struct Sight {
    pub word: u64,
    pub value: u64,
    pub step: u64,
}

/// How many steps a pass has made, and what it found at its last load and at its last exchange.
pub struct Trace {
    pub steps: u64,
    pub load: Sight,
    pub exchange: Sight,
}

/// A root knows the connections that it gave, and the calls of those whose passes were joined. A pass
/// knows its connection, its calls, and the shard that it has taken, with the history that it had.
pub enum View {
    Spent,
    Root(LinkedList<u32>, LinkedList<(u32, LinkedList<Entry>)>),
    Pass(u32, LinkedList<Entry>, Option<(u64, LinkedList<Entry>)>, Trace),
}

/// The rule of the store.
pub struct Rule;

impl TableRule<Shard, View, ()> for Rule {
    ghost use Rattle.std.specs.Prelude.{[]};
    ghost use Rattle.mc_store.specs.declared.store.view.View.TheVariants.{Root};
    ghost use Rattle.mc_store.specs.StoreRule.{StoreRule};

    ghost holds = { λ _ s. StoreRule s };

    ghost first = { λ _. Root [] [] };
}
