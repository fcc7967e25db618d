//! What turns do: the number of each thing, and what each costs.

/// The things that turns do: how many they were, or how many nanoseconds each of them costs.
#[derive(Clone, Copy, Drop)]
pub(crate) struct Parts {
    /// Turns.
    pub(crate) turns: u64,
    /// Items that a home received.
    pub(crate) items: u64,
    /// Blocks that a home collected.
    pub(crate) collected: u64,
    /// Blocks that were held at home.
    pub(crate) holds: u64,
    /// Blocks that were stolen, held and given back.
    pub(crate) thefts: u64,
    /// Commands.
    pub(crate) commands: u64,
    /// Looks at another core at which nothing was claimed.
    pub(crate) looks: u64,
    /// Commands whose shard another core had last.
    pub(crate) moved: u64,
}

impl Parts {
    /// Makes the parts of a turn that does nothing.
    pub(crate) fn none() -> Parts {
        Parts {
            turns: 0,
            items: 0,
            collected: 0,
            holds: 0,
            thefts: 0,
            commands: 0,
            looks: 0,
            moved: 0,
        }
    }

    /// Returns what all of it costs at these prices, in nanoseconds.
    pub(crate) fn cost(&self, prices: &Parts) -> u64 {
        let home = cost_of(self.turns, prices.turns)
            .saturating_add(cost_of(self.items, prices.items))
            .saturating_add(cost_of(self.collected, prices.collected))
            .saturating_add(cost_of(self.holds, prices.holds));
        home.saturating_add(cost_of(self.thefts, prices.thefts))
            .saturating_add(cost_of(self.commands, prices.commands))
            .saturating_add(cost_of(self.looks, prices.looks))
            .saturating_add(cost_of(self.moved, prices.moved))
    }

    /// Adds what another turn did.
    pub(crate) fn add(&mut self, other: &Parts) {
        self.turns = self.turns.saturating_add(other.turns);
        self.items = self.items.saturating_add(other.items);
        self.collected = self.collected.saturating_add(other.collected);
        self.holds = self.holds.saturating_add(other.holds);
        self.thefts = self.thefts.saturating_add(other.thefts);
        self.commands = self.commands.saturating_add(other.commands);
        self.looks = self.looks.saturating_add(other.looks);
        self.moved = self.moved.saturating_add(other.moved);
    }
}

// Returns the cost of a number of things.
fn cost_of(count: u64, price: u64) -> u64 {
    count.saturating_mul(price)
}
