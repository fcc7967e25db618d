//! The counts of one shard.
ghost use Rattle.std.specs.Prelude.{◌≡◌, ◌<◌, ◌≤◌, ◌^◌, ◌-◌, true, false};
ghost use Rattle.mc_stats.specs.Counts.{no_counts, with_get, with_set, with_item, without_item, without_items};

/// The numbers of gets, of calls that store a value, of gets that found an item and that found
/// none, and of items.
#[derive(Clone, Copy, PartialEq, Eq)]
pub struct Counts {
    /// Calls that get the item of a key.
    pub gets: u64,
    /// Calls that store a value, whatever their reply.
    pub sets: u64,
    /// The gets that found an item.
    pub hits: u64,
    /// The gets that found none.
    pub misses: u64,
    /// The current items.
    pub items: u64,
}

impl Counts {
    /// Begins with all counts 0.
    pub fn new() -> Counts
        ensures value { result ≡ no_counts }
    {
        Counts {
            gets: 0,
            sets: 0,
            hits: 0,
            misses: 0,
            items: 0,
        }
    }

    /// Counts a get, and whether it found an item.
    pub fn got(&mut self, hit: bool)
        requires gets { self.old.gets < 2 ^ 64 - 1 }
        requires hits { hit ≡ true → self.old.hits < 2 ^ 64 - 1 }
        requires misses { hit ≡ false → self.old.misses < 2 ^ 64 - 1 }
        ensures value { self.new ≡ with_get hit self.old }
    {
        self.gets += 1;
        if hit {
            self.hits += 1;
        } else {
            self.misses += 1;
        }
    }

    /// Counts a call that stores a value.
    pub fn stored(&mut self)
        requires sets { self.old.sets < 2 ^ 64 - 1 }
        ensures value { self.new ≡ with_set self.old }
    {
        self.sets += 1;
    }

    /// Counts an item that is new.
    pub fn added(&mut self)
        requires items { self.old.items < 2 ^ 64 - 1 }
        ensures value { self.new ≡ with_item self.old }
    {
        self.items += 1;
    }

    /// Counts an item that was removed.
    pub fn removed(&mut self)
        requires items { 1 ≤ self.old.items }
        ensures value { self.new ≡ without_item self.old }
    {
        self.items -= 1;
    }

    /// Sets the count of items to 0.
    pub fn emptied(&mut self)
        ensures value { self.new ≡ without_items self.old }
    {
        self.items = 0;
    }
}
