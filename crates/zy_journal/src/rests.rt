//! What is left of histories that are walked in order.
ghost use Rattle.std.specs.Prelude.{◌≡◌, ◌<◌, ◌≤◌, None, IfSome, IfNone, length};
ghost use Rattle.zy_journal.specs.Walk.{head_of, IsLeast, IsNext, IsTakenAt};

use crate::heads::{Head, best_of, bests_of, first_of, heads_of, quad_of, quads_of, stamp_at};
use mc_history::{EntryRef, History};
use std::marker::Model;

/// The entries of each history that were not taken yet. Contracts see these lists.
#[derive(Drop)]
pub(crate) struct Rests<'h> {
    histories: &'h [History],
    // How many entries of each were taken.
    at: [usize; 256],
    // The stamp of the first entry left of each history, and for every 4 and every 16 histories the
    // first entry that comes first. So the next entry of 256 histories is found by 24 comparisons,
    // and that of 16 histories by 9.
    heads: [Option<u64>; 256],
    quads: [Option<Head>; 64],
    bests: [Option<Head>; 16],
}

impl<'h> Model for Rests<'h> {
    ghost use Rattle.std.specs.Prelude.{List, ◌≤◌, length};
    ghost use Rattle.mc_calls.specs.declared.entry.Entry.{Entry};
    ghost use Rattle.zy_journal.specs.Walk.{rests_of, AreHeads, AreQuads, AreBests};

    ghost Value = { List (List Entry) };

    ghost view = { λ r. rests_of r.histories.now r.at };

    ghost invariant = { λ r. (length r.histories.now ≤ 256)
        × AreHeads (rests_of r.histories.now r.at) r.heads
        × AreQuads (rests_of r.histories.now r.at) r.quads
        × AreBests (rests_of r.histories.now r.at) r.bests };
}

impl<'h> Rests<'h> {
    // Begins before the first entry of each history.
    pub(crate) fn new(histories: &'h [History]) -> Rests<'h>
        requires few { length histories.now ≤ 256 }
        ensures value { result ≡ histories.now }
    {
        let heads = heads_of(histories);
        let quads = quads_of(&heads);
        Rests {
            histories,
            at: [0; 256],
            bests: bests_of(&quads),
            quads,
            heads,
        }
    }

    // Takes the next entry: the first of all that are left.
    pub(crate) fn next(&mut self) -> Option<EntryRef<'h>>
        ensures some { IfSome result (λ e. IsNext self.old self.new e) }
        ensures none { IfNone result ((shard : _) → head_of self.old shard ≡ None) }
        ensures kept { IfNone result (self.new ≡ self.old) }
    {
        match self.least() {
            Some(shard) => Some(self.take(shard)),
            None => None,
        }
    }

    // Returns the history whose first entry comes next.
    fn least(&self) -> Option<usize>
        ensures some { IfSome result (λ shard. IsLeast self.now shard) }
        ensures within { IfSome result (λ shard. shard < 256) }
        ensures none { IfNone result ((shard : _) → head_of self.now shard ≡ None) }
    {
        let count = self.histories.len();
        let mut best: Option<Head> = None;
        let mut group = 0;
        while 16 * group < count {
            best = first_of(best, self.bests[group]);
            group += 1;
        }
        match best {
            Some(head) => Some(head.shard),
            None => None,
        }
    }

    // Takes the first entry of a history.
    fn take(&mut self, shard: usize) -> EntryRef<'h>
        requires within { shard < 256 }
        requires some { IsLeast self.old shard }
        ensures value { IsTakenAt shard self.old self.new result }
    {
        let at = self.at[shard];
        let history = &self.histories[shard];
        // The number of entries fits its type, and so does the place after this one.
        let _count = history.len();
        let quad = shard / 4;
        let group = shard / 16;
        self.at[shard] = at + 1;
        self.heads[shard] = stamp_at(history, at + 1);
        self.quads[quad] = quad_of(&self.heads, quad);
        self.bests[group] = best_of(&self.quads, group);
        history.entry(at)
    }
}
