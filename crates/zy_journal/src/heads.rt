//! The first entries of histories, and which of them comes first.
ghost use Rattle.std.specs.Prelude.{◌≡◌, ◌+◌, ◌*◌, ◌<◌, ◌≤◌, ℕ, None, length, drop};
ghost use Rattle.zy_journal.specs.Walk.{first_stamp, head_of, AreHeads, AreQuads, AreBests, IsBest, IsLeastIn};

use mc_history::History;

/// The first entry of a history: its shard and its stamp.
#[derive(Clone, Copy)]
pub(crate) struct Head {
    pub(crate) shard: usize,
    pub(crate) stamp: u64,
}

// The first head of some histories, if one was found. While none was, the stamp is the largest number, so that one
// comparison of stamps is enough for one more history.
#[derive(Clone, Copy)]
pub(crate) struct Least {
    pub(crate) found: bool,
    pub(crate) shard: usize,
    pub(crate) stamp: u64,
}

const NONE: Least = Least {
    found: false,
    shard: 0,
    stamp: u64::MAX,
};

/// Returns the stamp of the entry at a place, if there is one.
pub(crate) fn stamp_at(history: &History, at: usize) -> Option<u64>
    ensures value { result ≡ first_stamp (drop at history.now) }
{
    if at >= history.len() {
        return None;
    }
    Some(history.stamp(at))
}

/// Returns the stamps of the first entries of all histories.
pub(crate) fn heads_of(histories: &[History]) -> [Option<u64>; 256]
    requires few { length histories.now ≤ 256 }
    ensures value { AreHeads histories.now result }
{
    let mut heads: [Option<u64>; 256] = [None; 256];
    let mut shard = 0;
    while shard < histories.len() {
        heads[shard] = stamp_at(&histories[shard], 0);
        shard += 1;
    }
    heads
}

/// Returns, for every four histories, the one of their first entries that comes first.
pub(crate) fn quads_of(heads: &[Option<u64>; 256]) -> [Option<Head>; 64]
    ensures value { (rests : _) → AreHeads rests heads.now → AreQuads rests result }
{
    let mut quads: [Option<Head>; 64] = [None; 64];
    let mut quad = 0;
    while quad < 64 {
        quads[quad] = quad_of(heads, quad);
        quad += 1;
    }
    quads
}

/// Returns the one that comes first of the first entries of four histories.
pub(crate) fn quad_of(heads: &[Option<u64>; 256], quad: usize) -> Option<Head>
    requires within { quad < 64 }
    ensures value { (rests : _) → AreHeads rests heads.now
        → IsBest rests (4 * quad) (4 * quad + 4) result }
{
    let first = 4 * quad;
    // Backwards, so that the first of equal stamps counts.
    let last = and_before(NONE, first + 3, heads[first + 3]);
    let two = and_before(last, first + 2, heads[first + 2]);
    let three = and_before(two, first + 1, heads[first + 1]);
    let least = and_before(three, first, heads[first]);
    if least.found {
        return Some(Head {
            shard: least.shard,
            stamp: least.stamp,
        });
    }
    None
}

/// Returns, for every 16 histories, the one of their first entries that comes first.
pub(crate) fn bests_of(quads: &[Option<Head>; 64]) -> [Option<Head>; 16]
    ensures value { (rests : _) → AreQuads rests quads.now → AreBests rests result }
{
    let mut bests: [Option<Head>; 16] = [None; 16];
    let mut group = 0;
    while group < 16 {
        bests[group] = best_of(quads, group);
        group += 1;
    }
    bests
}

/// Returns the one that comes first of the first entries of 16 histories.
pub(crate) fn best_of(quads: &[Option<Head>; 64], group: usize) -> Option<Head>
    requires within { group < 16 }
    ensures value { (rests : _) → AreQuads rests quads.now
        → IsBest rests (16 * group) (16 * group + 16) result }
{
    let quad = 4 * group;
    let before = first_of(quads[quad], quads[quad + 1]);
    let behind = first_of(quads[quad + 2], quads[quad + 3]);
    first_of(before, behind)
}

// Returns the first head of some histories and of the one before them.
#[inline(always)]
fn and_before(least: Least, shard: usize, head: Option<u64>) -> Least
    ensures value { (rests : _) (high : ℕ) → shard < high → head_of rests shard ≡ head
        → IsLeastIn rests (shard + 1) high least → IsLeastIn rests shard high result }
{
    match head {
        Some(stamp) if stamp <= least.stamp => Least {
            found: true,
            shard,
            stamp,
        },
        _ => least,
    }
}

/// Returns the earlier one of two heads, the first one of some histories and that of those after
/// them.
pub(crate) fn first_of(before: Option<Head>, behind: Option<Head>) -> Option<Head>
    ensures value { (rests : _) (low middle high : ℕ) → low ≤ middle → middle ≤ high
        → IsBest rests low middle before → IsBest rests middle high behind
        → IsBest rests low high result }
{
    let Some(next) = behind else {
        return before;
    };
    match before {
        Some(head) if head.stamp <= next.stamp => Some(head),
        _ => Some(next),
    }
}
