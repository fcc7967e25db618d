//! Laws of merged histories.
ghost use Rattle.std.specs.Prelude.{◌≡◌, ◌<◌, ◌∷◌, ℕ, List, []};
ghost use Rattle.mc_calls.specs.declared.entry.Entry.{Entry};
ghost use Rattle.zy_base.specs.Limits.{stamp_limit};
ghost use Rattle.mc_calls.specs.History.{IsLegal, AreHistories};
ghost use Rattle.mc_calls.specs.Order.{of_connection, AreByShard, StampsRise, AreStampsBelow, history_of, IsMergeOf};
ghost use Rattle.mc_calls.specs.Order.{AreCallsOf};

/// Histories have at most one merged list.
pub fn histories_have_one_merge()
    ensures same { (histories : List (List Entry)) (es others : List Entry)
        → IsMergeOf histories es → IsMergeOf histories others → es ≡ others }
{}

/// Histories of shards have a merged list.
pub fn histories_have_a_merge()
    ensures some { (histories : List (List Entry)) → AreByShard histories
        → ((shard : ℕ) → StampsRise 0 (history_of histories shard))
        → (es : List Entry) × IsMergeOf histories es }
{}

/// Of two entries the one with the lower stamp is first; if the stamps are equal, the one of the
/// lower shard.
pub fn two_entries_are_merged_by_stamp_and_shard()
    ensures lower { (x y : Entry) → x.shard ≡ 0 → y.shard ≡ 1 → y.stamp < x.stamp
        → IsMergeOf ((x ∷ []) ∷ (y ∷ []) ∷ []) (y ∷ x ∷ []) }
    ensures level { (x y : Entry) → x.shard ≡ 0 → y.shard ≡ 1 → x.stamp ≡ y.stamp
        → IsMergeOf ((x ∷ []) ∷ (y ∷ []) ∷ []) (x ∷ y ∷ []) }
{}

/// The merged list of the histories of `shards` shards is legal, and its stamps are theirs.
pub fn a_merge_of_histories_is_legal()
    ensures legal { (shards : ℕ) (histories : List (List Entry)) (es : List Entry)
        → AreHistories shards histories → IsMergeOf histories es → IsLegal shards es }
    ensures limit { (shards : ℕ) (histories : List (List Entry)) (es : List Entry)
        → AreHistories shards histories → IsMergeOf histories es → AreStampsBelow stamp_limit es }
{}

/// The merged list has the calls of each connection, each once and in their order.
pub fn a_merge_keeps_the_calls_of_a_connection()
    ensures calls { (connection : ℕ) (histories : List (List Entry)) (es calls : List Entry)
        → IsMergeOf histories es → AreCallsOf connection histories calls
        → of_connection connection es ≡ calls }
{}
