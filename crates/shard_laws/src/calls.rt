//! Laws of the table of calls: example calls, and calls that change nothing.
ghost use Rattle.std.specs.Prelude.{◌≡◌, ℕ, codes, decimal, None};
ghost use Rattle.mc_calls.specs.declared.call.Call.TheVariants as Calls;
ghost use Rattle.mc_calls.specs.Counted.{counted};
ghost use Rattle.mc_calls.specs.Shard.{State, state_after, outcome_of, stores, removes, empties, keeps};
ghost use Rattle.shard_laws.specs.Worked as Worked;
ghost use Rattle.shard_laws.specs.Laws.{FailedCasKeeps, FailedAddKeeps, FailedReplaceKeeps, FlushedMisses};
ghost use Rattle.shard_laws.specs.Laws.{FlushKeepsCount};
ghost use Rattle.mc_calls.specs.declared.call_reply.CallReply.TheVariants as Replies;
ghost use Rattle.shard_laws.specs.WorkedItems.{none, item_of, outcome};

/// Example calls, one after the other, on shard 12 of 16: what the table of calls answers.
pub fn worked_calls()
    ensures exchanges { Worked.HaveTheseReplies Worked.exchanges }
    ensures joins { Worked.HaveTheseReplies Worked.joins }
    ensures counts { Worked.HaveTheseReplies Worked.counts }
    ensures removals { Worked.HaveTheseReplies Worked.removals }
{}

/// Example calls on a key without an item: what the table of calls computes.
pub fn worked_calls_without_an_item()
    ensures get { outcome_of none (Calls.Get (codes "a")) None ≡ outcome Replies.Miss keeps }
    ensures add { outcome_of none (Calls.Add (codes "a") 5 (codes "x")) None
        ≡ outcome Replies.Stored (stores (codes "a") 5 (codes "x")) }
    ensures replace { outcome_of none (Calls.Replace (codes "a") 5 (codes "x")) None ≡ outcome Replies.NotStored keeps }
    ensures append { outcome_of none (Calls.Append (codes "a") (codes "x")) None ≡ outcome Replies.NotStored keeps }
    ensures cas { outcome_of none (Calls.Cas 5 (codes "a") 19 (codes "x")) None ≡ outcome Replies.NotFound keeps }
    ensures incr { outcome_of none (Calls.Incr (codes "a") 1) None ≡ outcome Replies.NotFound keeps }
    ensures delete { outcome_of none (Calls.Delete (codes "a")) None ≡ outcome Replies.NotFound keeps }
    ensures flush { outcome_of none Calls.Flush None ≡ outcome Replies.Flushed empties }
{}

/// Example calls on a key whose item has the flags 7 and the CAS value 19: what the table of calls
/// computes.
pub fn worked_calls_with_an_item()
    ensures get { outcome_of none (Calls.Get (codes "a")) (item_of (codes "one"))
        ≡ outcome (Replies.Hit 7 19 (codes "one")) keeps }
    ensures add { outcome_of none (Calls.Add (codes "a") 5 (codes "x")) (item_of (codes "one"))
        ≡ outcome Replies.NotStored keeps }
    ensures replace { outcome_of none (Calls.Replace (codes "a") 5 (codes "x")) (item_of (codes "one"))
        ≡ outcome Replies.Stored (stores (codes "a") 5 (codes "x")) }
    ensures append { outcome_of none (Calls.Append (codes "a") (codes "+")) (item_of (codes "one"))
        ≡ outcome Replies.Stored (stores (codes "a") 7 (codes "one+")) }
    ensures prepend { outcome_of none (Calls.Prepend (codes "a") (codes "-")) (item_of (codes "one"))
        ≡ outcome Replies.Stored (stores (codes "a") 7 (codes "-one")) }
    ensures exists { outcome_of none (Calls.Cas 5 (codes "a") 20 (codes "x")) (item_of (codes "one"))
        ≡ outcome Replies.Exists keeps }
    ensures cas { outcome_of none (Calls.Cas 5 (codes "a") 19 (codes "x")) (item_of (codes "one"))
        ≡ outcome Replies.Stored (stores (codes "a") 5 (codes "x")) }
    ensures delete { outcome_of none (Calls.Delete (codes "a")) (item_of (codes "one"))
        ≡ outcome Replies.Deleted (removes (codes "a")) }
{}

/// Example counts: what the table of calls computes.
pub fn worked_counts()
    ensures wraps { outcome_of none (Calls.Incr (codes "n") 11) (item_of (codes "18446744073709551615"))
        ≡ outcome (Replies.Number 10) (stores (codes "n") 7 (decimal 10)) }
    ensures down { outcome_of none (Calls.Decr (codes "n") 1) (item_of (codes "10"))
        ≡ outcome (Replies.Number 9) (stores (codes "n") 7 (decimal 9)) }
    ensures floor { outcome_of none (Calls.Decr (codes "n") 10) (item_of (codes "9"))
        ≡ outcome (Replies.Number 0) (stores (codes "n") 7 (decimal 0)) }
    ensures padded { outcome_of none (Calls.Incr (codes "n") 0) (item_of (codes "00000000000000000042"))
        ≡ outcome (Replies.Number 42) (stores (codes "n") 7 (decimal 42)) }
    ensures long { outcome_of none (Calls.Incr (codes "n") 1) (item_of (codes "000000000000000000042"))
        ≡ outcome Replies.NotNumber keeps }
    ensures great { outcome_of none (Calls.Decr (codes "n") 1) (item_of (codes "18446744073709551616"))
        ≡ outcome Replies.NotNumber keeps }
    ensures empty { outcome_of none (Calls.Incr (codes "n") 1) (item_of (codes "")) ≡ outcome Replies.NotNumber keeps }
{}

/// A tally changes nothing.
pub fn a_tally_changes_nothing()
    ensures same { (shards number : ℕ) (state : State) → state_after shards number state Calls.Tally ≡ state }
{}

/// A cas, an add or a replace that does not store is counted, and changes nothing else.
pub fn what_is_not_stored_changes_nothing()
    ensures cas { FailedCasKeeps }
    ensures add { FailedAddKeeps }
    ensures replace { FailedReplaceKeeps }
{}

/// After a flush every key misses, and the counter is as it was.
pub fn a_flush_empties_and_keeps_the_counter()
    ensures miss { FlushedMisses }
    ensures count { FlushKeepsCount }
{}
