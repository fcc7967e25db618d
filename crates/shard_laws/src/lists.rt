//! Laws of lists of entries: their parts, and which are legal.
ghost use Rattle.std.specs.Prelude.{◌≡◌, ◌≢◌, ◌<◌, ◌∷◌, ◌++◌, ℕ, List, []};
ghost use Rattle.std.specs.FinMap.{len};
ghost use Rattle.mc_calls.specs.declared.entry.Entry.{Entry};
ghost use Rattle.mc_calls.specs.Counted.{counted};
ghost use Rattle.mc_calls.specs.Shard.{empty_state, tallied, reply_to};
ghost use Rattle.mc_calls.specs.Replies.{replies_at};
ghost use Rattle.mc_calls.specs.History.{IsReplay, IsLegal, replayed};
ghost use Rattle.shard_laws.specs.Answered.{AreAnswered};
ghost use Rattle.mc_calls.specs.Order.{of_connection, at_shard, AreBelow};
ghost use Rattle.shard_laws.specs.Laws.{CountsCalls};

/// The entries of a connection are those whose tag names it.
pub fn a_connection_has_its_entries()
    ensures none { (connection : ℕ) → of_connection connection [] ≡ [] }
    ensures here { (connection : ℕ) (e : Entry) (es : List Entry) → e.tag.conn ≡ connection
        → of_connection connection (e ∷ es) ≡ e ∷ of_connection connection es }
    ensures other { (connection : ℕ) (e : Entry) (es : List Entry) → e.tag.conn ≢ connection
        → of_connection connection (e ∷ es) ≡ of_connection connection es }
{}

/// The entries at a shard are those that name it.
pub fn a_shard_has_its_entries()
    ensures none { (shard : ℕ) → at_shard shard [] ≡ [] }
    ensures here { (shard : ℕ) (e : Entry) (es : List Entry) → e.shard ≡ shard
        → at_shard shard (e ∷ es) ≡ e ∷ at_shard shard es }
    ensures other { (shard : ℕ) (e : Entry) (es : List Entry) → e.shard ≢ shard
        → at_shard shard (e ∷ es) ≡ at_shard shard es }
{}

/// The replies of a command are those of the entries whose tag has its number.
pub fn a_command_has_its_replies()
    ensures none { (index : ℕ) → replies_at index [] ≡ [] }
    ensures here { (index : ℕ) (e : Entry) (es : List Entry) → e.tag.index ≡ index
        → replies_at index (e ∷ es) ≡ e.reply ∷ replies_at index es }
    ensures other { (index : ℕ) (e : Entry) (es : List Entry) → e.tag.index ≢ index
        → replies_at index (e ∷ es) ≡ replies_at index es }
{}

/// A list of entries is legal if and only if each shard's part is a replay on that shard.
pub fn a_list_is_legal_shard_by_shard()
    ensures parts { (shards : ℕ) (es : List Entry) → IsLegal shards es
        → AreBelow shards es × ((shard : ℕ) → IsReplay shards shard empty_state (at_shard shard es)) }
    ensures whole { (shards : ℕ) (es : List Entry) → AreBelow shards es
        → ((shard : ℕ) → IsReplay shards shard empty_state (at_shard shard es)) → IsLegal shards es }
{}

/// A list with one more entry is legal if and only if the list is, and the entry's shard exists
/// and gives this reply to the call.
pub fn a_legal_list_grows_by_a_reply()
    ensures more { (shards : ℕ) (es : List Entry) (e : Entry) → IsLegal shards es → e.shard < shards
        → e.reply ≡ reply_to (replayed shards e.shard empty_state (at_shard e.shard es)) e.call
        → IsLegal shards (es ++ e ∷ []) }
    ensures front { (shards : ℕ) (xs ys : List Entry) → IsLegal shards (xs ++ ys) → IsLegal shards xs }
    ensures within { (shards : ℕ) (es : List Entry) (e : Entry)
        → IsLegal shards (es ++ e ∷ []) → e.shard < shards }
    ensures reply { (shards : ℕ) (es : List Entry) (e : Entry) → IsLegal shards (es ++ e ∷ [])
        → e.reply ≡ reply_to (replayed shards e.shard empty_state (at_shard e.shard es)) e.call }
{}

/// What a shard counts is counted from the entries of its calls only, and the items that are
/// counted are the keys that it has.
pub fn a_shard_counts_its_entries()
    ensures replay { (shards number : ℕ) (es : List Entry) → IsReplay shards number empty_state es
        → tallied (replayed shards number empty_state es) ≡ counted es }
    ensures items { (shards number : ℕ) (es : List Entry) → IsLegal shards es
        → (counted (at_shard number es)).items
        ≡ len (replayed shards number empty_state (at_shard number es)).items }
{}

/// A list is legal if and only if each tally answers what is counted of the entries of its shard
/// before it, and every other call what the replay of these entries answers.
pub fn a_legal_list_has_counted_tallies()
    ensures answered { (shards : ℕ) (es : List Entry) → IsLegal shards es → AreAnswered shards [] es }
    ensures legal { (shards : ℕ) (es : List Entry) → AreAnswered shards [] es → IsLegal shards es }
{}

/// The counter of a shard is at most the number of its calls.
pub fn the_counter_counts_calls()
    ensures count { CountsCalls }
{}
