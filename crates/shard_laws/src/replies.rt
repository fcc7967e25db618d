//! Laws of replies: their kinds, their bounds, and what they depend on.
ghost use Rattle.std.specs.Prelude.{◌≡◌, ℕ, List, Some};
ghost use Rattle.std.specs.List.{AllByRecursion};
ghost use Rattle.mc_calls.specs.declared.call.Call.{Call};
ghost use Rattle.mc_calls.specs.declared.entry.Entry.{Entry};
ghost use Rattle.mc_calls.specs.Shard.{State, reply_to};
ghost use Rattle.mc_calls.specs.Kind.{MayAnswer, AreAnswers};
ghost use Rattle.mc_calls.specs.Call.{key_of};
ghost use Rattle.mc_calls.specs.Bounds.{IsCallWithin, IsReply};
ghost use Rattle.mc_calls.specs.Told.{told, seen_at, IsSteady};
ghost use Rattle.mc_calls.specs.History.{IsReplay, IsLegal};
ghost use Rattle.shard_laws.specs.Laws.{KeyStandsAlone};

/// A shard answers a call with a reply of a kind that the table gives for it.
pub fn replies_are_of_the_table()
    ensures one { (state : State) (call : Call) → MayAnswer call (reply_to state call) }
    ensures replay { (shards number : ℕ) (state : State) (es : List Entry)
        → IsReplay shards number state es → AreAnswers es }
    ensures legal { (shards : ℕ) (es : List Entry) → IsLegal shards es → AreAnswers es }
{}

/// The replies of a legal list are within their bounds, if its calls are.
pub fn replies_are_within_their_bounds()
    ensures each { (commands shards : ℕ) (es : List Entry) → IsLegal shards es
        → AllByRecursion (IsCallWithin commands) es
        → AllByRecursion (λ (e : Entry). IsReply e.reply) es }
{}

/// If two shards have the same at a call's key, except for CAS values, they give a steady call the
/// same reply, except for the CAS value that it shows.
pub fn steady_calls_tell_no_other_unique()
    ensures reply { (state other : State) (call : Call) (key : List ℕ) → IsSteady call
        → key_of call ≡ Some key → seen_at key state ≡ seen_at key other
        → told (reply_to state call) ≡ told (reply_to other call) }
{}

/// In a list without a cas, the replies to the calls on a key and to the flushes, CAS values aside,
/// depend on these calls only.
pub fn a_key_depends_on_its_own_calls()
    ensures alone { KeyStandsAlone }
{}
