//! Laws of what is allowed, and of what replies tell.
ghost use Rattle.std.specs.Prelude.{◌≡◌, ℕ, List, Option, true, false};
ghost use Rattle.std.specs.FinMap.{get};
ghost use Rattle.mc_calls.specs.declared.call.Call.{Call};
ghost use Rattle.mc_calls.specs.declared.entry.Entry.{Entry};
ghost use Rattle.mc_calls.specs.declared.entry.Tag.{Tag};
ghost use Rattle.mc_calls.specs.declared.item.Item.{Item};
ghost use Rattle.mc_calls.specs.Shard.{State, empty_state, reply_to, state_after};
ghost use Rattle.mc_calls.specs.Order.{at_shard};
ghost use Rattle.mc_calls.specs.History.{IsLegal, replayed};
ghost use Rattle.mc_allows.specs.declared.call_name.CallName.{CallName};
ghost use Rattle.mc_allows.specs.declared.said.Said.TheVariants.{Replied};
ghost use Rattle.mc_allows.specs.Allows.{Allows};
ghost use Rattle.mc_allows.specs.Steps.{is_about, entries_about, AreLeading};
ghost use Rattle.mc_allows.specs.declared.fact.Fact.{Fact};
ghost use Rattle.mc_allows.specs.Facts.{holds, may_hold_beside};
ghost use Rattle.mc_allows.specs.Needs.{Suits, need_of, left_by};
ghost use Rattle.mc_allows.specs.Makers.{is_need, may_make};
ghost use Rattle.mc_allows.specs.Turns.{HasLastTurn, AppendsToRest, PrependsToRest, MakersAreNew};
ghost use Rattle.mc_allows.specs.declared.said.Said.{Said};
ghost use Rattle.mc_allows.specs.declared.shown.Shown.{Shown};

/// What a shard answers to a call on a key, or to a flush, and what the key has after it, is
/// allowed.
pub fn a_step_is_allowed()
    ensures step { (shards number : ℕ) (state : State) (key : List ℕ) (call : Call)
        → is_about key call ≡ true
        → Allows (get state.items key) call (Replied (reply_to state call))
        (get (state_after shards number state call).items key) }
{}

/// In a legal list the entries at a shard whose calls are on a key, or are flushes, are a chain of
/// allowed steps with new uniques, from no item to what the key has after the list.
pub fn a_legal_list_leads()
    ensures leads { (name : Tag → CallName) (shards : ℕ) (es : List Entry)
        → IsLegal shards es → (shard : ℕ) (key : List ℕ) → AreLeading name (entries_about key (at_shard shard es))
        (get (replayed shards shard empty_state (at_shard shard es)).items key) }
{}

/// Facts that hold of the same item may hold beside each other.
pub fn facts_of_an_item_agree()
    ensures beside { (left fact : Fact) (found : Option Item) → holds left found ≡ true
        → holds fact found ≡ true → may_hold_beside left fact ≡ true }
{}

/// What an answer shows of a call needs what holds before the call, and surely leaves what holds
/// after it.
pub fn an_answer_tells()
    ensures needs { (before : Option Item) (call : Call) (said : Said) (after : Option Item)
        (shown : Shown) → Allows before call said after → Suits shown said
        → holds (need_of call shown) before ≡ true }
    ensures leaves { (before : Option Item) (call : Call) (said : Said) (after : Option Item)
        (shown : Shown) → Allows before call said after → Suits shown said
        → holds (left_by call shown) after ≡ true }
{}

/// A call before which a need did not hold, and after which it holds, may make it, by what its
/// answer shows.
pub fn what_turned_was_made()
    ensures made { (fact : Fact) → is_need fact ≡ true → (before : Option Item) (call : Call)
        (said : Said) (after : Option Item) (shown : Shown) → Allows before call said after
        → Suits shown said → holds fact before ≡ false → holds fact after ≡ true
        → may_make call shown fact ≡ true }
{}

/// A need that holds after allowed steps, and that no loss can make, has held from the first, or
/// since a call before which it did not hold.
pub fn a_need_has_a_source()
    ensures turn { HasLastTurn }
{}

/// A call that made a value by joining its piece joined it to the rest of that value.
pub fn a_join_has_a_rest()
    ensures appends { AppendsToRest }
    ensures prepends { PrependsToRest }
{}

/// If a call leaves the opposite of what a later call needs, another call between them made it.
pub fn a_source_is_not_shared()
    ensures new { MakersAreNew }
{}
