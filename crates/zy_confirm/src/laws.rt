//! Laws of orders: the function does nothing, and its contract is the law.
ghost use Rattle.std.specs.Prelude.{◌≡◌, ℕ, Bool, true, List, [], ◌∷◌, ◌++◌, Option};
ghost use Rattle.mc_calls.specs.declared.item.Item.{Item};
ghost use Rattle.zy_verdict.specs.Entries.{MadeCall};
ghost use Rattle.zy_confirm.specs.declared.store.Store.{Store};
ghost use Rattle.zy_confirm.specs.Store.{HoldsFirst, MakesCall, LosesItem, StandsAfter};

/// Before any entry each key has the empty chain; an entry whose call was made extends the chains
/// of the keys that it is about, and the loss of an item that may be lost extends the chain of its
/// key.
pub fn an_order_has_chains()
    ensures none { (may_lose : List ℕ → Bool) (first : List ℕ → Option Item) (store : Store) → HoldsFirst first store
        → StandsAfter may_lose first store [] }
    ensures more { (may_lose : List ℕ → Bool) (first : List ℕ → Option Item) (old new : Store) (entries : List MadeCall)
        (e : MadeCall) → MakesCall old new e.named.call e.said → StandsAfter may_lose first old entries
        → StandsAfter may_lose first new (entries ++ e ∷ []) }
    ensures less { (may_lose : List ℕ → Bool) (first : List ℕ → Option Item) (old new : Store) (entries : List MadeCall)
        (key : List ℕ) → LosesItem old new key → may_lose key ≡ true → StandsAfter may_lose first old entries
        → StandsAfter may_lose first new entries }
{}
