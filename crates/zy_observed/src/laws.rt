//! Laws of calls as a recording shows them.
ghost use Rattle.std.specs.Prelude.{◌≡◌, ℕ, List, Option, None, false};
ghost use Rattle.mc_calls.specs.declared.item.Item.{Item};
ghost use Rattle.mc_allows.specs.Steps.{KeyStep};
ghost use Rattle.zy_refute.specs.declared.observed.Observed.{Observed};
ghost use Rattle.zy_refute.specs.declared.store.Store.{Store};
ghost use Rattle.zy_refute.specs.Courses.{IsOrderOf};
ghost use Rattle.zy_verdict.specs.Recorded.{Recorded};
ghost use Rattle.zy_verdict.specs.Entries.{MadeCall};
ghost use Rattle.zy_verdict.specs.Explained.{OutputCuts, AreCuts};
ghost use Rattle.zy_verdict.specs.Course.{IsCourseBy};
ghost use Rattle.zy_observed.specs.Shown.{AreShown};
ghost use Rattle.zy_observed.specs.AtKey.{AreCallsAt, IsStoreAt};

/// A course of a key is an order of the calls at that key.
pub fn a_course_is_an_order()
    ensures order { (r : Recorded) (calls : List Observed) → AreShown r calls
        → (cuts : OutputCuts) → AreCuts r cuts
        → (key : List ℕ) (own : List Observed) → AreCallsAt r.shards key calls own
        → (store : Store) → IsStoreAt r key store
        → (first : Option Item) → (r.warm ≡ false → first ≡ None)
        → (entries : List MadeCall) (steps : List KeyStep)
        → IsCourseBy r cuts key first entries steps → IsOrderOf store own first steps }
{}
