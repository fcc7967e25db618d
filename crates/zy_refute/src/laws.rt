//! Laws of needs without a source.
ghost use Rattle.std.specs.Prelude.{◌≡◌, ℕ, List, length, true, false, Some};
ghost use Rattle.std.specs.List.{slice_get};
ghost use Rattle.mc_allows.specs.declared.fact.Fact.{Fact};
ghost use Rattle.mc_allows.specs.Facts.{holds_without};
ghost use Rattle.mc_allows.specs.Needs.{need_of};
ghost use Rattle.mc_allows.specs.Makers.{is_need};
ghost use Rattle.zy_refute.specs.declared.observed.Observed.{Observed};
ghost use Rattle.zy_refute.specs.declared.store.Store.{Store};
ghost use Rattle.zy_refute.specs.Courses.{IsNeverMet, HaveNoOrder};
ghost use Rattle.zy_refute.specs.Unmet.{IsLossless, IsNoStart, AreNoSources};

/// If neither the start nor a call is a source of what a call needs, the need is never met; and if
/// the call is sure, the calls have no order.
pub fn a_need_without_a_source_is_never_met()
    ensures never { (store : Store) (calls : List Observed) (fact : Fact) (reader : ℕ)
        (g : Observed) → slice_get calls reader ≡ Some g → is_need fact ≡ true
        → IsLossless store fact → IsNoStart store calls fact g
        → AreNoSources store calls fact reader (length calls)
        → IsNeverMet store calls fact reader }
    ensures none { (store : Store) (calls : List Observed) (reader : ℕ) (g : Observed)
        → slice_get calls reader ≡ Some g → g.sure ≡ true
        → IsNeverMet store calls (need_of g.call g.shown) reader → HaveNoOrder store calls }
{}
