//! Laws of the definitions: each is the contract of a function without a body.
ghost use Rattle.std.specs.Prelude.{◌≡◌, ◌<◌, ℕ, List, Some};
ghost use Rattle.std.specs.List.{slice_get};
ghost use Rattle.mc_allows.specs.Steps.{KeyStep};
ghost use Rattle.mc_calls.specs.declared.item.Item.{Item};
ghost use Rattle.zy_verdict.specs.Recorded.{Recorded};
ghost use Rattle.zy_verdict.specs.Entries.{MadeCall};
ghost use Rattle.zy_verdict.specs.Explained.{OutputCuts, IsExplained, IsExplainedBy};
ghost use Rattle.zy_verdict.specs.Course.{IsCourse, IsCourseBy, HasCourse, IsSurelyBefore};
ghost use Rattle.std.specs.Prelude.{Option};

/// If a recording is explained, every key has a course.
pub fn an_explained_recording_has_courses()
    ensures course { (r : Recorded) (cuts : OutputCuts) (entries : List MadeCall)
        → (explained : IsExplainedBy r cuts entries) → (key : List ℕ) → IsCourse r cuts key (explained.first key) }
    ensures some { (r : Recorded) → IsExplained r → (key : List ℕ) → HasCourse r key }
{}

/// If a call is surely before another, it comes first in every course with both.
pub fn before_is_kept()
    ensures order { (r : Recorded) (cuts : OutputCuts) (key : List ℕ) (first : Option Item) (entries : List MadeCall)
        (steps : List KeyStep) → IsCourseBy r cuts key first entries steps
        → (p q : ℕ) (e other : MadeCall) → slice_get entries p ≡ Some e → slice_get entries q ≡ Some other
        → IsSurelyBefore r cuts e.named.name other.named.name → p < q }
{}
