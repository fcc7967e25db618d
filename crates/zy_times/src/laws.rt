//! Laws of the definitions: each is the contract of a function without a body.
ghost use Rattle.std.specs.Prelude.{◌≡◌, ◌↔◌, ◌<◌, ℕ, Some};
ghost use Rattle.std.specs.List.{slice_get};
ghost use Rattle.mc_calls.specs.declared.entry.Entry.{Entry};
ghost use Rattle.zy_times.specs.Recording.{Recording, MarksFit};
ghost use Rattle.zy_times.specs.InTime.{IsInTime, NoneIsLate, AreOfCommands, IsEntrySent, IsEntryEnded, IsLateAfter};

/// If the marks fit, a journal of the capture's commands is in time if and only if no entry comes
/// after one whose command was sent only when its own had ended.
pub fn a_journal_is_in_time_exactly_if_none_is_late()
    ensures exact { (r : Recording) → MarksFit r → AreOfCommands r → (IsInTime r ↔ NoneIsLate r) }
{}

/// Each call of a journal in time has a moment after its command was sent and before its answer was
/// complete. If the answer of a call was complete before the command of another was sent, the call
/// comes first in the journal.
pub fn each_call_has_a_moment()
    ensures moment { (r : Recording) → IsInTime r → (p : ℕ) (e : Entry) → slice_get r.entries p ≡ Some e
        → (moment : ℕ) × IsEntrySent r e moment × (IsEntryEnded r e moment → ⊥) }
    ensures order { (r : Recording) → IsInTime r → (p q : ℕ) (e other : Entry)
        → slice_get r.entries p ≡ Some e → slice_get r.entries q ≡ Some other
        → IsLateAfter r other e → p < q }
{}
