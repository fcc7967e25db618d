//! The law of texts of fields.
ghost use Rattle.std.specs.Prelude.{◌≡◌, ℕ, List, length};
ghost use Rattle.zy_read.specs.Format.{verdict_on};
ghost use Rattle.zy_read.specs.Fields.{format_of};
ghost use Rattle.zy_read.specs.Runs.{IsWhole, IsCut, HasFault, IsOutcome};

use zy_read::FieldFormat;

/// Each text is whole fields up to an end, or is cut, or has a fault, and the verdict on it says so:
/// it is good with the state and the records of the fields, truncated, or bad with the fault.
pub fn a_text_of_fields_is_what_its_fields_say<S: FieldFormat>()
    ensures only { (text : List ℕ) → IsOutcome S.fields S.good S.bad text
        (verdict_on (format_of S.fields S.good S.bad) text) }
    ensures whole { (text : List ℕ) (s : S) (given : List S.Gives) → IsWhole S.fields text s given
        → verdict_on (format_of S.fields S.good S.bad) text ≡ S.good s given }
    ensures cut { (text : List ℕ) → IsCut S.fields text
        → verdict_on (format_of S.fields S.good S.bad) text ≡ S.bad (S.fields.truncated (length text)) }
    ensures fault { (text : List ℕ) (s : S) (fault : S.Fault) → HasFault S.fields text s fault
        → verdict_on (format_of S.fields S.good S.bad) text ≡ S.bad fault }
{}
