//! Laws over the definitions of this crate.
ghost use Rattle.std.specs.Prelude.{◌≡◌, ◌↔◌, ℕ, List};
ghost use Rattle.zy_capture.specs.declared.record.Record.{Record};
ghost use Rattle.zy_capture.specs.Capture.{Spells};
ghost use Rattle.zy_read.specs.Bytes.{AreBytes};
ghost use Rattle.zy_capture.specs.Verdict.{verdict};
ghost use Rattle.zy_capture.specs.Verdict.Verdict.{Good};

/// A text is good, with a version, a count and records, if and only if it is their spelling, they
/// are those of a capture, and it has at most 4,294,967,295 bytes.
pub fn a_capture_is_good_exactly_where_it_is_a_spelling()
    ensures exactly { (text : List ℕ) (version count : ℕ) (items : List Record) → AreBytes text
        → verdict text ≡ Good version count items ↔ Spells text version count items }
{}
