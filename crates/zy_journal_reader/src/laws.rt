//! Laws over the definitions of this crate.
ghost use Rattle.std.specs.Prelude.{◌≡◌, ◌↔◌, ℕ, List};
ghost use Rattle.zy_journal.specs.declared.journal.Journal.{Journal};
ghost use Rattle.zy_journal_reader.specs.Verdict.{journal_verdict, SpellsJournal};
ghost use Rattle.zy_read.specs.Bytes.{AreBytes};
ghost use Rattle.zy_journal_reader.specs.Verdict.JournalVerdict.{Good};

/// A text is a good journal if and only if it is the journal's encoding, the journal is within the
/// format's bounds, and the text has at most 2^63 - 1 bytes.
pub fn a_journal_is_good_exactly_where_it_is_a_spelling()
    ensures exactly { (text : List ℕ) (journal : Journal) → AreBytes text
        → journal_verdict text ≡ Good journal ↔ SpellsJournal text journal }
{}
