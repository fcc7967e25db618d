//! Laws of journals.
ghost use Rattle.std.specs.Prelude.{◌≡◌, ℕ, ◌+◌, ◌-◌, ◌*◌, ◌^◌, ◌<◌, ◌≤◌, List, [], ◌∷◌, length};
ghost use Rattle.std.specs.Prelude.{◌↔◌, ◌++◌, codes, Some, ⊤};
ghost use Rattle.std.specs.List.{AllByRecursion, concat};
ghost use Rattle.mc_calls.specs.Code.{last_call_code, last_reply_code};
ghost use Rattle.mc_calls.specs.declared.entry.Entry.{Entry};
ghost use Rattle.mc_calls.specs.declared.hold.Hold.{Hold};
ghost use Rattle.zy_journal.specs.declared.journal.Journal.{Journal};
ghost use Rattle.zy_journal.specs.Journal.{IsEntry, entry_text, hold_text, journal_bytes};
ghost use Rattle.format_laws.specs.WorkedJournal.{worked, worked_bytes};
ghost use Rattle.zy_base.specs.declared.file_fault.FileFault.{FileFault};
ghost use Rattle.zy_base.specs.declared.file_fault.FileFault.TheVariants.{Form, Truncated, TooLong};
ghost use Rattle.zy_read.specs.Standing.{Feeds};
ghost use Rattle.format_laws.specs.Pieces.{FeedsPieces};
ghost use Rattle.zy_journal_reader.specs.Steps.{JournalProgress, journal_limit};
ghost use Rattle.zy_journal_reader.specs.Verdict.{journals, journal_verdict, IsReadable};
ghost use Rattle.format_laws.specs.JournalMet.{journal_fault};
ghost use Rattle.zy_read.specs.Bytes.{AreBytes};
ghost use Rattle.zy_journal_reader.specs.Verdict.JournalVerdict.{Good, Bad};
ghost use Rattle.format_laws.specs.JournalFaults.{HasFaultAsJournal};
ghost use Rattle.zy_journal_reader.specs.Standing.{StandsForJournal};
ghost use Rattle.format_laws.specs.WorkedJournals.{with_magic, with_call, behind_entry, behind_hold, met_in_journal};

/// The example journal of the format has its 114 bytes.
pub fn the_worked_journal_has_its_bytes()
    ensures value { journal_bytes worked ≡ worked_bytes }
{}

/// An entry has fewer than 2^22 bytes and a hold has 13, and a journal has no bytes but these and
/// the nine with which it begins and ends.
pub fn a_journal_has_few_bytes()
    ensures entry { (e : Entry) → IsEntry e → length (entry_text e) < 2 ^ 22 }
    ensures hold { (h : Hold) → length (hold_text h) ≡ 13 }
    ensures whole { (journal : Journal) → AllByRecursion IsEntry journal.entries
        → length (journal_bytes journal)
        ≤ 9 + length journal.entries * (2 ^ 22 - 1) + length journal.holds * 13 }
{}

/// The verdict on a text as a journal is bad with a fault if and only if the text has that fault.
pub fn a_journal_is_bad_exactly_where_it_has_a_fault()
    ensures exactly { (text : List ℕ) (fault : FileFault) → AreBytes text
        → journal_verdict text ≡ Bad fault ↔ HasFaultAsJournal text fault }
{}

/// The text written for a journal is good, and gives the journal again, unless it is too long.
pub fn written_journals_are_read_again()
    ensures again { (journal : Journal) → IsReadable journal
        → length (journal_bytes journal) ≤ journal_limit
        → journal_verdict (journal_bytes journal) ≡ Good journal }
{}

/// Different journals that are not too long have different texts.
pub fn two_journals_have_two_texts()
    ensures same { (first second : Journal) → IsReadable first → IsReadable second
        → length (journal_bytes first) ≤ journal_limit
        → journal_bytes first ≡ journal_bytes second → first ≡ second }
{}

/// A fault that was met in a journal is met in every longer text, and is the verdict on it: the
/// first fault counts.
pub fn the_first_fault_of_a_journal_counts()
    ensures stays { (text more : List ℕ) (fault : FileFault)
        → journal_fault text ≡ Some fault → journal_fault (text ++ more) ≡ Some fault }
    ensures lasts { (text more : List ℕ) (fault : FileFault)
        → journal_fault text ≡ Some fault → journal_verdict (text ++ more) ≡ Bad fault }
{}

/// Two readers of journals to which the same bytes were fed gave the same answers, and are in the
/// same state. So it does not matter when an allocation failed.
pub fn what_is_read_depends_on_the_bytes_alone()
    ensures given { (p q : JournalProgress) (given others : List ⊤) (b : List ℕ)
        → StandsForJournal p given b → StandsForJournal q others b → given ≡ others }
    ensures state { (p q : JournalProgress) (given others : List ⊤) (b : List ℕ)
        → StandsForJournal p given b → StandsForJournal q others b → p ≡ q }
{}

/// A reader to which the pieces of a journal were fed gave the answers that it gives for the whole
/// text.
pub fn how_a_journal_is_cut_does_not_matter()
    ensures whole { (old new : JournalProgress) (pieces : List (List ℕ)) (gave : List ⊤)
        → FeedsPieces journals old new pieces gave → Feeds journals old new (concat pieces) gave }
{}

/// Example journals: one that is good, others with a fault in their magic, in a hold or after the
/// end, and journals of too many bytes.
#[tactic(auto, unfolding(zy_read::specs::Format::verdict_on, zy_read::specs::Format::reading_of, zy_read::specs::Format::read_on))]
pub fn worked_journals()
    ensures good { journal_verdict worked_bytes ≡ Good worked }
    ensures cut { journal_verdict (codes "ZYGJRN1") ≡ Bad (Truncated 7) }
    ensures letter { journal_verdict (codes "ZYGX") ≡ Bad (Form 3) }
    ensures tag { journal_verdict (with_magic (codes "X")) ≡ Bad (Form 8) }
    ensures trailing { journal_verdict (with_magic (codes "EE")) ≡ Bad (Form 9) }
    ensures hold { journal_verdict (with_magic (codes "H\0\0\u{10}\0")) ≡ Bad (Form 9) }
    ensures core { journal_verdict (with_magic (codes "H\0\0\0\0\0\0\0@")) ≡ Bad (Form 13) }
    ensures nothing { journal_verdict (with_magic (codes "H\0\0\0\0\0\0\0\0\0\0\0\0"))
        ≡ Bad (Form 17) }
    ensures most { journal_verdict (with_magic (codes "H\0\0\0\0\0\0\0\0\0\0\0A")) ≡ Bad (Form 17) }
    ensures falling { journal_verdict (behind_hold (codes "H\0\0\0\0")) ≡ Bad (Form 22) }
    ensures late { journal_verdict (behind_hold (codes "J")) ≡ Bad (Form 21) }
    ensures too_long { met_in_journal 9223372036854775806 (codes "JX") ≡ Some TooLong }
    ensures last { met_in_journal 9223372036854775806 (codes "EX")
        ≡ Some (Form 9223372036854775807) }
{}

/// Example journals with a fault in an entry.
#[tactic(auto, unfolding(zy_read::specs::Format::verdict_on, zy_read::specs::Format::reading_of, zy_read::specs::Format::read_on))]
pub fn worked_entries()
    ensures no_stamp { journal_verdict (with_magic (codes "J\0\0\0\0\0\0\0\0")) ≡ Bad (Form 9) }
    ensures stamp { journal_verdict (with_magic (codes "J\u{10}\0\0\0\0\0\0\0")) ≡ Bad (Form 9) }
    ensures shard { journal_verdict (with_magic (codes "J\0\0\0\0\0\0\0\u{1}\0\0\u{1}\0"))
        ≡ Bad (Form 17) }
    ensures connection { journal_verdict (with_magic (codes "J\0\0\0\0\0\0\0\u{1}\0\0\0\0\0\0\u{10}\0"))
        ≡ Bad (Form 21) }
    ensures falling { journal_verdict (behind_entry (codes "J\0\0\0\0\0\0\0\u{1}"))
        ≡ Bad (Form 40) }
    ensures same { journal_verdict (behind_entry (codes "J\0\0\0\0\0\0\0\u{2}\0\0\0\u{3}")) ≡ Bad (Form 48) }
    ensures call { journal_verdict (with_call (codes "ÿ")) ≡ Bad (Form 37) }
    ensures no_key { journal_verdict (with_call (codes "\u{1}\0")) ≡ Bad (Form 38) }
    ensures key { journal_verdict (with_call (codes "\u{1}û")) ≡ Bad (Form 38) }
    ensures value { journal_verdict (with_call (codes "\u{2}\u{1}a\0\0\0\0\0\u{10}\0\u{1}")) ≡ Bad (Form 44) }
    ensures reply { journal_verdict (with_call (codes "\u{1}\u{1}aÿ")) ≡ Bad (Form 40) }
    ensures tally { journal_verdict (with_call (codes "\u{c}\u{c}\0\0\0\0\0\0\0\u{2}")) ≡ Bad (Truncated 47) }
    ensures found { journal_verdict (with_call (codes "\u{1}\u{1}a\u{2}\0\0\0\0\0\0\0\0\0\0\0\0\0\u{10}\0\u{1}"))
        ≡ Bad (Form 53) }
    ensures cut { journal_verdict (with_call (codes "\u{1}úa")) ≡ Bad (Truncated 40) }
{}

/// Example journals with a code that no kind of call or reply has: 0, and the one after the last.
#[tactic(auto, unfolding(zy_read::specs::Format::verdict_on, zy_read::specs::Format::reading_of, zy_read::specs::Format::read_on))]
pub fn worked_codes()
    ensures no_call { journal_verdict (with_call (0 ∷ [])) ≡ Bad (Form 37) }
    ensures next_call { journal_verdict (with_call ((last_call_code + 1) ∷ [])) ≡ Bad (Form 37) }
    ensures no_reply { journal_verdict (with_call (codes "\u{1}\u{1}a" ++ 0 ∷ [])) ≡ Bad (Form 40) }
    ensures next_reply { journal_verdict (with_call (codes "\u{1}\u{1}a" ++ (last_reply_code + 1) ∷ []))
        ≡ Bad (Form 40) }
{}
