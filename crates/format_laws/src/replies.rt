//! Laws of replies files and of outputs.
ghost use Rattle.std.specs.Prelude.{◌≡◌, ◌≢◌, ◌⊎◌, ◌≤◌, ◌↔◌, ◌+◌, ℕ, List, [], ◌∷◌, ◌++◌, length, codes, None, Some};
ghost use Rattle.std.specs.List.{concat, sum_by};
ghost use Rattle.zy_base.specs.declared.file_fault.FileFault.{FileFault};
ghost use Rattle.zy_read.specs.Standing.{Feeds};
ghost use Rattle.format_laws.specs.Pieces.{FeedsPieces};
ghost use Rattle.zy_capture.specs.declared.session_bytes.SessionBytes.{SessionBytes};
ghost use Rattle.zy_read.specs.Bytes.{AreBytes};
ghost use Rattle.zy_capture.specs.SoFar.{BeginsWithRepliesMagic, IsRepliesSoFar};
ghost use Rattle.zy_capture.specs.Verdict.{verdict, fault_of, version_of};
ghost use Rattle.zy_capture.specs.Verdict.Verdict.{Good, Bad};
ghost use Rattle.zy_capture.specs.Outputs.{AllOutputs, AreOutputs, MayAdd, with_output};
ghost use Rattle.zy_capture.specs.Replies.{SpellsReplies, AreBySession, replies_bytes, replies_limit, items_of};
ghost use Rattle.zy_capture.specs.RepliesSteps as RepliesProgress;
ghost use Rattle.format_laws.specs.RepliesFaults as RepliesFaults;
ghost use Rattle.zy_capture.specs.RepliesVerdict as Replies;
ghost use Rattle.zy_capture.specs.RepliesStanding.{StandsForReplies};

// ---- replies files

/// A text is a good replies file, with a version and outputs, if and only if it is their encoding,
/// they are those of a replies file, and it has at most 2^63 - 1 bytes.
pub fn a_replies_file_is_good_exactly_where_it_is_a_spelling()
    ensures exactly { (text : List ℕ) (version : ℕ) (items : List SessionBytes) → AreBytes text
        → Replies.verdict text ≡ Replies.Verdict.Good version items
        ↔ SpellsReplies text version items }
{}

/// The verdict on a text as a replies file is bad with a fault if and only if the text has that
/// fault.
pub fn a_replies_file_is_bad_exactly_where_it_has_a_fault()
    ensures exactly { (text : List ℕ) (fault : FileFault) → AreBytes text
        → Replies.verdict text ≡ Replies.Verdict.Bad fault
        ↔ RepliesFaults.HasFaultAsReplies text fault }
{}

/// While a good replies file is read, its version and its outputs are those that it encodes.
pub fn a_good_replies_file_tells_its_parts()
    ensures version { (text : List ℕ) (version : ℕ) (items : List SessionBytes) → AreBytes text
        → Replies.verdict text ≡ Replies.Verdict.Good version items
        → Replies.version_of text ≡ Some version }
    ensures outputs { (text : List ℕ) (version : ℕ) (items : List SessionBytes) → AreBytes text
        → Replies.verdict text ≡ Replies.Verdict.Good version items
        → Replies.outputs_of text ≡ items }
{}

/// The version that is read of a replies file is that of the magic with which it begins, and none if
/// it begins with no magic.
pub fn the_version_of_a_replies_file_is_told()
    ensures version { (text : List ℕ) (version : ℕ)
        → Replies.version_of text ≡ Some version ↔ BeginsWithRepliesMagic text version }
{}

/// The outputs of a text without a fault so far are those of a replies file whose version was read.
pub fn the_outputs_of_a_replies_file_so_far_are_lawful()
    ensures lawful { (text : List ℕ) → AreBytes text → Replies.fault_of text ≡ None
        → Replies.outputs_of text ≢ [] → IsRepliesSoFar text }
{}

/// A fault that was met in a replies file is met in every longer text, and is the verdict on it:
/// the first fault counts.
pub fn the_first_fault_of_a_replies_file_counts()
    ensures stays { (text more : List ℕ) (fault : FileFault) → Replies.fault_of text ≡ Some fault
        → Replies.fault_of (text ++ more) ≡ Some fault }
    ensures lasts { (text more : List ℕ) (fault : FileFault) → Replies.fault_of text ≡ Some fault
        → Replies.verdict (text ++ more) ≡ Replies.Verdict.Bad fault }
{}

/// Two readers of replies files to which the same bytes were fed gave the same outputs, and are in
/// the same state.
pub fn what_is_given_of_replies_depends_on_the_bytes_alone()
    ensures given { (p q : RepliesProgress.RepliesPlace) (given others : List SessionBytes)
        (b : List ℕ)
        → StandsForReplies p given b → StandsForReplies q others b → given ≡ others }
    ensures state { (p q : RepliesProgress.RepliesPlace) (given others : List SessionBytes)
        (b : List ℕ)
        → StandsForReplies p given b → StandsForReplies q others b → p ≡ q }
{}

/// A reader to which the pieces of a replies file were fed gave what it gives for the file.
pub fn how_a_replies_file_is_cut_does_not_matter()
    ensures whole { (old new : RepliesProgress.RepliesPlace) (pieces : List (List ℕ))
        (gave : List SessionBytes)
        → FeedsPieces Replies.replies old new pieces gave
        → Feeds Replies.replies old new (concat pieces) gave }
{}

// ---- outputs

/// Outputs to which one was added, and those without any, can be written and read again.
pub fn outputs_stay_outputs()
    ensures none { (version : ℕ) → (version ≡ 1) ⊎ (version ≡ 2)
        → AreOutputs (record { version = version; sessions = [] }) }
    ensures added { (outputs : AllOutputs) (conn : ℕ) (bytes : List ℕ)
        → AreOutputs outputs → MayAdd outputs conn → AreOutputs (with_output outputs conn bytes) }
{}

/// An output that comes after others in a replies file may be added to these, and is then the last.
pub fn outputs_that_are_read_can_be_added()
    ensures may { (outputs : AllOutputs) (item : SessionBytes) → AreOutputs outputs
        → AreBySession outputs.version 0 0 (items_of outputs ++ item ∷ [])
        → MayAdd outputs item.conn }
    ensures last { (outputs : AllOutputs) (item : SessionBytes) → AreOutputs outputs
        → AreBySession outputs.version 0 0 (items_of outputs ++ item ∷ [])
        → items_of (with_output outputs item.conn item.bytes) ≡ items_of outputs ++ item ∷ [] }
{}

/// The text written for outputs is a good replies file of their version, which gives each session's
/// output again, unless it is too long.
pub fn written_replies_are_read_again()
    ensures again { (outputs : AllOutputs) → AreOutputs outputs
        → length (replies_bytes outputs) ≤ replies_limit
        → Replies.verdict (replies_bytes outputs)
        ≡ Replies.Verdict.Good outputs.version (items_of outputs) }
{}

/// A replies file has at most 17 bytes for each session beside its output, and nine others.
pub fn a_replies_file_has_few_bytes()
    ensures whole { (outputs : AllOutputs) → length (replies_bytes outputs)
        ≤ 9 + sum_by (λ sessions. sum_by (λ bytes. 17 + length bytes) sessions) outputs.sessions }
{}
