//! Laws of captures and of their streams.
ghost use Rattle.std.specs.Prelude.{◌≡◌, ◌≢◌, ◌≤◌, ◌↔◌, ◌+◌, ◌<◌, ℕ, List, [], ◌∷◌, ◌++◌, length, codes, None, Some};
ghost use Rattle.std.specs.List.{concat, slice_index_or, sum_by};
ghost use Rattle.zy_read.specs.Standing.{Feeds};
ghost use Rattle.format_laws.specs.Pieces.{FeedsPieces};
ghost use Rattle.zy_capture.specs.declared.record.Record.{Record};
ghost use Rattle.zy_capture.specs.declared.capture_fault.CaptureFault.{CaptureFault};
ghost use Rattle.zy_capture.specs.Capture.{Spells};
ghost use Rattle.zy_read.specs.Bytes.{AreBytes};
ghost use Rattle.format_laws.specs.CaptureFaults.{HasFaultAsCapture};
ghost use Rattle.zy_capture.specs.SoFar.{BeginsWithMagic, BeginsWithCount, IsCaptureSoFar};
ghost use Rattle.zy_capture.specs.Steps.{CaptureProgress};
ghost use Rattle.zy_capture.specs.Verdict.{captures, verdict, fault_of, version_of, count_of, records_of};
ghost use Rattle.zy_capture.specs.Verdict.Verdict.{Good, Bad};
ghost use Rattle.zy_capture.specs.Standing.{StandsForRecords};
ghost use Rattle.zy_capture.specs.Streams.{closes, stream, sessions_of, no_bytes, with_record, with_records};

/// The verdict on a text is bad with a fault if and only if the text has that fault.
pub fn a_capture_is_bad_exactly_where_it_has_a_fault()
    ensures exactly { (text : List ℕ) (fault : CaptureFault) → AreBytes text
        → verdict text ≡ Bad fault ↔ HasFaultAsCapture text fault }
{}

/// While a good capture is read, its version, its count and its records are those that it encodes.
pub fn a_good_capture_tells_its_parts()
    ensures version { (text : List ℕ) (version count : ℕ) (items : List Record) → AreBytes text
        → verdict text ≡ Good version count items → version_of text ≡ Some version }
    ensures count { (text : List ℕ) (version count : ℕ) (items : List Record) → AreBytes text
        → verdict text ≡ Good version count items → count_of text ≡ Some count }
    ensures records { (text : List ℕ) (version count : ℕ) (items : List Record) → AreBytes text
        → verdict text ≡ Good version count items → records_of text ≡ items }
{}

/// The version that is read of a text is that of the magic with which it begins, and none if it
/// begins with no magic. The count is that which follows the magic and is not too large, and none if
/// there is no such count.
pub fn the_version_and_the_count_are_told()
    ensures version { (text : List ℕ) (version : ℕ)
        → version_of text ≡ Some version ↔ BeginsWithMagic text version }
    ensures count { (text : List ℕ) (count : ℕ)
        → BeginsWithCount text count → count_of text ≡ Some count }
    ensures exactly { (text : List ℕ) (count : ℕ) → AreBytes text
        → count_of text ≡ Some count ↔ BeginsWithCount text count }
{}

/// The records of a text without a fault so far are those of a capture whose version and count were
/// read: each connection is below the count, and a connection has fewer than 2^31 closes.
pub fn the_records_of_a_capture_so_far_are_lawful()
    ensures lawful { (text : List ℕ) → AreBytes text → fault_of text ≡ None
        → records_of text ≢ [] → IsCaptureSoFar text }
{}

/// A fault that was met is met in every longer text, and is the verdict on it: the first fault
/// counts.
pub fn the_first_fault_of_a_capture_counts()
    ensures stays { (text more : List ℕ) (fault : CaptureFault)
        → fault_of text ≡ Some fault → fault_of (text ++ more) ≡ Some fault }
    ensures lasts { (text more : List ℕ) (fault : CaptureFault)
        → fault_of text ≡ Some fault → verdict (text ++ more) ≡ Bad fault }
{}

/// Two readers to which the same bytes were fed gave the same records, and are in the same state.
/// So it does not matter when an allocation failed, or what they were asked between the bytes.
pub fn what_is_given_depends_on_the_bytes_alone()
    ensures given { (p q : CaptureProgress) (given others : List Record) (b : List ℕ)
        → StandsForRecords p given b → StandsForRecords q others b → given ≡ others }
    ensures state { (p q : CaptureProgress) (given others : List Record) (b : List ℕ)
        → StandsForRecords p given b → StandsForRecords q others b → p ≡ q }
{}

/// A reader to which the pieces of a text were fed gave what it gives for the text.
pub fn how_a_capture_is_cut_does_not_matter()
    ensures whole { (old new : CaptureProgress) (pieces : List (List ℕ)) (gave : List Record)
        → FeedsPieces captures old new pieces gave → Feeds captures old new (concat pieces) gave }
{}

// ---- streams

/// A connection to whose streams records were added has one session more than close records, and
/// each session holds its stream.
pub fn each_session_holds_its_stream()
    ensures connections { (count : ℕ) (items : List Record)
        → length (with_records (no_bytes count) items) ≡ count }
    ensures count { (count conn : ℕ) (items : List Record) → conn < count
        → length (sessions_of (with_records (no_bytes count) items) conn) ≡ closes conn items + 1 }
    ensures bytes { (count conn session : ℕ) (items : List Record) → conn < count
        → slice_index_or (sessions_of (with_records (no_bytes count) items) conn) session []
        ≡ stream conn session items }
{}

/// One more record is added to the streams of the records before it.
pub fn a_further_record_is_added_last()
    ensures value { (connections : List (List (List ℕ))) (items : List Record) (item : Record)
        → with_records connections (items ++ item ∷ [])
        ≡ with_record (with_records connections items) item }
{}

/// The streams of a capture have together no more bytes than the capture, and no more sessions than
/// it has connections and bytes.
pub fn a_capture_has_few_streams()
    ensures bytes { (text : List ℕ) (version count : ℕ) (items : List Record)
        → Spells text version count items
        → sum_by (λ sessions. sum_by length sessions) (with_records (no_bytes count) items) ≤ length text }
    ensures sessions { (text : List ℕ) (version count : ℕ) (items : List Record)
        → Spells text version count items
        → sum_by length (with_records (no_bytes count) items) ≤ count + length text }
{}
