//! Example captures and replies files, in which each character is the byte of its code.
#![tactic(auto, unfolding(zy_read::specs::Format::verdict_on, zy_read::specs::Format::reading_of, zy_read::specs::Format::read_on))]

ghost use Rattle.std.specs.Prelude.{◌≡◌, [], ◌∷◌, codes, Some};
ghost use Rattle.zy_base.specs.declared.file_fault.FileFault.TheVariants as FileFaults;
ghost use Rattle.zy_capture.specs.declared.record.Record.TheVariants as Kinds;
ghost use Rattle.zy_capture.specs.declared.capture_fault.CaptureFault.TheVariants as Faults;
ghost use Rattle.zy_capture.specs.Verdict.{verdict};
ghost use Rattle.zy_capture.specs.Verdict.Verdict.{Good, Bad};
ghost use Rattle.zy_capture.specs.Streams.{no_bytes, with_records};
ghost use Rattle.zy_capture.specs.Replies.{replies_bytes, items_of};
ghost use Rattle.zy_capture.specs.RepliesVerdict as Replies;
ghost use Rattle.format_laws.specs.WorkedCaptures as Worked;

/// Example captures, and the streams of their connections.
pub fn worked_captures()
    ensures none { verdict (codes "ZYGCAP1\n\0\0\0\0E") ≡ Good 1 0 [] }
    ensures most { verdict (codes "ZYGCAP1\n\0\0\u{10}\0S\0\0\u{f}ÿ\0\0\0\u{1}xE")
        ≡ Good 1 4096 (Kinds.Segment (record { conn = 4095; bytes = codes "x" }) ∷ []) }
    ensures segments { verdict Worked.segments_text ≡ Good 1 2 Worked.segments }
    ensures sessions { verdict Worked.sessions_text ≡ Good 2 2 Worked.sessions }
    ensures first_streams { with_records (no_bytes 2) Worked.segments
        ≡ ([] ∷ []) ∷ (codes "abcd" ∷ []) ∷ [] }
    ensures later_streams { with_records (no_bytes 2) Worked.sessions
        ≡ (codes "ab" ∷ codes "c" ∷ []) ∷ ([] ∷ [] ∷ []) ∷ [] }
{}

/// Example captures that are cut, or have a fault in their magic or their count.
pub fn worked_heads()
    ensures none { verdict [] ≡ Bad (Faults.Truncated 0) }
    ensures first { verdict (codes "zYGCAP1\n") ≡ Bad (Faults.BadMagic 0) }
    ensures letter { verdict (codes "ZYGX") ≡ Bad (Faults.BadMagic 3) }
    ensures letters { verdict (codes "ZYGCAP") ≡ Bad (Faults.Truncated 6) }
    ensures digit { verdict (codes "ZYGCAP3\n") ≡ Bad (Faults.BadMagic 6) }
    ensures line { verdict (codes "ZYGCAP2\r\n\0\0\0") ≡ Bad (Faults.BadMagic 7) }
    ensures count { verdict (codes "ZYGCAP1\n\0\0\u{10}") ≡ Bad (Faults.Truncated 11) }
    ensures many { verdict (codes "ZYGCAP1\n\0\0\u{10}\u{1}E") ≡ Bad (Faults.ConnCount 4097) }
    ensures greatest { verdict (codes "ZYGCAP2\nÿÿÿÿE") ≡ Bad (Faults.ConnCount 4294967295) }
{}

/// Example captures with a fault in a record or at the end, and captures of too many bytes.
pub fn worked_records()
    ensures tag { verdict (codes "ZYGCAP1\n\0\0\0\u{1}x") ≡ Bad (Faults.BadTag 12 120) }
    ensures close { verdict (codes "ZYGCAP1\n\0\0\0\u{1}C\0\0\0\0E") ≡ Bad (Faults.BadTag 12 67) }
    ensures after_close { verdict (codes "ZYGCAP2\n\0\0\0\u{1}C\0\0\0\0x") ≡ Bad (Faults.BadTag 17 120) }
    ensures none { verdict (codes "ZYGCAP1\n\0\0\0\0S\0\0\0\0") ≡ Bad (Faults.ConnRange 13 0) }
    ensures range { verdict (codes "ZYGCAP1\n\0\0\0\u{2}S\0\0\u{1}\u{2}") ≡ Bad (Faults.ConnRange 13 258) }
    ensures most { verdict (codes "ZYGCAP1\n\0\0\u{10}\0S\0\0\u{10}\0") ≡ Bad (Faults.ConnRange 13 4096) }
    ensures close_range { verdict (codes "ZYGCAP2\n\0\0\0\u{2}C\0\0\0\u{2}E") ≡ Bad (Faults.ConnRange 13 2) }
    ensures length { verdict (codes "ZYGCAP1\n\0\0\0\u{1}S\0\0\0\0\0\u{1}\0\0E")
        ≡ Bad (Faults.SegmentLength 17 65536) }
    ensures cut { verdict (codes "ZYGCAP1\n\0\0\0\u{1}S\0\0\0\0\0\0ÿÿab") ≡ Bad (Faults.Truncated 23) }
    ensures trailing { verdict (codes "ZYGCAP1\n\0\0\0\0EE") ≡ Bad (Faults.Trailing 13) }
    ensures too_long { Worked.met_behind 4294967295 (codes "EE") ≡ Some Faults.TooLong }
    ensures long_record { Worked.met_behind 4294967291 (codes "C\0\0\0\u{1}") ≡ Some Faults.TooLong }
    ensures last_record { Worked.met_behind 4294967290 (codes "C\0\0\0\u{1}")
        ≡ Some (Faults.ConnRange 4294967291 1) }
    ensures last { Worked.met_behind 4294967294 (codes "EE") ≡ Some (Faults.Trailing 4294967295) }
{}

/// Example replies files, and the texts written for outputs.
pub fn worked_replies()
    ensures none { Replies.verdict (codes "ZYGREP1\nE") ≡ Replies.Verdict.Good 1 [] }
    ensures no_session { Replies.verdict (codes "ZYGREP2\nE") ≡ Replies.Verdict.Good 2 [] }
    ensures outputs { Replies.verdict Worked.outputs_text
        ≡ Replies.Verdict.Good 1 (items_of Worked.outputs) }
    ensures sessions { Replies.verdict Worked.session_outputs_text
        ≡ Replies.Verdict.Good 2 (items_of Worked.session_outputs) }
    ensures written { replies_bytes Worked.outputs ≡ Worked.outputs_text }
    ensures written_sessions { replies_bytes Worked.session_outputs ≡ Worked.session_outputs_text }
{}

/// Example replies files with a fault, and replies files of too many bytes.
pub fn worked_reply_faults()
    ensures cut { Replies.verdict (codes "ZYGRE") ≡ Replies.Verdict.Bad (FileFaults.Truncated 5) }
    ensures letter { Replies.verdict (codes "ZYGX") ≡ Replies.Verdict.Bad (FileFaults.Form 3) }
    ensures digit { Replies.verdict (codes "ZYGREP3\n") ≡ Replies.Verdict.Bad (FileFaults.Form 6) }
    ensures line { Replies.verdict (codes "ZYGREP1E") ≡ Replies.Verdict.Bad (FileFaults.Form 7) }
    ensures tag { Replies.verdict (codes "ZYGREP1\nS") ≡ Replies.Verdict.Bad (FileFaults.Form 8) }
    ensures first { Replies.verdict (codes "ZYGREP1\nR\0\0\0\u{1}") ≡ Replies.Verdict.Bad (FileFaults.Form 9) }
    ensures twice { Replies.verdict (codes "ZYGREP1\nR\0\0\0\0\0\0\0\0\0\0\0\0R\0\0\0\0")
        ≡ Replies.Verdict.Bad (FileFaults.Form 22) }
    ensures cut_output { Replies.verdict (codes "ZYGREP1\nR\0\0\0\0\0\0\0\0\0\0\0\u{2}x")
        ≡ Replies.Verdict.Bad (FileFaults.Truncated 22) }
    ensures trailing { Replies.verdict (codes "ZYGREP1\nEE") ≡ Replies.Verdict.Bad (FileFaults.Form 9) }
    ensures session { Replies.verdict (codes "ZYGREP2\nR\0\0\0\0\0\0\0\u{1}")
        ≡ Replies.Verdict.Bad (FileFaults.Form 13) }
    ensures same_session { Replies.verdict (codes "ZYGREP2\nR\0\0\0\0\0\0\0\0\0\0\0\0\0\0\0\0R\0\0\0\0\0\0\0\0")
        ≡ Replies.Verdict.Bad (FileFaults.Form 30) }
    ensures skipped { Replies.verdict (codes "ZYGREP2\nR\0\0\0\0\0\0\0\0\0\0\0\0\0\0\0\0R\0\0\0\u{2}")
        ≡ Replies.Verdict.Bad (FileFaults.Form 26) }
    ensures too_long { Worked.met_behind_replies 9223372036854775807 (codes "x") ≡ Some FileFaults.TooLong }
    ensures long_record { Worked.met_behind_replies 9223372036854775806 (codes "R\0") ≡ Some FileFaults.TooLong }
    ensures last { Worked.met_behind_replies 9223372036854775806 (codes "Ex")
        ≡ Some (FileFaults.Form 9223372036854775807) }
{}
