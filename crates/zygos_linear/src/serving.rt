//! The top call.
ghost use Rattle.std.specs.Prelude.{◌≡◌, ◌≤◌, ℕ, None, Ok, Err};
ghost use Rattle.zy_base.specs.Outside.{Rose};
ghost use Rattle.zy_command_line.specs.Request.{shards_asked};
ghost use Rattle.zy_check.specs.declared.verdict.Verdict.TheVariants.{Yes, No};
ghost use Rattle.zy_check.specs.Cause.{HasVerdict};
ghost use Rattle.zy_read.specs.Seen.{side, both_sides, NoneRose, OfGiven, OfTold, WasWritten};
ghost use Rattle.zy_times.specs.Recording.{MarksFit};
ghost use Rattle.zy_times.specs.InTime.{IsEarlyEnd, IsOutOfTime};
ghost use Rattle.zy_times.specs.declared.timing.Timing.TheVariants.{InTime, EarlyEnd, OutOfTime};
ghost use Rattle.zy_shell.specs.declared.failure.Failure.TheVariants.{Usage, Refused, ReadFault, WriteFault};
ghost use Rattle.zy_shell.specs.Asked.{IsFaultOf, ReadsInput, IsToldGood, IsToldBad};
ghost use Rattle.zy_shell.specs.Failure.{LeavesSink, IsThisOr};
ghost use Rattle.zy_shell.specs.Finish.{FinishesOnce};
ghost use Rattle.zy_shell.specs.Said.{Said};
ghost use Rattle.zygos_linear.specs.declared.finding.Finding.TheVariants.{NoRun, Run};
ghost use Rattle.zygos_linear.specs.Ends.{check_with, Finds, JudgesAs, JudgesPart, IsJudgedOr};
ghost use Rattle.zygos_linear.specs.Finding.{IsLinearizable};
ghost use Rattle.zygos_linear.specs.Lines.{finding_line, line_for};

use crate::command::carry_out;
use crate::finding::Finding;
use std::alloc::Global;
use zy_base::{Blob, Sink, Source};
use zy_input::{parts_have_no_fault, there_is_one_part_fault};
use zy_shell::{Failure, say};

/// Judges a recording: whether `zygos check` says yes, and whether each call can be given a moment
/// between its command and its answer, in the order of the journal.
///
/// `words` are the arguments: the options of `zygos check`. A capture, a journal and a replies
/// file are read from `source` to its end, and one line is written to `sink`, which is finished once.
///
/// The line of a failure goes to `says`; a failure there changes nothing. The
/// answer may always be `Err(OutOfMemory)`, but only before the first byte is written.
pub fn serve_linear<S: Source, K: Sink, E: Sink>(
    alloc: Global,
    words: &[Blob],
    source: &mut S,
    sink: &mut K,
    says: &mut E,
) -> Result<Finding, Failure>
    // What is found, for the bytes that the source gave.
    ensures yes { (commands ended : ℕ) → result ≡ Ok (Run (InTime commands ended))
        → Finds (shards_asked words.now) (OfGiven (side S.rest S.faults source.old source.new))
        (λ g r count. IsLinearizable g r count commands ended)
        (WasWritten (side K.holds K.faults sink.old sink.new) (finding_line (Run (InTime commands ended)))) }
    ensures no_run { (cause : _) → result ≡ Ok (NoRun cause)
        → Finds (shards_asked words.now) (OfGiven (side S.rest S.faults source.old source.new))
        (λ g r count. HasVerdict g (No cause))
        (WasWritten (side K.holds K.faults sink.old sink.new) (finding_line (NoRun cause))) }
    ensures early { (at : ℕ) → result ≡ Ok (Run (EarlyEnd at))
        → Finds (shards_asked words.now) (OfGiven (side S.rest S.faults source.old source.new))
        (λ g r count. HasVerdict g Yes × IsEarlyEnd r at)
        (WasWritten (side K.holds K.faults sink.old sink.new) (finding_line (Run (EarlyEnd at)))) }
    ensures late { (entry after : ℕ) → result ≡ Ok (Run (OutOfTime entry after))
        → Finds (shards_asked words.now) (OfGiven (side S.rest S.faults source.old source.new))
        (λ g r count. HasVerdict g Yes × MarksFit r × IsOutOfTime r entry after)
        (WasWritten (side K.holds K.faults sink.old sink.new) (finding_line (Run (OutOfTime entry after)))) }

    // The headline: the same for the bytes that the source reported.
    ensures headline { (finding : _) → result ≡ Ok finding
        → JudgesAs (shards_asked words.now) (OfTold (side S.rest S.faults source.old source.new))
        (WasWritten (side K.holds K.faults sink.old sink.new)) finding }

    // The other answers, each with its cause.
    ensures usage { result ≡ Err Usage → shards_asked words.now ≡ None }
    ensures unlawful { shards_asked words.now ≡ None → IsThisOr Usage result }
    ensures refused { (r : _) → result ≡ Err (Refused r)
        → IsFaultOf (check_with (shards_asked words.now)) (S.rest source.old) r }
    ensures read_fault { result ≡ Err ReadFault
        → ReadsInput (check_with (shards_asked words.now)) × Rose (S.faults source.old) (S.faults source.new) }
    ensures write_fault { result ≡ Err WriteFault → Rose (K.faults sink.old) (K.faults sink.new) }
    ensures write_part { result ≡ Err WriteFault → JudgesPart (shards_asked words.now)
        (both_sides (side S.rest S.faults source.old source.new) (side K.holds K.faults sink.old sink.new)) }

    // When the answer must come, unless memory runs out.
    ensures complete { IsToldGood (check_with (shards_asked words.now)) (S.rest source.old)
        → NoneRose (both_sides (side S.rest S.faults source.old source.new) (side K.holds K.faults sink.old sink.new))
        → IsJudgedOr result }
    ensures refuses { (r : _) → IsToldBad (check_with (shards_asked words.now)) (S.rest source.old) r
        → NoneRose (both_sides (side S.rest S.faults source.old source.new) (side K.holds K.faults sink.old sink.new))
        → IsThisOr (Refused r) result }

    // What stays.
    ensures sink_kept { LeavesSink result → sink.new ≡ sink.old }
    ensures source_kept { shards_asked words.now ≡ None → source.new ≡ source.old }
    ensures reads { S.faults source.old ≤ S.faults source.new }
    ensures writes { K.faults sink.old ≤ K.faults sink.new }

    // Whether the sink was finished.
    ensures finished { FinishesOnce result (K.finishes sink.old) (K.finishes sink.new) (K.is_finished sink.new) }

    // The line on standard error.
    ensures said { Said (E.holds says.old) (E.holds says.new) (E.faults says.old) (E.faults says.new)
        (line_for result) }
{
    parts_have_no_fault();
    there_is_one_part_fault();
    let answer = carry_out(alloc, words, source, sink);
    say(says, b"linear", b"[--shards N]", &answer);
    answer
}
