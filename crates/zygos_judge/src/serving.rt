//! The top call.
ghost use Rattle.std.specs.Prelude.{◌≡◌, ◌≤◌, ℕ, None, Ok, Err, ⊤};
ghost use Rattle.zy_base.specs.Outside.{Rose};
ghost use Rattle.zy_read.specs.Seen.{side, both_sides, NoneRose, OfGiven, OfTold, WasWritten};
ghost use Rattle.zy_shell.specs.declared.failure.Failure.TheVariants.{Usage, Refused as Rejected, ReadFault, WriteFault};
ghost use Rattle.zy_shell.specs.Asked.{IsFaultOf, ReadsInput, IsToldGood, IsToldBad};
ghost use Rattle.zy_shell.specs.Failure.{LeavesSink, IsThisOr};
ghost use Rattle.zy_shell.specs.Finish.{FinishesOnce};
ghost use Rattle.zy_shell.specs.Said.{Said};
ghost use Rattle.zy_outputs.specs.Observing.{IsSurplus, IsEarlyEnd};
ghost use Rattle.zy_verdict.specs.Explained.{IsExplained};
ghost use Rattle.zy_verdict.specs.Numbers.{IsExplainedWith};
ghost use Rattle.zygos_judge.specs.declared.finding.Finding.TheVariants.{Explained, Refuted, Unknown};
ghost use Rattle.zygos_judge.specs.declared.finding.Reason.TheVariants.{Kind, Surplus, EarlyEnd, Unmet, Shared};
ghost use Rattle.zygos_judge.specs.Words.{task_asked};
ghost use Rattle.zygos_judge.specs.Ends.{recording_with, Finds, LeadsOn, JudgesAs, JudgesPart, IsJudgedOr};
ghost use Rattle.zygos_judge.specs.Ends.{WritesFirst};
ghost use Rattle.zygos_judge.specs.Finding.{IsRefutedCommand, IsWithoutCourse};
ghost use Rattle.zygos_judge.specs.Lines.{finding_line, line_for};

use crate::command::carry_out;
use crate::finding::Finding;
use std::alloc::Global;
use zy_base::{Blob, Sink, Source};
use zy_shell::{Failure, say};

/// Judges a recording: whether some order of all calls explains its answers and its times.
///
/// `words` are the arguments: `--warm`, `--may-forget` and `--shards N`. A capture and a replies file
/// are read from `source` to its end, and one line is written to `sink`, which is finished once.
///
/// With `--from` or `--to` the recording is a window of a longer one. With `--from` an items file
/// stands between the two files: what the server had at first. Otherwise it had nothing then. With
/// `--to` an items file follows a line that says yes: what the server has at last. With `--from` a no is
/// said only if no order explains the recording whatever items the server had at first.
///
/// The line of a failure goes to `says`; a failure there changes nothing. The
/// answer may always be `Err(OutOfMemory)`, but only before the first byte is written. Nothing is
/// promised of when the answer is `Unknown`.
pub fn serve_judge<S: Source, K: Sink, E: Sink>(
    alloc: Global,
    words: &[Blob],
    source: &mut S,
    sink: &mut K,
    says: &mut E,
) -> Result<Finding, Failure>
    // What is found, for the bytes that the source gave: `r` is the recording in them.
    ensures yes { (commands ended : ℕ) → result ≡ Ok (Explained commands ended)
        → Finds (task_asked words.now) (OfGiven (side S.rest S.faults source.old source.new))
        (λ r. IsExplainedWith r commands ended)
        (WritesFirst (task_asked words.now) (side K.holds K.faults sink.old sink.new)
        (finding_line (Explained commands ended))) }
    ensures between { (commands ended : ℕ) → result ≡ Ok (Explained commands ended)
        → LeadsOn (task_asked words.now) (OfGiven (side S.rest S.faults source.old source.new))
        (WasWritten (side K.holds K.faults sink.old sink.new)) commands ended }
    ensures no { (reason : _) → result ≡ Ok (Refuted reason)
        → Finds (task_asked words.now) (OfGiven (side S.rest S.faults source.old source.new))
        (λ r. IsExplained r → ⊥)
        (WasWritten (side K.holds K.faults sink.old sink.new) (finding_line (Refuted reason))) }
    ensures kind { (conn command : ℕ) → result ≡ Ok (Refuted (Kind conn command))
        → Finds (task_asked words.now) (OfGiven (side S.rest S.faults source.old source.new))
        (λ r. IsRefutedCommand r conn command)
        (WasWritten (side K.holds K.faults sink.old sink.new) (finding_line (Refuted (Kind conn command)))) }
    ensures surplus { (conn session : ℕ) → result ≡ Ok (Refuted (Surplus conn session))
        → Finds (task_asked words.now) (OfGiven (side S.rest S.faults source.old source.new))
        (λ r. IsSurplus r conn session)
        (WasWritten (side K.holds K.faults sink.old sink.new) (finding_line (Refuted (Surplus conn session)))) }
    ensures early_end { (mark : ℕ) → result ≡ Ok (Refuted (EarlyEnd mark))
        → Finds (task_asked words.now) (OfGiven (side S.rest S.faults source.old source.new))
        (λ r. IsEarlyEnd r mark)
        (WasWritten (side K.holds K.faults sink.old sink.new) (finding_line (Refuted (EarlyEnd mark)))) }
    ensures unmet { (conn command part : ℕ) → result ≡ Ok (Refuted (Unmet conn command part))
        → Finds (task_asked words.now) (OfGiven (side S.rest S.faults source.old source.new))
        (λ r. IsWithoutCourse r conn command part)
        (WasWritten (side K.holds K.faults sink.old sink.new) (finding_line (Refuted (Unmet conn command part)))) }
    ensures shared { (conn command part : ℕ) → result ≡ Ok (Refuted (Shared conn command part))
        → Finds (task_asked words.now) (OfGiven (side S.rest S.faults source.old source.new))
        (λ r. IsWithoutCourse r conn command part)
        (WasWritten (side K.holds K.faults sink.old sink.new) (finding_line (Refuted (Shared conn command part)))) }
    ensures unknown { (why : _) → result ≡ Ok (Unknown why)
        → Finds (task_asked words.now) (OfGiven (side S.rest S.faults source.old source.new)) (λ r. ⊤)
        (WasWritten (side K.holds K.faults sink.old sink.new) (finding_line (Unknown why))) }

    // The headline: the same for the bytes that the source reported.
    ensures headline { (finding : _) → result ≡ Ok finding
        → JudgesAs (task_asked words.now) (OfTold (side S.rest S.faults source.old source.new))
        (WasWritten (side K.holds K.faults sink.old sink.new)) finding }

    // The other answers, each with its cause.
    ensures usage { result ≡ Err Usage → task_asked words.now ≡ None }
    ensures unlawful { task_asked words.now ≡ None → IsThisOr Usage result }
    ensures refused { (r : _) → result ≡ Err (Rejected r)
        → IsFaultOf (recording_with (task_asked words.now)) (S.rest source.old) r }
    ensures read_fault { result ≡ Err ReadFault
        → ReadsInput (recording_with (task_asked words.now)) × Rose (S.faults source.old) (S.faults source.new) }
    ensures write_fault { result ≡ Err WriteFault → Rose (K.faults sink.old) (K.faults sink.new) }
    ensures write_part { result ≡ Err WriteFault → JudgesPart (task_asked words.now)
        (both_sides (side S.rest S.faults source.old source.new) (side K.holds K.faults sink.old sink.new)) }

    // When the answer must come, unless memory runs out.
    ensures complete { IsToldGood (recording_with (task_asked words.now)) (S.rest source.old)
        → NoneRose (both_sides (side S.rest S.faults source.old source.new) (side K.holds K.faults sink.old sink.new))
        → IsJudgedOr result }
    ensures refuses { (r : _) → IsToldBad (recording_with (task_asked words.now)) (S.rest source.old) r
        → NoneRose (both_sides (side S.rest S.faults source.old source.new) (side K.holds K.faults sink.old sink.new))
        → IsThisOr (Rejected r) result }

    // What stays.
    ensures sink_kept { LeavesSink result → sink.new ≡ sink.old }
    ensures source_kept { task_asked words.now ≡ None → source.new ≡ source.old }
    ensures reads { S.faults source.old ≤ S.faults source.new }
    ensures writes { K.faults sink.old ≤ K.faults sink.new }

    // Whether the sink was finished.
    ensures finished { FinishesOnce result (K.finishes sink.old) (K.finishes sink.new) (K.is_finished sink.new) }

    // The line on standard error.
    ensures said { Said (E.holds says.old) (E.holds says.new) (E.faults says.old) (E.faults says.new)
        (line_for result) }
{
    let answer = carry_out(alloc, words, source, sink);
    say(
        says,
        b"judge",
        b"[--warm] [--may-forget] [--from] [--to] [--shards N]",
        &answer,
    );
    answer
}
