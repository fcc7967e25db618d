//! Laws of what `linear` finds.
ghost use Rattle.std.specs.Prelude.{◌≡◌, ◌<◌, ◌≤◌, ℕ, List, length};
ghost use Rattle.mc_calls.specs.declared.entry.Entry.{Entry};
ghost use Rattle.zy_capture.specs.declared.record.Record.{Record};
ghost use Rattle.zy_capture.specs.Capture.{IsCapture};
ghost use Rattle.zy_capture.specs.Outputs.{AllOutputs};
ghost use Rattle.zy_journal.specs.declared.journal.Journal.{Journal};
ghost use Rattle.zy_read.specs.Seen.{Side, OfGiven};
ghost use Rattle.zy_run.specs.Commands.{commands_in};
ghost use Rattle.zy_check.specs.OfRun.{AreOfRun};
ghost use Rattle.zy_times.specs.Recording.{Recording};
ghost use Rattle.zy_times.specs.InTime.{IsInTime, IsEntryEnded, EndedOfAll, HasTiming, commands_of_all};
ghost use Rattle.zy_times.specs.declared.timing.Timing.{Timing};
ghost use Rattle.zygos_linear.specs.declared.finding.Finding.{Finding};
ghost use Rattle.zygos_linear.specs.Finding.{HasFinding, IsLinearizable, OfRecording};
ghost use Rattle.judge_laws.specs.Recorded.{run_recording};
ghost use Rattle.judge_laws.specs.Within.{AllLieWithin};

/// A recording has at most one timing, and an input has at most one finding, numbers included.
pub fn an_input_has_one_finding()
    ensures timing { (r : Recording) (count : ℕ) (a b : Timing) → HasTiming r count a → HasTiming r count b → a ≡ b }
    ensures same { (shards : ℕ) (bytes : List ℕ) (a b : Finding)
        → OfRecording shards bytes (λ g r count. HasFinding g r count a)
        → OfRecording shards bytes (λ g r count. HasFinding g r count b) → a ≡ b }
{}

/// If some mark ends each command, each command has ended at the last moment. So each call of a run in
/// time lies between the sending and the recorded end of its command, and so does each call of an
/// input to which `linear` says yes with two equal numbers.
pub fn each_call_lies_within_its_command()
    ensures ended { (r : Recording) (count number : ℕ) → EndedOfAll r count number
        → number ≡ commands_of_all r count → (e : Entry) → e.tag.conn < count
        → e.tag.index < length (commands_in r.records e.tag.conn) → IsEntryEnded r e (length r.records) }
    ensures run { (shards version count : ℕ) (records : List Record) (journal : Journal) (outputs : AllOutputs)
        → IsCapture version count records → AreOfRun shards count records journal outputs
        → IsInTime (run_recording records journal)
        → EndedOfAll (run_recording records journal) count (commands_of_all (run_recording records journal) count)
        → AllLieWithin (run_recording records journal) }
    ensures input { (shards number : ℕ) (source : Side) → 1 ≤ shards
        → OfGiven source (λ bytes. OfRecording shards bytes (λ g r count. IsLinearizable g r count number number))
        → OfGiven source (λ bytes. OfRecording shards bytes (λ g r count. AllLieWithin r)) }
{}
