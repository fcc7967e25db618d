//! A law of what is certified and what is explained.
ghost use Rattle.std.specs.Prelude.{◌≤◌, ℕ, Bool, List};
ghost use Rattle.zy_capture.specs.declared.record.Record.{Record};
ghost use Rattle.zy_capture.specs.Capture.{IsCapture};
ghost use Rattle.zy_capture.specs.Outputs.{AllOutputs};
ghost use Rattle.zy_journal.specs.declared.journal.Journal.{Journal};
ghost use Rattle.zy_journal_reader.specs.Verdict.{IsReadable};
ghost use Rattle.zy_read.specs.Seen.{Side, OfGiven};
ghost use Rattle.zy_check.specs.OfRun.{AreOfRun};
ghost use Rattle.zy_times.specs.Recording.{MarksFit};
ghost use Rattle.zy_times.specs.InTime.{IsInTime};
ghost use Rattle.zy_verdict.specs.Explained.{IsExplained};
ghost use Rattle.zygos_linear.specs.Finding.{IsLinearizable, OfRecording};
ghost use Rattle.judge_laws.specs.Recorded.{recorded_with, run_recording};

/// If `linear` says yes to what a source gave, the recording is explained: some order of all calls
/// gives its outputs within its times, whether or not the server may have begun with items or lost
/// some. So `judge`, with as many shards, does not refute it.
pub fn a_legal_run_is_explained()
    ensures run { (warm forget : Bool) (shards version count : ℕ) (records : List Record) (journal : Journal)
        (outputs : AllOutputs) → IsCapture version count records → IsReadable journal
        → AreOfRun shards count records journal outputs
        → MarksFit (run_recording records journal) → IsInTime (run_recording records journal)
        → IsExplained (recorded_with warm forget shards count records outputs.sessions) }
    ensures input { (warm forget : Bool) (shards commands ended : ℕ) (source : Side) → 1 ≤ shards
        → OfGiven source (λ bytes. OfRecording shards bytes (λ g r count. IsLinearizable g r count commands ended))
        → OfGiven source (λ bytes. OfRecording shards bytes
        (λ g r count. IsExplained (recorded_with warm forget shards count r.records g.outputs))) }
{}
