//! Laws of the definitions: each is the contract of a function without a body.
ghost use Rattle.std.specs.Prelude.{◌≡◌, ℕ, List};
ghost use Rattle.zy_capture.specs.declared.record.Record.{Record};
ghost use Rattle.zy_capture.specs.Outputs.{AllOutputs};
ghost use Rattle.zy_journal.specs.declared.journal.Journal.{Journal};
ghost use Rattle.zy_check.specs.declared.verdict.Verdict.{Verdict};
ghost use Rattle.zy_check.specs.declared.verdict.Verdict.TheVariants.{Yes};
ghost use Rattle.zy_check.specs.Cause.{HasVerdict};
ghost use Rattle.zy_check.specs.OfRun.{AreOfRun, given_by_records};

/// If a journal and outputs are those of a run of a capture's records, the only verdict on them and
/// the capture's streams is yes.
pub fn served_runs_check()
    ensures right { (shards count : ℕ) (records : List Record) (journal : Journal)
        (outputs : AllOutputs) → AreOfRun shards count records journal outputs
        → HasVerdict (given_by_records shards count records journal outputs) Yes }
    ensures only { (shards count : ℕ) (records : List Record) (journal : Journal)
        (outputs : AllOutputs) (v : Verdict) → AreOfRun shards count records journal outputs
        → HasVerdict (given_by_records shards count records journal outputs) v → v ≡ Yes }
{}
