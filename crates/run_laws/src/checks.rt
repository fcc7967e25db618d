//! Laws of checks.
ghost use Rattle.std.specs.Prelude.{◌≡◌, ℕ, ◌-◌, ◌^◌, ◌<◌, ◌≤◌, List, length, None};
ghost use Rattle.std.specs.List.{AllByRecursion};
ghost use Rattle.mc_calls.specs.declared.hold.Hold.{Hold};
ghost use Rattle.mc_calls.specs.Bounds.{FitsEntry};
ghost use Rattle.mc_calls.specs.Order.{IsOrdered};
ghost use Rattle.zy_capture.specs.declared.record.Record.{Record};
ghost use Rattle.zy_capture.specs.Capture.{Spells};
ghost use Rattle.zy_capture.specs.Outputs.{AllOutputs, AreOutputs};
ghost use Rattle.zy_capture.specs.Replies.{replies_bytes};
ghost use Rattle.zy_capture.specs.Streams.{sessions_of};
ghost use Rattle.zy_journal.specs.declared.journal.Journal.{Journal};
ghost use Rattle.zy_journal.specs.Journal.{AreByConnection, IsJournal, journal_bytes};
ghost use Rattle.zy_run.specs.Commands.{commands_held};
ghost use Rattle.zy_run.specs.Run.{IsRun};
ghost use Rattle.zy_run.specs.Output.{connection_outputs};
ghost use Rattle.zy_run.specs.Spans.{Spans};
ghost use Rattle.zy_check.specs.declared.verdict.Verdict.{Verdict};
ghost use Rattle.zy_check.specs.declared.verdict.Verdict.TheVariants.{Yes};
ghost use Rattle.zy_check.specs.Given.{Given};
ghost use Rattle.zy_check.specs.Cause.{HasVerdict};
ghost use Rattle.zy_check.specs.OfRun.{IsGivenByRun, AreOfRun, given_by_records};

/// There is one verdict on any files.
pub fn there_is_one_verdict()
    ensures some { (g : Given) → (v : Verdict) × HasVerdict g v }
    ensures same { (g : Given) (a b : Verdict) → HasVerdict g a → HasVerdict g b → a ≡ b }
{}

// ---- runs

/// If the files are those of a run, the only verdict is yes.
pub fn a_run_is_right()
    ensures right { (g : Given) → IsGivenByRun g → HasVerdict g Yes }
    ensures only { (g : Given) (v : Verdict) → IsGivenByRun g → HasVerdict g v → v ≡ Yes }
{}

/// If the verdict is yes, the files are those of a run; this includes the holds if they are in the
/// order of connections and each counts a command.
pub fn yes_means_a_run()
    ensures run { (g : Given) → 1 ≤ g.shards → HasVerdict g Yes
        → IsRun g.shards g.entries (length g.streams) (commands_held g.streams) }
    ensures outputs { (g : Given) (conn : ℕ) → HasVerdict g Yes
        → sessions_of g.outputs conn ≡ connection_outputs conn (sessions_of g.streams conn)
        g.entries }
    ensures holds { (g : Given) → AreByConnection 0 g.holds
        → AllByRecursion (λ (h : Hold). 0 < h.count) g.holds → HasVerdict g Yes
        → Spans g.holds (length g.streams) (commands_held g.streams) }
{}

/// If the verdict on a journal and outputs that have an encoding and a capture's streams is yes,
/// they are those of a run of the capture's records, in the order of their stamps.
pub fn what_checks_is_of_a_run()
    ensures run { (shards count : ℕ) (records : List Record) (journal : Journal)
        (outputs : AllOutputs) → 1 ≤ shards → IsJournal journal → AreOutputs outputs
        → HasVerdict (given_by_records shards count records journal outputs) Yes
        → AreOfRun shards count records journal outputs }
    ensures order { (journal : Journal) → IsJournal journal → IsOrdered None journal.entries }
{}

/// The files of a run of a capture on at most 256 shards have fewer than 2^63 - 1 bytes each, if the
/// journal is within the bounds of its format, and the numbers of its entries fit their bytes.
pub fn a_run_has_short_files()
    ensures journal { (shards version count : ℕ) (text : List ℕ) (records : List Record)
        (journal : Journal) (outputs : AllOutputs) → shards ≤ 256
        → Spells text version count records → AreOfRun shards count records journal outputs
        → IsJournal journal → length (journal_bytes journal) < 2 ^ 63 - 1 }
    ensures replies { (shards version count : ℕ) (text : List ℕ) (records : List Record)
        (journal : Journal) (outputs : AllOutputs) → shards ≤ 256
        → Spells text version count records → AreOfRun shards count records journal outputs
        → IsJournal journal → AllByRecursion FitsEntry journal.entries
        → length (replies_bytes outputs) < 2 ^ 63 - 1 }
{}
