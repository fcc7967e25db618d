//! Laws of served runs and of checks: each is the contract of a function without a body.
ghost use Rattle.std.specs.Prelude.{◌≡◌, ◌<◌, ◌≤◌, ◌++◌, ◌↔◌, ℕ, List, length, Option, Some};
ghost use Rattle.zy_capture.specs.Outputs.{AllOutputs, AreOutputs};
ghost use Rattle.zy_capture.specs.Replies.{replies_bytes, replies_limit};
ghost use Rattle.zy_journal.specs.declared.journal.Journal.{Journal};
ghost use Rattle.zy_journal.specs.Journal.{journal_bytes};
ghost use Rattle.zy_journal_reader.specs.Steps.{journal_limit};
ghost use Rattle.zy_check.specs.declared.verdict.Verdict.{Verdict};
ghost use Rattle.zy_check.specs.declared.verdict.Verdict.TheVariants.{Yes};
ghost use Rattle.zy_input.specs.Parts.{IsMadeOfParts};
ghost use Rattle.zy_command_line.specs.Grammar.{Word};
ghost use Rattle.zy_command_line.specs.Range.{AreShards};
ghost use Rattle.zy_command_line.specs.Request.{request_of};
ghost use Rattle.zy_command_line.specs.declared.request.Run.{Run};
ghost use Rattle.zy_command_line.specs.declared.request.Out.{Out};
ghost use Rattle.zy_command_line.specs.declared.request.Out.TheVariants.{Both};
ghost use Rattle.zy_command_line.specs.declared.request.Request.{Request};
ghost use Rattle.zy_command_line.specs.declared.request.Request.TheVariants as Requests;
ghost use Rattle.zy_read.specs.Seen.{Seen, Side, WasWritten, OfTold, OfGiven};
ghost use Rattle.zy_serving.specs.Headline.{IsServed, IsWritten, written};
ghost use Rattle.zygos_run.specs.Checked.{IsChecked};
ghost use Rattle.zygos_run.specs.declared.answer.Answer.TheVariants as Answers;
ghost use Rattle.zygos_run.specs.Served.{HeadlineHolds};
ghost use Rattle.zygos_laws.specs.Certified.{IsInputOfRun, IsCertified};

/// The headline says of a requested run, and of no other command, that it was served from all bytes
/// that the source reported, and that all of it was written.
pub fn the_headline_is_of_a_run()
    ensures run { (request : Option Request) (call : Seen) (journal : Journal)
        → HeadlineHolds request call (Answers.Served journal)
        ↔ ((asked : Run) × (out : Out) × (request ≡ Some (Requests.Run asked out))
        × OfTold call.source (λ bytes. IsWritten asked out bytes journal (WasWritten call.sink))) }
{}

/// The text of a served run's journal has fewer than 2^63 - 1 bytes, and so has its replies file.
pub fn a_served_run_has_short_files()
    ensures journal { (asked : Run) (bytes : List ℕ) (journal : Journal) (outputs : AllOutputs)
        → AreShards asked.shards → IsServed asked bytes journal outputs
        → length (journal_bytes journal) < journal_limit }
    ensures replies { (asked : Run) (bytes : List ℕ) (journal : Journal) (outputs : AllOutputs)
        → AreShards asked.shards → IsServed asked bytes journal outputs
        → length (replies_bytes outputs) < replies_limit }
{}

/// A capture that was served, with the text of the run's journal and the replies file after it, is
/// an input of `check`, and the verdict on it is yes.
pub fn what_is_served_checks()
    ensures checks { (asked : Run) (bytes : List ℕ) (journal : Journal) (outputs : AllOutputs)
        → AreShards asked.shards → IsServed asked bytes journal outputs
        → IsChecked asked.shards (bytes ++ written Both journal outputs) Yes }
    ensures told { (words : List Word) (asked : Run) (out : Out) (call : Seen) (bytes : List ℕ)
        (journal : Journal) → request_of words ≡ Some (Requests.Run asked out)
        → call.source.before ≡ Some bytes
        → HeadlineHolds (request_of words) call (Answers.Served journal)
        → IsCertified asked out bytes journal call.sink }
{}

/// An input has one verdict, if it has parts.
pub fn an_input_has_one_verdict()
    ensures some { (shards : ℕ) (bytes : List ℕ) (streams : List (List (List ℕ)))
        (journal : Journal) (outputs : AllOutputs) → IsMadeOfParts bytes streams journal outputs
        → AreOutputs outputs → (v : Verdict) × IsChecked shards bytes v }
    ensures same { (shards : ℕ) (bytes : List ℕ) (a b : Verdict)
        → IsChecked shards bytes a → IsChecked shards bytes b → a ≡ b }
{}

/// If the verdict on what a source gave is yes, the records of its capture have a run with its journal
/// and its outputs.
pub fn an_input_that_checks_is_of_a_run()
    ensures run { (shards : ℕ) (source : Side) → 1 ≤ shards
        → OfGiven source (λ bytes. IsChecked shards bytes Yes) → OfGiven source (IsInputOfRun shards) }
{}
