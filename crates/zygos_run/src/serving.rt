//! The top call.
ghost use Rattle.std.specs.Prelude.{◌≡◌, ◌≤◌, None, Err, IfOk};
ghost use Rattle.zy_base.specs.Outside.{Rose};
ghost use Rattle.zy_command_line.specs.Request.{request_of};
ghost use Rattle.zy_read.specs.Seen.{side, both_sides, NoneRose};
ghost use Rattle.zy_shell.specs.declared.failure.Failure.TheVariants.{Usage, Refused, ReadFault, WriteFault};
ghost use Rattle.zy_shell.specs.Asked.{IsFaultOf, ReadsInput, ReadsNothing, IsToldGood, IsToldBad};
ghost use Rattle.zy_shell.specs.Failure.{LeavesSink, IsThisOr};
ghost use Rattle.zy_shell.specs.Finish.{FinishesOnce};
ghost use Rattle.zy_shell.specs.Said.{Said};
ghost use Rattle.zygos_run.specs.Ends.{DoneHolds, HasPart};
ghost use Rattle.zygos_run.specs.Lines.{answer_line};
ghost use Rattle.zygos_run.specs.Served.{HeadlineHolds, IsDoneOr};
ghost use Rattle.zygos_run.specs.Task.{input_asked};

use crate::answer::Answer;
use crate::command::carry_out;
use std::alloc::Global;
use std::sync::Wait;
use std::thread::Threads;
use zy_base::{Blob, Gate, Sink, Source};
use zy_input::{parts_have_no_fault, there_is_one_part_fault};
use zy_shell::{Failure, say};

/// Executes the command that the words ask for.
///
/// `words` are the words after the program's name. `run` reads a capture from `source` to its end,
/// executes its commands on the cores that the words ask for, and writes the replies file of all
/// sessions to `sink`, with `--out both` after the journal. `check` reads a capture, a journal and
/// a replies file, and writes a line with the verdict on them. `gen` writes the capture of
/// generated traffic. `self` makes that capture, serves it, checks the result, and writes a line
/// with its numbers; it is proved that the check says yes. `pcap` reads recorded packets to the end
/// of the source, and writes the capture of those to one port. `report` reads a journal to the end
/// of the source, and writes a table of what its entries count, by shard. The sink is finished
/// once, after the last write.
///
/// The line of a failure goes to `says`; a failure there changes nothing. `gate`
/// is passed once for each command, when it begins. The answer may always be `Err(OutOfMemory)`, but
/// only before the first byte is written.
pub fn serve<R: Threads + Wait + Sync, S: Source, K: Sink, E: Sink, G: Gate + Sync>(
    rt: &R,
    alloc: Global,
    words: &[Blob],
    source: &mut S,
    sink: &mut K,
    says: &mut E,
    gate: &G,
) -> Result<Answer, Failure>
    // The headline: what was done, for the bytes that the source reported, and for those that it gave.
    ensures headline { IfOk result (λ answer. HeadlineHolds (request_of words.now)
        (both_sides (side S.rest S.faults source.old source.new) (side K.holds K.faults sink.old sink.new)) answer) }
    ensures done { IfOk result (λ answer. DoneHolds (request_of words.now)
        (both_sides (side S.rest S.faults source.old source.new) (side K.holds K.faults sink.old sink.new)) answer) }

    // The other answers, each with its cause.
    ensures usage { result ≡ Err Usage → request_of words.now ≡ None }
    ensures unlawful { request_of words.now ≡ None → IsThisOr Usage result }
    ensures refused { (r : _) → result ≡ Err (Refused r)
        → IsFaultOf (input_asked (request_of words.now)) (S.rest source.old) r }
    ensures read_fault { result ≡ Err ReadFault
        → ReadsInput (input_asked (request_of words.now)) × Rose (S.faults source.old) (S.faults source.new) }
    ensures write_fault { result ≡ Err WriteFault → Rose (K.faults sink.old) (K.faults sink.new) }
    ensures write_part { result ≡ Err WriteFault → HasPart (request_of words.now)
        (both_sides (side S.rest S.faults source.old source.new) (side K.holds K.faults sink.old sink.new)) }

    // When the answer must come, unless memory runs out.
    ensures complete { IsToldGood (input_asked (request_of words.now)) (S.rest source.old)
        → NoneRose (both_sides (side S.rest S.faults source.old source.new) (side K.holds K.faults sink.old sink.new))
        → IsDoneOr (request_of words.now) result }
    ensures refuses { (r : _) → IsToldBad (input_asked (request_of words.now)) (S.rest source.old) r
        → NoneRose (both_sides (side S.rest S.faults source.old source.new) (side K.holds K.faults sink.old sink.new))
        → IsThisOr (Refused r) result }

    // What stays.
    ensures sink_kept { LeavesSink result → sink.new ≡ sink.old }
    ensures source_kept { ReadsNothing (input_asked (request_of words.now)) → source.new ≡ source.old }
    ensures reads { S.faults source.old ≤ S.faults source.new }
    ensures writes { K.faults sink.old ≤ K.faults sink.new }

    // Whether the sink was finished.
    ensures finished { FinishesOnce result (K.finishes sink.old) (K.finishes sink.new) (K.is_finished sink.new) }

    // The line on standard error.
    ensures said { Said (E.holds says.old) (E.holds says.new) (E.faults says.old) (E.faults says.new)
        (answer_line result) }
{
    parts_have_no_fault();
    there_is_one_part_fault();
    let answer = carry_out(rt, alloc, words, source, sink, gate);
    say(
        says,
        b"zygos",
        b"run|check|gen|self|pcap|report [options]",
        &answer,
    );
    answer
}
