//! Laws over the definitions of this crate.
ghost use Rattle.std.specs.Prelude.{◌≡◌, ℕ, ◌≤◌, List};
ghost use Rattle.mc_calls.specs.declared.entry.Entry.{Entry};
ghost use Rattle.zy_capture.specs.Capture.{Spells};
ghost use Rattle.zy_capture.specs.Verdict.{verdict};
ghost use Rattle.zy_capture.specs.Verdict.Verdict.{Good};
ghost use Rattle.zy_run.specs.Commands.{streams_in, commands_in};
ghost use Rattle.zy_run.specs.Run.{IsRun};
ghost use Rattle.zy_run.specs.Summary.{summary, summary_of_run};
ghost use Rattle.zy_gen.specs.Traffic.{gen_bytes, traffic_records, IsTraffic};

/// Generated traffic is a good capture of version 1, with its number of connections and its segments.
pub fn generated_traffic_is_a_good_capture()
    ensures spells { (number connections commands : ℕ) → IsTraffic number connections commands
        → Spells (gen_bytes number connections commands) 1 connections
        (traffic_records number connections commands) }
    ensures good { (number connections commands : ℕ) → IsTraffic number connections commands
        → verdict (gen_bytes number connections commands)
        ≡ Good 1 connections (traffic_records number connections commands) }
{}

/// Each run of generated traffic has the summary of its serial run, whatever the numbers of their
/// shards.
pub fn each_run_of_generated_traffic_has_the_summary()
    ensures value { (number connections commands shards others : ℕ) (es : List Entry) → 1 ≤ others
        → IsTraffic number connections commands
        → IsRun shards es connections (commands_in (traffic_records number connections commands))
        → summary_of_run connections (streams_in (traffic_records number connections commands)) es
        ≡ summary others connections (streams_in (traffic_records number connections commands)) }
{}
