//! Laws of generated traffic.
ghost use Rattle.std.specs.Prelude.{◌≡◌, ℕ, ◌*◌, ◌<◌, List, length};
ghost use Rattle.mc_calls.specs.declared.entry.Entry.{Entry};
ghost use Rattle.zy_run.specs.Commands.{streams_in, commands_in};
ghost use Rattle.zy_run.specs.Run.{IsRun};
ghost use Rattle.zy_run.specs.Output.{all_outputs};
ghost use Rattle.zy_run.specs.Apart.{AreApart};
ghost use Rattle.zy_run.specs.Summary.{count_of_commands};
ghost use Rattle.zy_gen.specs.Traffic.{gen_bytes, traffic_records, IsTraffic};
ghost use Rattle.run_laws.specs.WorkedTraffic.{worked_traffic};

/// The example capture has its 41 bytes.
pub fn the_worked_capture_has_its_bytes()
    ensures value { gen_bytes 42 1 1 ≡ worked_traffic }
{}

/// Each connection of generated traffic has `commands` commands, and all of them together have
/// `connections * commands`.
pub fn generated_traffic_has_its_commands()
    ensures each { (number connections commands conn : ℕ) → IsTraffic number connections commands
        → conn < connections
        → length (commands_in (traffic_records number connections commands) conn) ≡ commands }
    ensures all { (number connections commands : ℕ) → IsTraffic number connections commands
        → count_of_commands connections (commands_in (traffic_records number connections commands))
        ≡ connections * commands }
{}

/// The connections of generated traffic are apart: no key is called by two of them, and no command
/// is `gets`, `cas`, `flush_all` or `stats`.
pub fn generated_traffic_is_apart()
    ensures value { (number connections commands : ℕ) → IsTraffic number connections commands
        → AreApart connections (commands_in (traffic_records number connections commands)) }
{}

/// Two runs of generated traffic have the same outputs, whatever the numbers of their shards.
pub fn runs_of_generated_traffic_have_the_same_outputs()
    ensures same { (number connections commands shards others : ℕ) (es fs : List Entry)
        → IsTraffic number connections commands
        → IsRun shards es connections (commands_in (traffic_records number connections commands))
        → IsRun others fs connections (commands_in (traffic_records number connections commands))
        → all_outputs connections (streams_in (traffic_records number connections commands)) es
        ≡ all_outputs connections (streams_in (traffic_records number connections commands)) fs }
{}
