//! Laws of runs.
ghost use Rattle.std.specs.Prelude.{◌≡◌, ℕ, ◌+◌, ◌<◌, List, [], length, None, ◌≤◌};
ghost use Rattle.std.specs.List.{slice_index_or};
ghost use Rattle.mc_calls.specs.declared.entry.Entry.{Entry};
ghost use Rattle.mc_calls.specs.Order.{IsOrdered};
ghost use Rattle.zy_capture.specs.declared.record.Record.{Record};
ghost use Rattle.zy_capture.specs.Capture.{IsCapture};
ghost use Rattle.zy_capture.specs.Streams.{closes, sessions_of, no_bytes, with_records};
ghost use Rattle.mc_parse.specs.declared.command.Command.{Command};
ghost use Rattle.zy_run.specs.Commands.{streams_in, commands_in, commands_held};
ghost use Rattle.zy_run.specs.Run.{IsRun};
ghost use Rattle.zy_run.specs.Output.{session_output, connection_outputs, all_outputs};
ghost use Rattle.zy_run.specs.Spans.{Spans};
ghost use Rattle.run_laws.specs.WorkedRun.{worked_records, worked_entries, worked_outputs, worked_holds};
ghost use Rattle.zy_run.specs.Apart.{commands_of_all, AreApart};
ghost use Rattle.zy_run.specs.Serial.{serial};
ghost use Rattle.run_laws.specs.Alone.{alone};
ghost use Rattle.zy_run.specs.Summary.{summary, summary_of_run};
ghost use Rattle.run_laws.specs.WorkedApart.{apart_records, apart_entries, apart_summary};

/// An example run, as the definitions compute it.
pub fn the_worked_run_is_one()
    ensures run { IsRun 16 worked_entries 2 (commands_in worked_records) }
    ensures order { IsOrdered None worked_entries }
    ensures outputs { all_outputs 2 (streams_in worked_records) worked_entries ≡ worked_outputs }
    ensures holds { Spans worked_holds 2 (commands_in worked_records) }
{}

/// The sessions kept for a connection are those of its records, and so are its commands.
pub fn sessions_are_held()
    ensures streams { (count conn : ℕ) (records : List Record) → conn < count
        → sessions_of (with_records (no_bytes count) records) conn ≡ streams_in records conn }
    ensures commands { (count conn : ℕ) (records : List Record) → conn < count
        → commands_held (with_records (no_bytes count) records) conn ≡ commands_in records conn }
{}

/// A connection has one session more than close records, and in version 1 one session.
pub fn a_connection_has_a_session()
    ensures count { (records : List Record) (conn : ℕ)
        → length (streams_in records conn) ≡ closes conn records + 1 }
    ensures one { (count conn : ℕ) (records : List Record) → IsCapture 1 count records
        → closes conn records ≡ 0 }
{}

/// A connection has one output for each of its sessions, each in its place.
pub fn each_session_has_its_output()
    ensures count { (conn : ℕ) (streams : List (List ℕ)) (es : List Entry)
        → length (connection_outputs conn streams es) ≡ length streams }
    ensures value { (conn session : ℕ) (streams : List (List ℕ)) (es : List Entry)
        → session < length streams
        → slice_index_or (connection_outputs conn streams es) session []
        ≡ session_output conn session streams es }
{}

/// If the commands of connections share no keys, two runs of them have the same outputs, whatever the
/// numbers of their shards.
pub fn runs_apart_have_the_same_outputs()
    ensures same { (shards others count : ℕ) (streams : ℕ → List (List ℕ)) (es fs : List Entry)
        → AreApart count (commands_of_all streams)
        → IsRun shards es count (commands_of_all streams)
        → IsRun others fs count (commands_of_all streams)
        → all_outputs count streams es ≡ all_outputs count streams fs }
{}

/// In that case the outputs of a connection are those that it gets if only it makes calls, on any
/// number of shards.
pub fn a_connection_is_answered_as_if_alone()
    ensures value { (shards others count conn : ℕ) (streams : ℕ → List (List ℕ)) (es : List Entry)
        → 1 ≤ others → conn < count → AreApart count (commands_of_all streams)
        → IsRun shards es count (commands_of_all streams)
        → connection_outputs conn (streams conn) es
        ≡ connection_outputs conn (streams conn)
        (alone others conn (commands_of_all streams conn)) }
{}

/// The serial run is a run, and its entries are in the order of their stamps.
pub fn serial_is_a_run()
    ensures run { (shards count : ℕ) (commands : ℕ → List Command) → 1 ≤ shards
        → IsRun shards (serial shards count commands) count commands }
    ensures order { (shards count : ℕ) (commands : ℕ → List Command)
        → IsOrdered None (serial shards count commands) }
{}

/// If the commands of connections share no keys, each run of them has as many entries as the serial
/// run, and as many bytes in its outputs, whatever the numbers of their shards.
pub fn each_run_has_the_summary()
    ensures value { (shards others count : ℕ) (streams : ℕ → List (List ℕ)) (es : List Entry)
        → 1 ≤ others → AreApart count (commands_of_all streams)
        → IsRun shards es count (commands_of_all streams)
        → summary_of_run count streams es ≡ summary others count streams }
{}

/// An example capture whose connections share no keys: one of its runs, and its summary.
pub fn the_worked_capture_is_apart()
    ensures apart { AreApart 2 (commands_in apart_records) }
    ensures run { IsRun 16 apart_entries 2 (commands_in apart_records) }
    ensures summary { summary 16 2 (streams_in apart_records) ≡ apart_summary }
{}
