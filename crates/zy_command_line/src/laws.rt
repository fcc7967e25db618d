//! The ranges of what words ask for.
ghost use Rattle.std.specs.Prelude.{◌≡◌, ℕ, List, Some};
ghost use Rattle.zy_command_line.specs.Grammar.{Word};
ghost use Rattle.zy_command_line.specs.Range.{IsRunnable, AreShards, IsPort, IsMakeable};
ghost use Rattle.zy_command_line.specs.declared.request.Run.{Run};
ghost use Rattle.zy_command_line.specs.declared.request.Traffic.{Traffic};
ghost use Rattle.zy_command_line.specs.declared.request.Out.{Out};
ghost use Rattle.zy_command_line.specs.Request.{request_of, shards_asked};
ghost use Rattle.zy_command_line.specs.declared.request.Request.TheVariants as Requests;

/// A valid run has 1 to 64 cores, at least one and at most that many threads, 1 to 256 shards, and
/// rests after at most 1,000,000 idle turns; a check has 1 to 256 shards; made traffic has 1 to
/// 4,096 connections and at most 1,000,000 commands; a port is 1 to 65,535.
pub fn requests_are_in_their_ranges()
    ensures run { (words : List Word) (run : Run) (out : Out)
        → request_of words ≡ Some (Requests.Run run out) → IsRunnable run }
    ensures check { (words : List Word) (shards : ℕ)
        → request_of words ≡ Some (Requests.Check shards) → AreShards shards }
    ensures shards { (words : List Word) (shards : ℕ)
        → shards_asked words ≡ Some shards → AreShards shards }
    ensures port { (words : List Word) (port : ℕ)
        → request_of words ≡ Some (Requests.Pcap port) → IsPort port }
    ensures traffic { (words : List Word) (traffic : Traffic)
        → request_of words ≡ Some (Requests.Gen traffic) → IsMakeable traffic }
    ensures self_traffic { (words : List Word) (traffic : Traffic) (run : Run)
        → request_of words ≡ Some (Requests.SelfTest traffic run) → IsMakeable traffic }
    ensures self_run { (words : List Word) (traffic : Traffic) (run : Run)
        → request_of words ≡ Some (Requests.SelfTest traffic run) → IsRunnable run }
{}
