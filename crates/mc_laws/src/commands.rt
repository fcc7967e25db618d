//! Laws of commands, their calls and the expected calls of connections: the functions do nothing, and their contracts
//! are the laws.
ghost use Rattle.std.specs.Prelude.{◌≡◌, ℕ, ◌≤◌, Bool, true, false, List, [], ◌∷◌, ◌++◌, map, All, codes};
ghost use Rattle.std.specs.List.{filter_map, AllByRecursion};
ghost use Rattle.mc_calls.specs.declared.call.Call.{Call};
ghost use Rattle.mc_calls.specs.declared.call.Call.TheVariants as Calls;
ghost use Rattle.mc_calls.specs.declared.entry.Entry.{Entry};
ghost use Rattle.mc_calls.specs.Bounds.{IsValue};
ghost use Rattle.mc_calls.specs.Call.{key_of};
ghost use Rattle.mc_parse.specs.declared.command.Command.{Command};
ghost use Rattle.mc_parse.specs.declared.error_line.ErrorLine.{ErrorLine};
ghost use Rattle.mc_parse.specs.declared.error_line.ErrorLine.TheVariants as Errors;
ghost use Rattle.mc_parse.specs.declared.meta.Meta.TheVariants as Metas;
ghost use Rattle.mc_parse.specs.declared.need.Need.{Need};
ghost use Rattle.mc_parse.specs.declared.verb.Verb.TheVariants as Verbs;
ghost use Rattle.mc_parse.specs.Words.{words};
ghost use Rattle.mc_parse.specs.Form.{gets, counts};
ghost use Rattle.mc_parse.specs.Need.{need};
ghost use Rattle.mc_parse.specs.Meaning.{value_of, line_command};
ghost use Rattle.mc_parse.specs.Meaning.{block_command, large_command, fault};
ghost use Rattle.mc_parse.specs.Calls.{calls_of, on_shard, due, due_of, dues_of};
ghost use Rattle.mc_laws.specs.Calls.{asked_by};
ghost use Rattle.mc_parse.specs.Calls.{IsOnShard, IsDueOn};
ghost use Rattle.mc_laws.specs.Calls.{IsAtKey, FollowsAll, FollowAll};
ghost use Rattle.mc_parse.specs.Plain.{keys_of};
ghost use Rattle.mc_parse.specs.Bounds.{IsCommand, IsShardCall};
ghost use Rattle.mc_laws.specs.Worked.{Means};
ghost use Rattle.mc_laws.specs.Worked.{unended_blocks, store_of, get_of_two, shards_of};

/// A retrieval makes one `get` for each key, in the order asked, repeats included.
pub fn a_get_calls_for_each_key()
    ensures value { (n : ℕ) (keys : List (List ℕ)) (u : Bool)
        → asked_by (calls_of n (Command.Get keys u)) ≡ map Call.Get keys }
{}

/// Every call of a command is on the shard of its key, and on one of the shards.
pub fn calls_are_at_their_keys()
    ensures value { (shards : ℕ) (command : Command)
        → All (IsAtKey shards) (calls_of shards command) }
    ensures within { (n : ℕ) (command : Command) → 1 ≤ n → All (IsOnShard n) (calls_of n command) }
{}

/// The keys of a command are those of its calls, in their order.
pub fn a_command_calls_its_keys()
    ensures value { (shards : ℕ) (command : Command)
        → filter_map key_of (asked_by (calls_of shards command)) ≡ keys_of command }
{}

/// The keys and the value of a command are within their bounds, and so are its calls, whatever the
/// line says, as long as the value of its block is within the limit.
pub fn commands_are_within_their_bounds()
    ensures alone { (line : List ℕ) → IsCommand (line_command line) }
    ensures block { (line block : List ℕ) → IsValue (value_of block)
        → IsCommand (block_command line block) }
    ensures large { (line : List ℕ) → IsCommand (large_command line) }
    ensures calls { (shards : ℕ) (command : Command) → IsCommand command
        → AllByRecursion IsShardCall (calls_of shards command) }
{}

/// A fault has no calls.
pub fn a_fault_has_no_calls()
    ensures value { (n : ℕ) (line : ErrorLine) (quiet : Bool)
        → calls_of n (Command.Fault line quiet) ≡ [] }
{}

/// The calls of more commands are expected after those of the commands before them.
pub fn commands_are_due_in_order()
    ensures none { (shards connection : ℕ) → due shards connection [] ≡ [] }
    ensures more { (n c : ℕ) (commands : List Command) (last : Command)
        → FollowsAll n c commands last }
    ensures joined { (n c : ℕ) (front commands : List Command) → FollowAll n c front commands }
    ensures within { (n c : ℕ) (commands : List Command) → 1 ≤ n
        → All (IsDueOn n) (due n c commands) }
{}

/// The expected calls that entries show are in the order of the entries.
pub fn entries_tell_what_was_due()
    ensures none { dues_of [] ≡ [] }
    ensures more { (entries : List Entry) (last : Entry)
        → dues_of (entries ++ last ∷ []) ≡ dues_of entries ++ due_of last ∷ [] }
    ensures joined { (front entries : List Entry)
        → dues_of (front ++ entries) ≡ dues_of front ++ dues_of entries }
{}

/// Example meta commands: what must come with a line, and faults, which are never quiet.
#[tactic(auto, unfolding(mc_meta::specs::Words::words, mc_meta::specs::Words::words_at, mc_parse::specs::Need::need, mc_parse::specs::Meaning::line_command, mc_parse::specs::Meaning::block_command, mc_parse::specs::Meaning::large_command))]
pub fn worked_meta_commands()
    ensures noop { Means (codes "mn") (Command.Meta Metas.Noop) }
    ensures get { Means (codes "mg a q v") (Command.Meta (Metas.Get (codes "a") (codes "qv"))) }
    ensures delete { Means (codes "md a q") (Command.Meta (Metas.Delete (codes "a") (codes "q"))) }
    ensures fault { Means (codes "mg a v v") (Command.Fault Errors.BadLine false) }
    ensures need { need (codes "ms a 1048577 q") ≡ Need.Block 1048577 }
    ensures set { block_command (codes "ms a 1 F5 q") (codes "x\r\n")
        ≡ Command.Meta (Metas.Set (codes "a") (Calls.Set (codes "a") 5 (codes "x")) (codes "q")) }
    ensures append { block_command (codes "ms a 1 MA") (codes "x\r\n")
        ≡ Command.Meta (Metas.Set (codes "a") (Calls.Append (codes "a") (codes "x")) []) }
    ensures cas { block_command (codes "ms a 0 C7 k") (codes "\r\n")
        ≡ Command.Meta (Metas.Set (codes "a") (Calls.Cas 0 (codes "a") 7 []) (codes "k")) }
    ensures chunk { block_command (codes "ms a 1 q") (codes "xyz")
        ≡ Command.Fault Errors.BadChunk false }
    ensures large { large_command (codes "ms a 1048577 q") ≡ Command.Fault Errors.TooLarge false }
{}

/// Example commands of lines without a block.
#[tactic(auto, unfolding(mc_meta::specs::Words::words, mc_parse::specs::Need::need, mc_parse::specs::Meaning::line_command))]
pub fn worked_commands()
    ensures get { Means (codes "gets a b") (Command.Get (codes "a" ∷ codes "b" ∷ []) true) }
    ensures delete { Means (codes "delete a noreply") (Command.Delete (codes "a") true) }
    ensures incr { Means (codes "incr a 1") (Command.Count (codes "a") true 1 false) }
    ensures decr { Means (codes "decr a 1 noreply") (Command.Count (codes "a") false 1 true) }
    ensures version { Means (codes "version") Command.Version }
    ensures stats { Means (codes "stats") Command.Stats }
    ensures verbosity { Means (codes "verbosity 1 noreply") (Command.Verbosity true) }
    ensures flush { Means (codes "flush_all") (Command.Flush false) }
    ensures fault { Means (codes "incr a x noreply") (Command.Fault Errors.BadDelta false) }
{}

/// Example blocks: any bytes may be a value, and only a carriage return and a line feed end a block.
#[tactic(auto, unfolding(mc_meta::specs::Words::words, mc_parse::specs::Meaning::block_command))]
pub fn worked_blocks()
    ensures value { block_command (codes "append a 7 0 2 noreply") (codes "xy\r\n")
        ≡ Command.Store Verbs.Append (codes "a") 7 (codes "xy") true }
    ensures empty { block_command (codes "set a 0 0 0") (codes "\r\n")
        ≡ Command.Store Verbs.Set (codes "a") 0 [] false }
    ensures lines { block_command (codes "set a 0 0 11") (codes "x\r\nget a\r\nz\r\n")
        ≡ Command.Store Verbs.Set (codes "a") 0 (codes "x\r\nget a\r\nz") false }
    ensures cas { block_command (codes "cas a 3 0 1 99") (codes "y\r\n")
        ≡ Command.Cas (codes "a") 3 99 (codes "y") false }
    ensures bad { map (block_command (codes "set a 0 0 1")) unended_blocks
        ≡ map (λ block. Command.Fault Errors.BadChunk false) unended_blocks }
    ensures none { block_command (codes "set a 0 0 0") (codes "XY")
        ≡ Command.Fault Errors.BadChunk false }
    ensures quiet { block_command (codes "cas a 0 0 1 1 noreply") (codes "xyz")
        ≡ Command.Fault Errors.BadChunk true }
{}

/// Example storage lines whose value is too large.
#[tactic(auto, unfolding(mc_meta::specs::Words::words, mc_parse::specs::Meaning::large_command))]
pub fn worked_large_values()
    ensures set { large_command (codes "set b 0 0 1048577")
        ≡ Command.Fault Errors.TooLarge false }
    ensures cas { large_command (codes "cas a 0 0 4294967295 1 noreply")
        ≡ Command.Fault Errors.TooLarge true }
{}

/// Example calls: each verb has its own, on the shard of its key, and a flush is one on each shard.
pub fn worked_calls()
    ensures set { calls_of 16 (store_of Verbs.Set)
        ≡ on_shard (Calls.Set (codes "a") 3 (codes "v")) 12 ∷ [] }
    ensures add { calls_of 16 (store_of Verbs.Add)
        ≡ on_shard (Calls.Add (codes "a") 3 (codes "v")) 12 ∷ [] }
    ensures replace { calls_of 16 (store_of Verbs.Replace)
        ≡ on_shard (Calls.Replace (codes "a") 3 (codes "v")) 12 ∷ [] }
    ensures append { calls_of 16 (store_of Verbs.Append)
        ≡ on_shard (Calls.Append (codes "a") (codes "v")) 12 ∷ [] }
    ensures prepend { calls_of 16 (store_of Verbs.Prepend)
        ≡ on_shard (Calls.Prepend (codes "a") (codes "v")) 12 ∷ [] }
    ensures cas { calls_of 16 (Command.Cas (codes "a") 3 7 (codes "v") true)
        ≡ on_shard (Calls.Cas 3 (codes "a") 7 (codes "v")) 12 ∷ [] }
    ensures counts { map (λ up. calls_of 16 (Command.Count (codes "a") up 5 false)) (true ∷ false ∷ [])
        ≡ (on_shard (Calls.Incr (codes "a") 5) 12 ∷ [])
        ∷ (on_shard (Calls.Decr (codes "a") 5) 12 ∷ []) ∷ [] }
    ensures delete { calls_of 16 (Command.Delete (codes "a") false)
        ≡ on_shard (Calls.Delete (codes "a")) 12 ∷ [] }
    ensures flush { calls_of 2 (Command.Flush false)
        ≡ on_shard Calls.Flush 0 ∷ on_shard Calls.Flush 1 ∷ [] }
    ensures stats { calls_of 2 Command.Stats
        ≡ on_shard Calls.Tally 0 ∷ on_shard Calls.Tally 1 ∷ [] }
    ensures none { calls_of 16 Command.Version ≡ [] }
{}

/// Example keys, and their shards.
pub fn worked_shards()
    ensures one { shards_of 1 get_of_two ≡ 0 ∷ 0 ∷ [] }
    ensures few { shards_of 16 get_of_two ≡ 12 ∷ 5 ∷ [] }
    ensures most { shards_of 256 get_of_two ≡ 44 ∷ 229 ∷ [] }
{}
