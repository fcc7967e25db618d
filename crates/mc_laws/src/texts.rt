//! Laws of texts: the functions do nothing, and their contracts are the laws.
ghost use Rattle.std.specs.Prelude.{◌≡◌, ◌≤◌, ◌+◌, ℕ, true, false, List, [], ◌∷◌, ◌++◌, length, take, map, codes};
ghost use Rattle.mc_calls.specs.declared.call_reply.CallReply.{CallReply};
ghost use Rattle.mc_calls.specs.declared.call_reply.CallReply.TheVariants as Replies;
ghost use Rattle.mc_calls.specs.declared.entry.Entry.{Entry};
ghost use Rattle.mc_calls.specs.Replies.{replies_at};
ghost use Rattle.mc_parse.specs.declared.command.Command.{Command};
ghost use Rattle.mc_parse.specs.declared.meta.Meta.TheVariants as Metas;
ghost use Rattle.mc_calls.specs.declared.call.Call.TheVariants as Calls;
ghost use Rattle.mc_parse.specs.declared.verb.Verb.TheVariants as Verbs;
ghost use Rattle.mc_parse.specs.declared.error_line.ErrorLine.TheVariants as Errors;
ghost use Rattle.mc_calls.specs.Told.{told};
ghost use Rattle.mc_parse.specs.Plain.{IsPlain};
ghost use Rattle.mc_reply.specs.declared.stats.Stat.TheVariants as Stats;
ghost use Rattle.mc_reply.specs.StatsText.{sum_in, stat_line};
ghost use Rattle.mc_reply.specs.Text.{text};
ghost use Rattle.mc_reply.specs.Texts.{texts_from, texts_of};

/// Example answers, as the definition computes them.
pub fn worked_answers()
    ensures stored { text (Command.Store Verbs.Set (codes "a") 0 (codes "x") false) (Replies.Stored ∷ [])
        ≡ codes "STORED\r\n" }
    ensures silent { text (Command.Store Verbs.Set (codes "a") 0 (codes "x") true) (Replies.Stored ∷ [])
        ≡ [] }
    ensures hit { text (Command.Get (codes "a" ∷ []) false) (Replies.Hit 0 28 (codes "x") ∷ [])
        ≡ codes "VALUE a 0 1\r\nx\r\nEND\r\n" }
    ensures unique { text (Command.Get (codes "a" ∷ codes "b" ∷ []) true)
        (Replies.Hit 7 28 (codes "x") ∷ Replies.Miss ∷ [])
        ≡ codes "VALUE a 7 1 28\r\nx\r\nEND\r\n" }
    ensures miss { text (Command.Get (codes "a" ∷ []) false) (Replies.Miss ∷ []) ≡ codes "END\r\n" }
    ensures number { text (Command.Count (codes "a") true 1 false) (Replies.Number 100 ∷ [])
        ≡ codes "100\r\n" }
    ensures version { text Command.Version [] ≡ codes "VERSION zygos-1.0\r\n" }
    ensures stats { text Command.Stats (Replies.Tally 2 0 1 1 0 ∷ Replies.Tally 0 1 0 0 1 ∷ [])
        ≡ codes "STAT cmd_get 2\r\nSTAT cmd_set 1\r\nSTAT get_hits 1\r\n"
        ++ codes "STAT get_misses 1\r\nSTAT curr_items 1\r\nEND\r\n" }
    ensures fault { text (Command.Fault Errors.TooLarge false) []
        ≡ codes "SERVER_ERROR object too large for cache\r\n" }
{}

/// Example lines: each reply as the answer to a command that can get it.
#[tactic(auto, unfolding(mc_reply::specs::Text::text))]
pub fn worked_lines()
    ensures not_stored { text (Command.Store Verbs.Add (codes "a") 0 (codes "x") false)
        (Replies.NotStored ∷ [])
        ≡ codes "NOT_STORED\r\n" }
    ensures large { text (Command.Store Verbs.Append (codes "a") 0 (codes "x") false)
        (Replies.TooLarge ∷ [])
        ≡ codes "SERVER_ERROR object too large for cache\r\n" }
    ensures exists { text (Command.Cas (codes "a") 0 7 (codes "x") false) (Replies.Exists ∷ [])
        ≡ codes "EXISTS\r\n" }
    ensures absent { text (Command.Cas (codes "a") 0 7 (codes "x") false) (Replies.NotFound ∷ [])
        ≡ codes "NOT_FOUND\r\n" }
    ensures deleted { text (Command.Delete (codes "a") false) (Replies.Deleted ∷ [])
        ≡ codes "DELETED\r\n" }
    ensures worded { text (Command.Count (codes "a") false 1 false) (Replies.NotNumber ∷ [])
        ≡ codes "CLIENT_ERROR cannot increment or decrement non-numeric value\r\n" }
    ensures silent { text (Command.Count (codes "a") true 1 true) (Replies.Number 100 ∷ []) ≡ [] }
    ensures verbosity { text (Command.Verbosity false) [] ≡ codes "OK\r\n" }
    ensures flush { text (Command.Flush false) (Replies.Flushed ∷ Replies.Flushed ∷ [])
        ≡ codes "OK\r\n" }
{}

/// Example lines: each fault.
#[tactic(auto, unfolding(mc_reply::specs::Text::text))]
pub fn worked_faults()
    ensures unknown { text (Command.Fault Errors.Unknown false) [] ≡ codes "ERROR\r\n" }
    ensures line { text (Command.Fault Errors.BadLine false) []
        ≡ codes "CLIENT_ERROR bad command line format\r\n" }
    ensures delta { text (Command.Fault Errors.BadDelta false) []
        ≡ codes "CLIENT_ERROR invalid numeric delta argument\r\n" }
    ensures long { text (Command.Fault Errors.LongLine false) []
        ≡ codes "CLIENT_ERROR line too long\r\n" }
    ensures chunk { text (Command.Fault Errors.BadChunk false) []
        ≡ codes "CLIENT_ERROR bad data chunk\r\n" }
    ensures silent { text (Command.Fault Errors.BadChunk true) [] ≡ [] }
{}

/// Example answers to meta commands: the marks are in the order of the line, and `q` hides some answers.
#[tactic(auto, unfolding(mc_reply::specs::Text::text))]
pub fn worked_meta_answers()
    ensures noop { text (Command.Meta Metas.Noop) [] ≡ codes "MN\r\n" }
    ensures marks { text (Command.Meta (Metas.Get (codes "a") (codes "svfkc")))
        (Replies.Hit 5 28 (codes "x") ∷ [])
        ≡ codes "VA 1 s1 f5 ka c28\r\nx\r\n" }
    ensures hit { text (Command.Meta (Metas.Get (codes "a") (codes "kq")))
        (Replies.Hit 5 28 (codes "x") ∷ [])
        ≡ codes "HD ka\r\n" }
    ensures miss { text (Command.Meta (Metas.Get (codes "a") (codes "vk"))) (Replies.Miss ∷ [])
        ≡ codes "EN\r\n" }
    ensures quiet_miss { text (Command.Meta (Metas.Get (codes "a") (codes "kq"))) (Replies.Miss ∷ [])
        ≡ [] }
    ensures stored { map (λ marks. text (Command.Meta (Metas.Set (codes "a") Calls.Flush marks))
        (Replies.Stored ∷ [])) ([] ∷ codes "k" ∷ codes "kq" ∷ [])
        ≡ codes "HD\r\n" ∷ codes "HD ka\r\n" ∷ [] ∷ [] }
    ensures others { map (λ reply. text (Command.Meta (Metas.Set (codes "a") Calls.Flush (codes "qk")))
        (reply ∷ [])) (Replies.NotStored ∷ Replies.Exists ∷ Replies.NotFound ∷ Replies.TooLarge ∷ [])
        ≡ codes "NS ka\r\n" ∷ codes "EX ka\r\n" ∷ codes "NF ka\r\n"
        ∷ codes "SERVER_ERROR object too large for cache\r\n" ∷ [] }
    ensures deleted { map (λ reply. text (Command.Meta (Metas.Delete (codes "a") (codes "k")))
        (reply ∷ [])) (Replies.Deleted ∷ Replies.NotFound ∷ [])
        ≡ codes "HD ka\r\n" ∷ codes "NF ka\r\n" ∷ [] }
    ensures quiet { map (λ reply. text (Command.Meta (Metas.Delete (codes "a") (codes "kq")))
        (reply ∷ [])) (Replies.Deleted ∷ Replies.NotFound ∷ [])
        ≡ [] ∷ [] ∷ [] }
{}

/// Example answers with numbers at their limits, and a value of two lines.
pub fn worked_limits()
    ensures item { text (Command.Get (codes "key" ∷ codes "k" ∷ []) true)
        (Replies.Miss ∷ Replies.Hit 4294967295 18446744073709551615
        (codes "a\r\nb and more than sixteen bytes") ∷ [])
        ≡ codes "VALUE k 4294967295 32 18446744073709551615\r\na\r\nb and more than sixteen bytes\r\nEND\r\n" }
    ensures number { text (Command.Count (codes "a") true 1 false)
        (Replies.Number 18446744073709551615 ∷ [])
        ≡ codes "18446744073709551615\r\n" }
    ensures zero { text (Command.Count (codes "a") false 1 false) (Replies.Number 0 ∷ [])
        ≡ codes "0\r\n" }
    ensures sum { stat_line Stats.Gets (sum_in Stats.Gets (Replies.Tally 18446744073709551615 0 0 0 0
        ∷ Replies.Tally 1 0 0 0 0 ∷ [])) ≡ codes "STAT cmd_get 18446744073709551616\r\n" }
{}

/// Each command has one text, made from the replies in its own entries.
pub fn each_command_has_one_text()
    ensures none { (entries : List Entry) → texts_of [] entries ≡ [] }
    ensures count { (commands : List Command) (entries : List Entry)
        → length (texts_of commands entries) ≡ length commands }
    ensures joined { (front commands : List Command) (entries : List Entry)
        → texts_of (front ++ commands) entries
        ≡ texts_of front entries ++ texts_from (length front) commands entries }
    ensures more { (commands : List Command) (last : Command) (entries : List Entry)
        → texts_of (commands ++ last ∷ []) entries
        ≡ texts_of commands entries ++ text last (replies_at (length commands) entries) ∷ [] }
    ensures stays { (count : ℕ) (commands : List Command) (entries : List Entry) (last : Entry)
        → count ≤ last.tag.index
        → take count (texts_of commands (entries ++ last ∷ []))
        ≡ take count (texts_of commands entries) }
{}

/// The text of a plain command shows no CAS value of its replies.
pub fn a_plain_command_tells_no_unique()
    ensures value { (command : Command) (replies : List CallReply) → IsPlain command
        → text command (map told replies) ≡ text command replies }
{}
