//! Example lines: the functions do nothing, and their contracts are what the definitions compute.
#![tactic(auto, unfolding(mc_meta::specs::Words::words, mc_meta::specs::Words::words_at, mc_parse::specs::Need::need))]

ghost use Rattle.std.specs.Prelude.{◌≡◌, true, false, [], ◌∷◌, ◌++◌, map, codes};
ghost use Rattle.mc_parse.specs.declared.error_line.ErrorLine.TheVariants as Errors;
ghost use Rattle.mc_parse.specs.declared.need.Need.{Need};
ghost use Rattle.mc_parse.specs.declared.verb.Verb.TheVariants as Verbs;
ghost use Rattle.mc_parse.specs.Words.{words};
ghost use Rattle.mc_parse.specs.Form.{stores, exchanges, gets, deletes, counts, tells_version, sets_verbosity};
ghost use Rattle.mc_parse.specs.Form.{flushes, quits, metas, asks, faulty};
ghost use Rattle.mc_parse.specs.Form.{line_form};
ghost use Rattle.mc_parse.specs.MetaAsk.{noops, meta_gets, meta_stores, meta_exchanges, meta_deletes};
ghost use Rattle.mc_parse.specs.Need.{need};
ghost use Rattle.mc_laws.specs.Worked.{AllSay, sets, long_key, lines_with_key, forms_with_key};
ghost use Rattle.mc_laws.specs.Worked.{nameless_lines, other_commands, short_lines, wordy_lines};
ghost use Rattle.mc_laws.specs.Worked.{lines_without_noreply, bad_deletions, bad_amounts, bad_levels, bad_flags};
ghost use Rattle.mc_laws.specs.Worked.{bad_exptimes, bad_lengths, bad_uniques, deletions_of_a, sets_of_a};

/// Example lines that are no command: an unknown name, too few or too many words, or another word
/// in place of noreply.
pub fn worked_lines_of_no_command()
    ensures nameless { AllSay (faulty Errors.Unknown) nameless_lines }
    ensures other { AllSay (faulty Errors.Unknown) other_commands }
    ensures few { AllSay (faulty Errors.Unknown) short_lines }
    ensures many { AllSay (faulty Errors.Unknown) wordy_lines }
    ensures noreply { AllSay (faulty Errors.Unknown) lines_without_noreply }
{}

/// Example lines with a bad number.
pub fn worked_lines_with_a_bad_number()
    ensures deletion { AllSay (faulty Errors.BadLine) bad_deletions }
    ensures amount { AllSay (faulty Errors.BadDelta) bad_amounts }
    ensures level { AllSay (faulty Errors.BadLine) bad_levels }
    ensures flags { AllSay (faulty Errors.BadLine) bad_flags }
    ensures exptime { AllSay (faulty Errors.BadLine) bad_exptimes }
    ensures length { AllSay (faulty Errors.BadLine) bad_lengths }
    ensures unique { AllSay (faulty Errors.BadLine) bad_uniques }
{}

/// Example keys of 250 and of 251 bytes: a key is checked after the number of words, and before the
/// numbers.
pub fn worked_keys()
    ensures within { map line_form (lines_with_key (long_key 250)) ≡ forms_with_key (long_key 250) }
    ensures beyond { AllSay (faulty Errors.BadLine) (lines_with_key (long_key 251)) }
    ensures amount { line_form (codes "incr " ++ long_key 251 ++ codes " x")
        ≡ faulty Errors.BadLine }
    ensures count { line_form (codes "delete " ++ long_key 251 ++ codes " 5 x")
        ≡ faulty Errors.Unknown }
{}

/// Example retrievals: a key may be any word, also noreply.
pub fn worked_retrievals()
    ensures one { line_form (codes "get a") ≡ asks (gets (codes "a" ∷ []) false) false }
    ensures unique { line_form (codes "gets a") ≡ asks (gets (codes "a" ∷ []) true) false }
    ensures again { line_form (codes "get a a b")
        ≡ asks (gets (codes "a" ∷ codes "a" ∷ codes "b" ∷ []) false) false }
    ensures spaces { line_form (codes "  get  b   a  ")
        ≡ asks (gets (codes "b" ∷ codes "a" ∷ []) false) false }
    ensures noreply { line_form (codes "gets noreply noreply")
        ≡ asks (gets (codes "noreply" ∷ codes "noreply" ∷ []) true) false }
    ensures inner { line_form (codes "get a\rb") ≡ asks (gets (codes "a\rb" ∷ []) false) false }
    ensures last { line_form (codes "get a\r") ≡ asks (gets (codes "a\r" ∷ []) false) false }
    ensures bytes { line_form (codes "get a" ++ 0 ∷ 9 ∷ 255 ∷ [])
        ≡ asks (gets ((codes "a" ++ 0 ∷ 9 ∷ 255 ∷ []) ∷ []) false) false }
{}

/// Example deletions.
pub fn worked_deletions()
    ensures loud { AllSay (asks (deletes (codes "a")) false) deletions_of_a }
    ensures quiet { AllSay (asks (deletes (codes "a")) true)
        (codes "delete a noreply" ∷ codes "delete a 0 noreply" ∷ []) }
    ensures key { AllSay (asks (deletes (codes "noreply")) false)
        (codes "delete noreply" ∷ codes "delete noreply 0" ∷ []) }
    ensures both { AllSay (asks (deletes (codes "noreply")) true)
        (codes "delete noreply noreply" ∷ codes "delete noreply 0 noreply" ∷ []) }
{}

/// Example lines that count.
pub fn worked_counts()
    ensures up { line_form (codes "incr a 1") ≡ asks (counts (codes "a") true 1) false }
    ensures down { line_form (codes "decr a 5") ≡ asks (counts (codes "a") false 5) false }
    ensures quiet { line_form (codes "incr a 1 noreply") ≡ asks (counts (codes "a") true 1) true }
    ensures key { line_form (codes "decr noreply 0 noreply")
        ≡ asks (counts (codes "noreply") false 0) true }
    ensures most { line_form (codes "incr a 18446744073709551615")
        ≡ asks (counts (codes "a") true 18446744073709551615) false }
    ensures padded { line_form (codes "incr a 00000000000000000001")
        ≡ asks (counts (codes "a") true 1) false }
{}

/// Example lines without a key.
pub fn worked_lines_without_a_key()
    ensures version { AllSay (asks tells_version false) (codes "version" ∷ codes " version " ∷ []) }
    ensures verbosity { line_form (codes "verbosity 1") ≡ asks sets_verbosity false }
    ensures silent { line_form (codes "verbosity 4294967295 noreply") ≡ asks sets_verbosity true }
    ensures flush { AllSay (asks flushes false)
        (codes "flush_all" ∷ codes "flush_all 0" ∷ codes "flush_all 00" ∷ []) }
    ensures quiet { AllSay (asks flushes true)
        (codes "flush_all noreply" ∷ codes "flush_all 0 noreply" ∷ []) }
    ensures quit { AllSay (asks quits false) (codes "quit" ∷ codes " quit " ∷ []) }
{}

/// Example storage lines: the verbs.
pub fn worked_verbs()
    ensures set { AllSay (asks (sets 0 1) false) sets_of_a }
    ensures add { line_form (codes "add a 7 0 1") ≡ asks (stores Verbs.Add (codes "a") 7 1) false }
    ensures replace { line_form (codes "replace a 0 0 1")
        ≡ asks (stores Verbs.Replace (codes "a") 0 1) false }
    ensures append { line_form (codes "append a 9 0 2")
        ≡ asks (stores Verbs.Append (codes "a") 9 2) false }
    ensures prepend { line_form (codes "prepend a 9 0 1")
        ≡ asks (stores Verbs.Prepend (codes "a") 9 1) false }
    ensures cas { line_form (codes "cas a 3 0 1 99")
        ≡ asks (exchanges (codes "a") 3 1 99) false }
{}

/// Example storage lines: numbers at their limits, and noreply.
pub fn worked_storage_lines()
    ensures flags { line_form (codes "set a 4294967295 0 1") ≡ asks (sets 4294967295 1) false }
    ensures padded { line_form (codes "set a 00000000000000000005 0 1") ≡ asks (sets 5 1) false }
    ensures empty { line_form (codes "set a 0 0 0") ≡ asks (sets 0 0) false }
    ensures longest { line_form (codes "set a 0 0 4294967295") ≡ asks (sets 0 4294967295) false }
    ensures quiet { line_form (codes "set a 0 0 1 noreply") ≡ asks (sets 0 1) true }
    ensures key { line_form (codes "append noreply 0 0 1")
        ≡ asks (stores Verbs.Append (codes "noreply") 0 1) false }
    ensures unique { line_form (codes "cas a 3 0 1 18446744073709551615 noreply")
        ≡ asks (exchanges (codes "a") 3 1 18446744073709551615) true }
    ensures both { line_form (codes "cas noreply 0 0 1 0 noreply")
        ≡ asks (exchanges (codes "noreply") 0 1 0) true }
{}

/// Example meta lines.
pub fn worked_meta_lines()
    ensures noop { line_form (codes "mn") ≡ asks (metas noops) false }
    ensures get { line_form (codes "mg a s v f k")
        ≡ asks (metas (meta_gets (codes "a") (codes "svfk"))) false }
    ensures set { line_form (codes "ms a 1 F5 MS")
        ≡ asks (metas (meta_stores Verbs.Set (codes "a") 5 1 [])) false }
    ensures mode { line_form (codes "ms key 3 k Me q")
        ≡ asks (metas (meta_stores Verbs.Add (codes "key") 0 3 (codes "kq"))) false }
    ensures unique { line_form (codes "ms a 0 C7 T300 k")
        ≡ asks (metas (meta_exchanges (codes "a") 0 0 7 (codes "k"))) false }
    ensures delete { line_form (codes "md  a q ")
        ≡ asks (metas (meta_deletes (codes "a") (codes "q"))) false }
    ensures count { line_form (codes "mn q") ≡ faulty Errors.Unknown }
    ensures bad { line_form (codes "ms a 2 ME c") ≡ faulty Errors.BadLine }
{}

/// Example lines, and what must come with them.
pub fn worked_needs()
    ensures none { need (codes "get a") ≡ Need.Nothing }
    ensures faulty { need (codes "set a x 0 1") ≡ Need.Nothing }
    ensures block { need (codes "set a 0 0 1048577 noreply") ≡ Need.Block 1048577 }
    ensures longest { need (codes "cas a 0 0 4294967295 1") ≡ Need.Block 4294967295 }
    ensures quit { need (codes "quit") ≡ Need.Quit }
{}
