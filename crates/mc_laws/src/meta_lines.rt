//! Laws of the lines of meta commands: the functions do nothing, and their contracts are the laws.
ghost use Rattle.std.specs.Prelude.{◌≡◌, ℕ, List, [], ◌∷◌, ◌++◌, map, None, Some, IfSome, codes};
ghost use Rattle.std.specs.List.{AllByRecursion};
ghost use Rattle.mc_meta.specs.declared.meta_line.MetaLine.TheVariants as Lines;
ghost use Rattle.mc_meta.specs.Words.{words, words_at, text_of, IsWordIn};
ghost use Rattle.mc_meta.specs.Meta.{meta_line};
ghost use Rattle.mc_meta.specs.Key.{key_of, IsKeyIn};
ghost use Rattle.mc_laws.specs.WorkedMeta.{AllSay, span, long_key, sets_in_mode, other_lines, miscounted_lines};
ghost use Rattle.mc_laws.specs.WorkedMeta.{lines_with_an_unlisted_letter, lines_with_a_repeated_letter};
ghost use Rattle.mc_laws.specs.WorkedMeta.{lines_with_a_needless_token, lines_with_a_bad_token};
ghost use Rattle.mc_laws.specs.WorkedMeta.{lines_with_a_bad_datalen, lines_with_a_unique_and_a_mode, lines_with_key};

/// The words of a line are at their places in it: without their places they are the line's maximal
/// runs of bytes other than a space.
pub fn words_are_at_their_places()
    ensures texts { (line : List ℕ) → map text_of (words_at 0 line) ≡ words line }
    ensures places { (line : List ℕ) → AllByRecursion (IsWordIn line) (words_at 0 line) }
{}

/// The key of a line is its second word: it is within the line, and has 1 to 250 bytes.
pub fn a_key_is_a_word_of_its_line()
    ensures value { (line : List ℕ) → IfSome (key_of (meta_line line)) (IsKeyIn line) }
{}

/// Example lines of `mn`, `mg` and `md`.
#[tactic(auto, unfolding(mc_meta::specs::Words::words_at))]
pub fn worked_gets_and_deletions()
    ensures noop { AllSay Lines.Noop (codes "mn" ∷ codes "  mn " ∷ []) }
    ensures plain { meta_line (codes "mg a") ≡ Lines.Get (span 3 4) [] }
    ensures marks { meta_line (codes "mg a s v f k") ≡ Lines.Get (span 3 4) (codes "svfk") }
    ensures quiet { meta_line (codes "mg b q") ≡ Lines.Get (span 3 4) (codes "q") }
    ensures all { meta_line (codes "mg a q s c f k v") ≡ Lines.Get (span 3 4) (codes "qscfkv") }
    ensures spaces { meta_line (codes "  mg   key  v  q ") ≡ Lines.Get (span 7 10) (codes "vq") }
    ensures letter { meta_line (codes "mg v v") ≡ Lines.Get (span 3 4) (codes "v") }
    ensures longest { meta_line (codes "mg " ++ long_key 250 ++ codes " v")
        ≡ Lines.Get (span 3 253) (codes "v") }
    ensures delete { meta_line (codes "md a") ≡ Lines.Delete (span 3 4) [] }
    ensures both { meta_line (codes "md key q k") ≡ Lines.Delete (span 3 6) (codes "qk") }
{}

/// Example lines of `ms`.
#[tactic(auto, unfolding(mc_meta::specs::Words::words_at))]
pub fn worked_sets()
    ensures plain { meta_line (codes "ms a 1") ≡ sets_in_mode 83 }
    ensures flags { meta_line (codes "ms a 1 F5 MS") ≡ Lines.Set (span 3 4) 1 5 None 83 [] }
    ensures unique { meta_line (codes "ms a 0 C7 Ms k")
        ≡ Lines.Set (span 3 4) 0 0 (Some 7) 83 (codes "k") }
    ensures largest { meta_line (codes "ms key 4294967295 q F4294967295 T-1 k C18446744073709551615")
        ≡ Lines.Set (span 3 6) 4294967295 4294967295 (Some 18446744073709551615) 83
        (codes "qk") }
    ensures padded { meta_line (codes "ms a 00000000000000000001 F00000000000000000000")
        ≡ sets_in_mode 83 }
    ensures exptime { AllSay (sets_in_mode 83)
        (codes "ms a 1 T300" ∷ codes "ms a 1 T1234567890123456789" ∷ []) }
    ensures modes { map (λ mode. meta_line (codes "ms a 1 M" ++ mode ∷ [])) (codes "EAPRS")
        ≡ map sets_in_mode (codes "EAPRS") }
    ensures small { map (λ mode. meta_line (codes "ms a 1 M" ++ mode ∷ [])) (codes "eaprs")
        ≡ map sets_in_mode (codes "EAPRS") }
{}

/// Example lines that are no meta command, or have a wrong number of words.
#[tactic(auto, unfolding(mc_meta::specs::Words::words_at))]
pub fn worked_other_lines()
    ensures other { AllSay Lines.Other other_lines }
    ensures count { AllSay Lines.WrongCount miscounted_lines }
{}

/// Example lines with a fault.
#[tactic(auto, unfolding(mc_meta::specs::Words::words_at))]
pub fn worked_faults()
    ensures letter { AllSay Lines.Bad lines_with_an_unlisted_letter }
    ensures repeated { AllSay Lines.Bad lines_with_a_repeated_letter }
    ensures needless { AllSay Lines.Bad lines_with_a_needless_token }
    ensures token { AllSay Lines.Bad lines_with_a_bad_token }
    ensures datalen { AllSay Lines.Bad lines_with_a_bad_datalen }
    ensures mode { AllSay Lines.Bad lines_with_a_unique_and_a_mode }
    ensures key { AllSay Lines.Bad (lines_with_key (long_key 251)) }
{}
