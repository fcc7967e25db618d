//! Laws of lines: the functions do nothing, and their contracts are the laws.
ghost use Rattle.std.specs.Prelude.{◌≡◌, ℕ, Bool, true, false, List, [], ◌∷◌, ◌++◌, None, Some, codes};
ghost use Rattle.std.specs.List.{list_all};
ghost use Rattle.mc_parse.specs.declared.command.Command.{Command};
ghost use Rattle.mc_parse.specs.declared.error_line.ErrorLine.{ErrorLine};
ghost use Rattle.mc_parse.specs.declared.error_line.ErrorLine.TheVariants as Errors;
ghost use Rattle.mc_parse.specs.declared.name.Name.{Name};
ghost use Rattle.mc_parse.specs.declared.need.Need.{Need};
ghost use Rattle.mc_meta.specs.Meta.{is_meta_name, meta_line};
ghost use Rattle.mc_parse.specs.Number.{is_exptime};
ghost use Rattle.mc_laws.specs.SameCalls.{spaced, AreWords, AskTheSame};
ghost use Rattle.mc_parse.specs.Words.{words, is_word, space};
ghost use Rattle.mc_parse.specs.Name.{name_of};
ghost use Rattle.mc_parse.specs.Form.{Ask, stores};
ghost use Rattle.mc_parse.specs.Form.{asks, faulty, number_fault, form_after, form_of};
ghost use Rattle.mc_parse.specs.Form.{meta_form, line_form};
ghost use Rattle.mc_laws.specs.Checks.{HasBadCount, LacksNoreply, HasLongKey, HasBadNumber, Asks, is_silenced};
ghost use Rattle.mc_parse.specs.Need.{need};
ghost use Rattle.mc_parse.specs.Meaning.{line_end, is_ended, value_command, line_command};
ghost use Rattle.mc_parse.specs.Meaning.{block_command, large_command, fault, IsBlockFor, IsTooLarge};
ghost use Rattle.mc_laws.specs.Noreply.{takes_noreply, is_quiet, OnlyFallsSilent, EndsInNoreply};

/// Words are the maximal runs of bytes other than a space: a space separates what comes before it
/// from what comes after it, and a text without a space is one word, unless it is empty.
pub fn spaces_part_words()
    ensures empty { words [] ≡ [] }
    ensures parts { (front back : List ℕ)
        → words (front ++ space ∷ back) ≡ words front ++ words back }
    ensures one { (word : List ℕ) → is_word word ≡ true → words word ≡ word ∷ [] }
    ensures only { (line : List ℕ) → list_all is_word (words line) ≡ true }
{}

/// A line without a fault to which the word noreply may be added means the same with that word, but
/// is quiet.
pub fn noreply_only_silences()
    ensures value { (line : List ℕ) → takes_noreply line ≡ true → OnlyFallsSilent line }
{}

/// A line that asks for no answer ends in the word noreply. Without that word it means the same,
/// but asks for an answer.
pub fn noreply_is_a_last_word()
    ensures value { (line : List ℕ) → is_quiet (line_form line) ≡ true → EndsInNoreply line }
{}

/// A line is checked in this order: its name; the number of words after it; noreply, which is
/// required if their number is the largest allowed; its keys; its numbers.
pub fn lines_are_checked_in_order()
    ensures empty { form_of [] ≡ faulty Errors.Unknown }
    ensures name { (name : List ℕ) (words : List (List ℕ)) → name_of name ≡ None
        → form_of (name ∷ words) ≡ faulty Errors.Unknown }
    ensures after { (n : List ℕ) (words : List (List ℕ)) (name : Name) → name_of n ≡ Some name
        → form_of (n ∷ words) ≡ form_after name words }
    ensures count { (name : Name) (words : List (List ℕ)) → HasBadCount name words
        → form_after name words ≡ faulty Errors.Unknown }
    ensures noreply { (name : Name) (words : List (List ℕ)) → LacksNoreply name words
        → form_after name words ≡ faulty Errors.Unknown }
    ensures keys { (name : Name) (words : List (List ℕ)) → HasLongKey name words
        → form_after name words ≡ faulty Errors.BadLine }
    ensures numbers { (name : Name) (words : List (List ℕ)) → HasBadNumber name words
        → form_after name words ≡ faulty (number_fault name) }
    ensures value { (name : Name) (words : List (List ℕ)) (ask : Ask) → Asks name words ask
        → form_after name words ≡ asks ask (is_silenced name words) }
{}

/// A line whose first word is the name of a meta command says what is read in it as a meta command; any other
/// line says what its words say.
pub fn a_name_decides_how_a_line_is_read()
    ensures empty { (line : List ℕ) → words line ≡ [] → line_form line ≡ faulty Errors.Unknown }
    ensures meta { (line name : List ℕ) (ws : List (List ℕ)) → words line ≡ name ∷ ws
        → is_meta_name name ≡ true → line_form line ≡ meta_form line (meta_line line) }
    ensures other { (line name : List ℕ) (ws : List (List ℕ)) → words line ≡ name ∷ ws
        → is_meta_name name ≡ false → line_form line ≡ form_of (name ∷ ws) }
{}

/// A meta line asks for the same calls as a classic line: `mg` as `get` of one key, `ms` with the flags as
/// `set`, with the flags and the CAS value as `cas`, and `md` as `delete`. The same must come with both, and
/// they are followed by the same block.
pub fn meta_lines_ask_for_the_same_calls()
    ensures get { (key : List ℕ) → is_word key ≡ true
        → AskTheSame (spaced (codes "get" ∷ key ∷ [])) (spaced (codes "mg" ∷ key ∷ [])) }
    ensures set { (key flags exptime bytes : List ℕ)
        → AreWords (key ∷ flags ∷ exptime ∷ bytes ∷ []) → is_exptime exptime ≡ true
        → AskTheSame (spaced (codes "set" ∷ key ∷ flags ∷ exptime ∷ bytes ∷ []))
        (spaced (codes "ms" ∷ key ∷ bytes ∷ (codes "F" ++ flags) ∷ [])) }
    ensures cas { (key flags exptime bytes unique : List ℕ)
        → AreWords (key ∷ flags ∷ exptime ∷ bytes ∷ unique ∷ []) → is_exptime exptime ≡ true
        → AskTheSame (spaced (codes "cas" ∷ key ∷ flags ∷ exptime ∷ bytes ∷ unique ∷ []))
        (spaced (codes "ms" ∷ key ∷ bytes ∷ (codes "F" ++ flags) ∷ (codes "C" ++ unique) ∷ [])) }
    ensures delete { (key : List ℕ) → is_word key ≡ true
        → AskTheSame (spaced (codes "delete" ∷ key ∷ [])) (spaced (codes "md" ∷ key ∷ [])) }
{}

/// A line with a fault is a request by itself, and is always answered.
pub fn a_faulty_line_is_answered()
    ensures need { (line : List ℕ) (e : ErrorLine) → line_form line ≡ faulty e
        → need line ≡ Need.Nothing }
    ensures value { (line : List ℕ) (e : ErrorLine) → line_form line ≡ faulty e
        → line_command line ≡ fault e }
{}

/// A value that is too large is a fault, whatever its block contains; so is a block that does not
/// end in `\r\n`. Any other block stores the value before its two last bytes. The fault is quiet if
/// the line is.
pub fn a_block_is_its_value_and_two_bytes()
    ensures large { (line : List ℕ) → IsTooLarge (need line)
        → large_command line ≡ Command.Fault Errors.TooLarge (is_quiet (line_form line)) }
    ensures bad { (line block : List ℕ) → IsBlockFor (need line) block → is_ended block ≡ false
        → block_command line block ≡ Command.Fault Errors.BadChunk (is_quiet (line_form line)) }
    ensures value { (line value : List ℕ) (ask : Ask) (quiet : Bool)
        → line_form line ≡ asks ask quiet
        → block_command line (value ++ line_end) ≡ value_command ask quiet value }
{}
