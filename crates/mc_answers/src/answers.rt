//! Laws of answers: the functions do nothing, and their contracts are the laws.
ghost use Rattle.std.specs.Prelude.{◌≡◌, ℕ, true, false, List, [], ◌∷◌, ◌++◌, length, take, codes};
ghost use Rattle.std.specs.List.{AllByRecursion, concat};
ghost use Rattle.mc_calls.specs.declared.call_reply.CallReply.{CallReply};
ghost use Rattle.mc_calls.specs.declared.call_reply.CallReply.TheVariants.{Hit, Miss, Stored};
ghost use Rattle.mc_parse.specs.declared.command.Command.{Command};
ghost use Rattle.mc_parse.specs.declared.error_line.ErrorLine.TheVariants as Errors;
ghost use Rattle.mc_parse.specs.declared.verb.Verb.TheVariants as Verbs;
ghost use Rattle.mc_parse.specs.Deed.{says_of};
ghost use Rattle.mc_allows.specs.declared.said.Said.TheVariants.{Replied, Failed};
ghost use Rattle.mc_answers.specs.Answer.{IsAnswer, IsSomeAnswer, AreSomeAnswers, IsCuttable};
ghost use Rattle.mc_answers.specs.Cut.{AreCut};
ghost use Rattle.mc_answers.specs.Output.{Cut, IsCut};
ghost use Rattle.mc_answers.specs.Shape.{IsShaped};

/// Each answer to a command has its shape.
pub fn answers_have_their_shape()
    ensures value { (command : Command) → IsCuttable command → (bytes : List ℕ) → IsSomeAnswer command bytes
        → IsShaped (says_of command) bytes }
{}

/// No answer to a command is the beginning of another, and joined answers to commands are cut in one way.
pub fn answers_are_cut_in_one_way()
    ensures free { (command : Command) → IsCuttable command → (a b more : List ℕ) → IsSomeAnswer command a
        → IsSomeAnswer command b → a ++ more ≡ b → more ≡ [] }
    ensures one { (command : Command) → IsCuttable command → AreCut (IsSomeAnswer command) }
    ensures all { (commands : List Command) (texts others : List (List ℕ)) (more other : List ℕ)
        → AllByRecursion IsCuttable commands → AreSomeAnswers commands texts → AreSomeAnswers commands others
        → concat texts ++ more ≡ concat others ++ other → (texts ≡ others) × (more ≡ other) }
    ensures fewer { (front back : List Command) (texts others : List (List ℕ)) (more other : List ℕ)
        → AllByRecursion IsCuttable (front ++ back) → AreSomeAnswers front texts
        → AreSomeAnswers (front ++ back) others → concat texts ++ more ≡ concat others ++ other
        → take (length front) others ≡ texts }
    ensures short { (command : Command) → IsCuttable command → (whole text part after missing : List ℕ)
        → IsSomeAnswer command whole → IsSomeAnswer command text → part ++ missing ≡ whole
        → part ≡ text ++ after → missing ≡ [] }
{}

/// Examples: two servers answer a retrieval in two orders, each names its own version, and one has no room.
pub fn worked_answers()
    ensures order { IsAnswer (Command.Get (codes "a" ∷ codes "b" ∷ codes "c" ∷ []) true)
        (Replied (Hit 0 2 (codes "\r\n1")) ∷ Replied (Hit 0 7 (codes "x")) ∷ Replied Miss ∷ [])
        (codes "VALUE b 0 1 7\r\nx\r\nVALUE a 0 3 2\r\n\r\n1\r\nEND\r\n") }
    ensures version { IsAnswer Command.Version [] (codes "VERSION 1.6.18\r\n") }
    ensures fault { IsAnswer (Command.Fault Errors.BadLine false) [] (codes "ERROR\r\n") }
    ensures failed { IsAnswer (Command.Store Verbs.Set (codes "a") 0 (codes "x") false) (Failed ∷ [])
        (codes "SERVER_ERROR out of memory storing object\r\n") }
    ensures quiet { IsAnswer (Command.Store Verbs.Set (codes "a") 0 (codes "x") true) (Replied Stored ∷ []) [] }
    ensures get { IsCuttable (Command.Get (codes "a" ∷ codes "b" ∷ []) true) }
{}

/// An output has at most one cut.
pub fn an_output_has_one_cut()
    ensures value { (commands : List Command) (output : List ℕ) (cut other : Cut) → AllByRecursion IsCuttable commands
        → IsCut commands output cut → IsCut commands output other → cut ≡ other }
{}
