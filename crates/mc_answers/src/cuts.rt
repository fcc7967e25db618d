//! Laws of kinds of text that are cut in one way: the functions do nothing, and their contracts are the laws.
ghost use Rattle.std.specs.Prelude.{ℕ, Bool, List};
ghost use Rattle.std.specs.List.{AllByRecursion};
ghost use Rattle.mc_parse.specs.declared.command.Command.{Command};
ghost use Rattle.mc_parse.specs.Deed.{says_of};
ghost use Rattle.mc_answers.specs.Answer.{IsFromLine};
ghost use Rattle.mc_answers.specs.Cut.{AreCut, AreApart, IsLine, IsOfLine, IsWord};
ghost use Rattle.mc_answers.specs.Kinds.{IsItemText, IsEndText, IsValueText};
ghost use Rattle.mc_answers.specs.Shape.{IsShaped};

/// Lines are cut in one way.
pub fn lines_are_cut_in_one_way()
    ensures line { AreCut IsLine }
{}

/// The items of a retrieval are cut in one way, and none of them begins as the line after them.
pub fn items_are_cut_in_one_way()
    ensures item { (asked : Bool) (keys : List (List ℕ)) → AllByRecursion IsWord keys → AreCut (IsItemText asked keys) }
    ensures end { AreCut IsEndText }
    ensures apart { (asked : Bool) (keys : List (List ℕ)) → AreApart (IsItemText asked keys) IsEndText }
    ensures value { (key letters : List ℕ) → IsOfLine key → AreCut (IsValueText key letters) }
{}

/// The texts that have the shape of a command's answers are cut in one way.
pub fn shapes_are_cut_in_one_way()
    ensures shape { (command : Command) → IsFromLine command → AreCut (IsShaped (says_of command)) }
{}
