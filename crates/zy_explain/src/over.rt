//! What is left of an output after the answers of its commands.
ghost use Rattle.std.specs.Prelude.{◌≡◌, true};
ghost use Rattle.mc_answers.specs.Kinds.{IsErrorLine};
ghost use Rattle.zy_explain.specs.Over.{IsDoneAt, AreAnsweredOrQuiet, IsLeftOver, IsWholeAt};

use mc_answered::{is_error_line, line_length};
use mc_parse::Command;

/// Checks whether an output is cut to its end, or what is left of it answers no command.
pub(crate) fn is_whole(commands: &[Command], output: &[u8], answered: &[bool], at: usize) -> bool
    ensures whole { result ≡ true → IsWholeAt commands.now output.now answered.now at }
{
    output.len() <= at || is_left_over(commands, output, answered, at)
}

// Checks whether what is left is one error line, if each command is done, and those that are not answered
// ask for no answer.
fn is_left_over(commands: &[Command], output: &[u8], answered: &[bool], at: usize) -> bool
    ensures over { result ≡ true → IsLeftOver commands.now output.now answered.now at }
{
    answered.len() == commands.len()
        && at < output.len()
        && is_error_text(&output[at..])
        && are_answered_or_quiet(commands, answered)
}

// Checks whether the bytes are one error line.
fn is_error_text(bytes: &[u8]) -> bool
    ensures error { result ≡ true → IsErrorLine bytes.now }
{
    match line_length(bytes) {
        Some(length) => length == bytes.len() && is_error_line(&bytes[..length]),
        None => false,
    }
}

// Checks whether each command is answered, or asks for no answer.
#[tactic(auto, using(crate::proofs::OverLemmas::done_more, crate::proofs::OverLemmas::done_to_end))]
fn are_answered_or_quiet(commands: &[Command], answered: &[bool]) -> bool
    ensures quiet { result ≡ true → AreAnsweredOrQuiet commands.now answered.now }
{
    for index in 0..commands.len() {
        if !is_done_at(commands, answered, index) {
            return false;
        }
    }
    true
}

// Checks whether the command with this index, if there is one, is answered or asks for no answer.
fn is_done_at(commands: &[Command], answered: &[bool], index: usize) -> bool
    ensures done { result ≡ true → IsDoneAt commands.now answered.now index }
{
    match (commands.get(index), answered.get(index)) {
        (Some(command), Some(answered)) => *answered || command.is_quiet(),
        _ => true,
    }
}
