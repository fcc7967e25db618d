//! Commands that are not followed, behind the answers of a session.
ghost use Rattle.std.specs.Prelude.{◌≡◌, IfOk};
ghost use Rattle.mc_kind.specs.Cutting.{IsCutting};
ghost use Rattle.zy_outputs.specs.Others.{IsFirstOther, IsFollowedCutting, IsOtherBehind, is_loud_fault};
ghost use Rattle.zy_outputs.specs.Others.{is_unfollowed, may_be_hidden};

use mc_kind::{Cutting, cut_session};
use mc_parse::{Command, Meta};
use std::alloc::Global;
use zy_base::NoMemory;

/// Cuts the output of a session, unless a command is not followed. A command without an answer in the
/// output is not followed if its answer may be hidden, or if it has a fault and asks for an answer.
pub(crate) fn cut_followed(
    alloc: Global,
    commands: &[Command],
    output: &[u8],
) -> Result<Cutting, NoMemory>
    ensures value { IfOk result (IsCutting commands.now output.now) }
    ensures followed { IfOk result (IsFollowedCutting commands.now output.now) }
{
    let cutting = cut_session(alloc, commands, output)?;
    match other_behind(commands, &cutting) {
        Some(index) => {
            drop(cutting);
            Ok(Cutting::Other { index })
        }
        None => Ok(cutting),
    }
}

// Finds the first command behind the answers that is not followed.
fn other_behind(commands: &[Command], cutting: &Cutting) -> Option<usize>
    ensures value { IsOtherBehind commands.now cutting.now result }
{
    match cutting {
        // What follows a refuted answer is not known to be none.
        Cutting::Kind { index } => first_other(commands, commands.len(), *index),
        Cutting::All { texts } => first_other(commands, texts.items().len(), texts.items().len()),
        // The first command without an answer may have the beginning of one.
        Cutting::Front { texts } => first_other(
            commands,
            texts.items().len() + 1,
            texts.items().len(),
        ),
        Cutting::Surplus | Cutting::Other { .. } => None,
    }
}

// Finds the first command from an index on that is not followed; those from `silent` on have no answer.
fn first_other(commands: &[Command], silent: usize, from: usize) -> Option<usize>
    ensures value { IsFirstOther commands.now silent from result }
{
    for index in from..commands.len() {
        if is_unfollowed(silent, index, &commands[index]) {
            return Some(index);
        }
    }
    None
}

// Checks whether the command with this index is not followed, if those from `silent` on have no answer.
fn is_unfollowed(silent: usize, index: usize, command: &Command) -> bool
    ensures value { result ≡ is_unfollowed silent index command.now }
{
    may_be_hidden(command) || (silent <= index && is_loud_fault(command))
}

// Checks whether the answer to a command may be hidden.
fn may_be_hidden(command: &Command) -> bool
    ensures value { result ≡ may_be_hidden command.now }
{
    match command {
        Command::Meta {
            meta: Meta::Get { flags, .. } | Meta::Delete { flags, .. },
        } => flags.has(b'q'),
        Command::Meta {
            meta: Meta::Set { marks, .. },
        } => marks.has(b'q'),
        _ => false,
    }
}

// Checks whether a command has a fault and asks for an answer.
fn is_loud_fault(command: &Command) -> bool
    ensures value { result ≡ is_loud_fault command.now }
{
    matches!(command, Command::Fault { quiet: false, .. })
}
