//! What an answer shows.
ghost use Rattle.std.specs.Prelude.{IfOk, List};
ghost use Rattle.mc_parse.specs.declared.command.Command.TheVariants as Commands;
ghost use Rattle.mc_allows.specs.declared.said.Said.{Said};
ghost use Rattle.mc_answers.specs.Answer.{IsAnswer};
ghost use Rattle.mc_shown.specs.Parts.{AreSuited};

use crate::listing::listing_parts;
use crate::numbered::numbered_part;
use crate::part::{Part, only_part};
use crate::told::line_shown;
use crate::valued::meta_shown;
use mc_answered::reply_kind;
use mc_parse::{Command, Meta};
use std::alloc::Global;
use zy_base::NoMemory;

/// Returns what an answer shows of what was said to each call of its command, in the order of the calls. Nothing is
/// shown of a call that the list does not have.
pub fn shown_by(alloc: Global, command: &Command, text: &[u8]) -> Result<Vec<Part>, NoMemory>
    ensures suits { IfOk result (λ parts. (saids : List Said) → IsAnswer command.now saids text.now
        → AreSuited parts.items saids) }
{
    match command {
        Command::Get { keys, unique } => listing_parts(alloc, keys.items(), *unique, text),
        Command::Meta { meta } => meta_parts(alloc, meta, text),
        _ => reply_parts(alloc, command, text),
    }
}

// Returns what the answer to a meta command shows.
fn meta_parts(alloc: Global, meta: &Meta, text: &[u8]) -> Result<Vec<Part>, NoMemory>
    ensures suits { IfOk result (λ parts. (saids : List Said) → IsAnswer (Commands.Meta meta.now) saids text.now
        → AreSuited parts.items saids) }
{
    let shown = meta_shown(alloc, meta, text)?;
    only_part(alloc, numbered_part(meta, shown, text))
}

// Returns what the answer of a command that is no retrieval shows.
fn reply_parts(alloc: Global, command: &Command, text: &[u8]) -> Result<Vec<Part>, NoMemory>
    ensures suits { IfOk result (λ parts. (saids : List Said) → IsAnswer command.now saids text.now
        → AreSuited parts.items saids) }
{
    if command.is_quiet() {
        return Ok(Vec::new(alloc));
    }
    match reply_kind(command) {
        Some(_) => only_part(alloc, Part::new(line_shown(text))),
        None => Ok(Vec::new(alloc)),
    }
}
