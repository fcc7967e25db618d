//! The commands of a session, and its output.
ghost use Rattle.mc_kind.specs.Cutting.{IsCutting};
ghost use Rattle.std.specs.Prelude.{◌≡◌, ◌⊎◌, ◌≤◌, true, [], length, drop, IfOk};
ghost use Rattle.mc_answers.specs.Kinds.{IsErrorLine};

use crate::finding::first_answer;
use crate::first::First;
use crate::text::Text;
use mc_answered::{is_error_line, line_length, text_from};
use mc_parse::Command;
use std::alloc::Global;
use zy_base::{Items, NoMemory};

/// How the output of a session is cut into the answers of its commands.
#[derive(Drop)]
pub enum Cutting {
    /// What is left of the output neither begins with an answer of this command, nor begins one.
    Kind { index: usize },
    /// The output goes on after the answers of all commands, and not with an error line alone.
    Surplus,
    /// A server may have answered this command in a way that is not followed here.
    Other { index: usize },
    /// These are the answers of the first commands, and the others have none.
    All { texts: Items<Text> },
    /// These are the answers of the first commands; what the others have is not known.
    Front { texts: Items<Text> },
}

/// Finds the answers of a session's commands in its output, or the first command that the output refutes.
#[tactic(auto, using(crate::proofs::CutLemmas::knows_nothing))]
pub fn cut_session(alloc: Global, commands: &[Command], output: &[u8]) -> Result<Cutting, NoMemory>
    ensures value { IfOk result (IsCutting commands.now output.now) }
{
    let mut at = 0;
    let mut texts = Vec::new(alloc);
    for index in 0..commands.len() {
        if at == output.len() {
            return Ok(Cutting::All {
                texts: Items::from_vec(texts),
            });
        }
        match first_answer(&commands[index], text_from(output, at)) {
            First::Whole { length } => {
                texts.push(Text {
                    from: at,
                    to: at + length,
                })?;
                at += length;
            }
            First::Refused => return Ok(Cutting::Kind { index }),
            First::Other => return Ok(Cutting::Other { index }),
            First::Unread => return Ok(Cutting::Front {
                texts: Items::from_vec(texts),
            }),
        }
    }
    if is_over(output, at) {
        Ok(Cutting::All {
            texts: Items::from_vec(texts),
        })
    } else {
        Ok(Cutting::Surplus)
    }
}

// Checks whether an output ends at an offset, or goes on with one error line.
fn is_over(output: &[u8], at: usize) -> bool
    requires within { at ≤ length output.now }
    ensures over { (drop at output.now ≡ []) ⊎ IsErrorLine (drop at output.now) → result ≡ true }
{
    at == output.len() || is_error_text(text_from(output, at))
}

// Checks whether the bytes are one error line.
fn is_error_text(bytes: &[u8]) -> bool
    ensures value { IsErrorLine bytes.now → result ≡ true }
{
    match line_length(bytes) {
        Some(length) => length == bytes.len() && is_error_line(&bytes[..length]),
        None => false,
    }
}
