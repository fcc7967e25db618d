//! One call of a command.
ghost use Rattle.std.specs.Prelude.{◌≡◌, ◌≤◌, IfOk, IfSome, slice_get};
ghost use Rattle.mc_answers.specs.Said.{said_calls};
ghost use Rattle.zy_explain.specs.Making.{IsOnShards};

use mc_parse::{Command, ShardCall, call_at};
use zy_base::NoMemory;

/// Makes the call of a command that has this number, if it has one; those of `stats` do not count.
pub(crate) fn said_call_at(
    command: &Command,
    part: usize,
    shards: u32,
) -> Result<Option<ShardCall>, NoMemory>
    requires some { 1 ≤ shards }
    requires limit { shards ≤ 256 }
    ensures value { IfOk result (λ call. call ≡ slice_get (said_calls shards command.now) part) }
    ensures shard { IfOk result (λ call. IfSome call (IsOnShards shards)) }
{
    match command {
        Command::Stats => Ok(None),
        _ => call_at(command, part, shards),
    }
}
