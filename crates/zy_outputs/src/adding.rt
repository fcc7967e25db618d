//! The calls of a command, with what is seen of them.
ghost use Rattle.std.specs.Prelude.{◌≡◌, ◌≤◌, ◌++◌, true, false, List, OnOk, IfOk};
ghost use Rattle.mc_parse.specs.declared.command.Command.TheVariants.{Stats};
ghost use Rattle.mc_parse.specs.Deed.{says_of, is_unsaid};
ghost use Rattle.zy_refute.specs.declared.observed.Observed.{Observed};
ghost use Rattle.zy_outputs.specs.Adding.{IsOneSeen, AddsCalls, AddsParts};

use crate::rules::Rules;
use crate::seen::Seen;
use crate::showing::{parts_of, take_part};
use mc_allows::CallName;
use mc_parse::{Command, ShardCall, call_at};
use mc_shown::Part;
use std::alloc::Global;
use zy_base::{Items, NoMemory};
use zy_refute::Observed;

/// Adds the calls of a command, with what its bytes and its times show of them. The name is that of its first call.
#[tactic(auto, using(crate::proofs::AddingLemmas::counts_add_none))]
pub(crate) fn add_calls(
    alloc: Global,
    rules: Rules,
    name: CallName,
    command: &Command,
    text: &[u8],
    seen: Seen,
    calls: &mut Items<Observed>,
) -> Result<(), NoMemory>
    requires some { 1 ≤ rules.shards }
    requires limit { rules.shards ≤ 256 }
    ensures added { OnOk result (AddsCalls rules name command.now text.now seen calls.old calls.new) }
{
    if is_stats(command) {
        return Ok(());
    }
    let mut parts = parts_of(alloc, command, text)?;
    let added = add_parts(rules, name, command, &mut parts, seen, calls);
    drop(parts);
    added
}

// Checks whether a command asks for counts, which no call of a recording gives.
fn is_stats(command: &Command) -> bool
    ensures yes { result ≡ true → command.now ≡ Stats }
    ensures no { result ≡ false → command.now ≡ Stats → Prim.⊥ }
{
    matches!(command, Command::Stats)
}

// Adds the calls of a command, of which these parts of its answer are shown.
#[tactic(auto, using(crate::proofs::AddingLemmas::adds_nothing, crate::proofs::AddingLemmas::adds_all))]
fn add_parts(
    rules: Rules,
    name: CallName,
    command: &Command,
    parts: &mut Vec<Part>,
    seen: Seen,
    calls: &mut Items<Observed>,
) -> Result<(), NoMemory>
    requires some { 1 ≤ rules.shards }
    requires limit { rules.shards ≤ 256 }
    requires counts { command.now ≡ Stats → Prim.⊥ }
    ensures added { OnOk result (AddsParts rules name command.now parts.old.items seen calls.old calls.new) }
{
    let quiet = command.is_quiet();
    for part in 0..u32::MAX {
        let Some(call) = call_at(command, part as usize, rules.shards)? else {
            return Ok(());
        };
        let own = CallName { part, ..name };
        let shown = take_part(parts, part as usize, quiet, rules.forget, &call.call);
        add_call(own, call, shown, seen, calls)?;
    }
    Err(NoMemory)
}

// Adds a call of this name.
fn add_call(
    name: CallName,
    call: ShardCall,
    part: Part,
    seen: Seen,
    calls: &mut Items<Observed>,
) -> Result<(), NoMemory>
    ensures added { OnOk result (IsOneSeen name call part.shown seen calls.old calls.new) }
{
    let x = Observed {
        name,
        shard: call.shard,
        call: call.call,
        shown: part.shown,
        unique: part.unique,
        sure: seen.sure,
        sent: seen.sent,
        ended: seen.ended,
    };
    match calls.push(x) {
        Ok(()) => Ok(()),
        Err((x, refused)) => {
            drop(x);
            Err(refused)
        }
    }
}
