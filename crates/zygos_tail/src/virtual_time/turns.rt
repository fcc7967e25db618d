//! Turns of the cores: the one with the least clock takes the next.
ghost use Rattle.std.specs.Prelude.{◌≡◌, ◌<◌, length};
ghost use Rattle.zy_core.specs.Core.{Fits, identity_of};
ghost use Rattle.zy_core.specs.Cores.{identities, EachFits};

use crate::clock::monotonic;
use crate::virtual_time::gate::TurnGate;
use crate::virtual_time::state::{Next, Run};
use std::time::Clock;
use zy_base::NoMemory;
use zy_core::{Came, Core, Shared};
use zy_steal::Looks;

// The most turns of a core.
const TURN_LIMIT: u64 = 1 << 48;

/// Lets the cores take their turns until all requests were executed.
pub(crate) fn take_turns<R: Clock>(
    rt: &R,
    cores: &mut Vec<Core>,
    shared: &Shared,
    run: &mut Run,
) -> Result<(), NoMemory>
    requires fits { EachFits shared.now (identities cores.old.items) }
{
    for _ in 0..u64::MAX {
        match run.next()? {
            Next::Turn(at) if at < cores.len() => take_turn(rt, cores, at, shared, run)?,
            Next::Waited => {}
            _ => return Ok(()),
        }
    }
    Ok(())
}

// Takes a turn of this core, and advances its clock by the turn's cost.
fn take_turn<R: Clock>(
    rt: &R,
    cores: &mut Vec<Core>,
    at: usize,
    shared: &Shared,
    run: &mut Run,
) -> Result<(), NoMemory>
    requires within { at < length cores.old.items }
    requires fits { EachFits shared.now (identities cores.old.items) }
    ensures same { identities cores.new.items ≡ identities cores.old.items }
{
    let core = &mut cores[at];
    let turn = timed_turn(rt, core, shared, run.gate())?;
    run.settle(at, turn.worked, &turn.looks, turn.nanos)
}

// A turn that was taken: whether it worked, its looks at the other cores, and its nanoseconds on this machine.
#[derive(Drop)]
struct Timed {
    worked: bool,
    looks: Looks,
    nanos: u64,
}

// Takes a turn of one core between two looks at the clock, and measures it, without the time of
// such a look.
fn timed_turn<R: Clock>(
    rt: &R,
    core: &mut Core,
    shared: &Shared,
    gate: &TurnGate,
) -> Result<Timed, NoMemory>
    requires fits { Fits shared.now (identity_of core.old) }
    ensures same { identity_of core.new ≡ identity_of core.old }
{
    let mut looks = Looks::new();
    gate.begin();
    let first = monotonic(rt);
    let begin = monotonic(rt);
    let came = turn_one(core, shared, gate, &mut looks)?;
    let end = monotonic(rt);
    let clock = begin.saturating_sub(first);
    Ok(Timed {
        worked: came.has_worked(),
        looks,
        nanos: end.saturating_sub(begin).saturating_sub(clock),
    })
}

// Takes a turn of one core, if it may take one.
fn turn_one(
    core: &mut Core,
    shared: &Shared,
    gate: &TurnGate,
    looks: &mut Looks,
) -> Result<Came, NoMemory>
    requires fits { Fits shared.now (identity_of core.old) }
    ensures same { identity_of core.new ≡ identity_of core.old }
{
    if core.is_refused() || core.turns() >= TURN_LIMIT {
        return Err(NoMemory);
    }
    core.turn_over(shared, gate, looks)
}
