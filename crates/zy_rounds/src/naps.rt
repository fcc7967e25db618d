//! The core of a group of one: its naps, and how it calls up others.
ghost use Rattle.std.specs.Prelude.{◌≡◌, length, IfOk, OnOk, OnErr};
ghost use Rattle.zy_core.specs.Core.{Fits, identity_of};
ghost use Rattle.zy_core.specs.Cores.{identities, EachFits};
ghost use Rattle.zy_rounds.specs.Round.{round_of_nap};
ghost use Rattle.zy_rounds.specs.Turns.{HaveTurned, SameTurns};
ghost use Rattle.zy_rounds.specs.Naps.{IsAlone, NappedTo, FirstNapped, CallsUp};
ghost use Rattle.zy_rounds.specs.Same.{SameCore, SameCores, SameBell};

use crate::round::Round;
use crate::turns::TURN_LIMIT;
use std::sync::Wait;
use zy_base::{Gate, NoMemory};
use zy_core::{Core, Nap, Shared, Turn};
use zy_park::{BellPass, Bells};

// Takes a nap of the one core. The call may wait.
pub(crate) fn nap_first<R: Wait, G: Gate>(
    rt: &R,
    cores: &mut Vec<Core>,
    shared: &Shared,
    bells: &Bells,
    pass: &mut BellPass,
    gate: &G,
) -> Result<Round, NoMemory>
    requires fits { EachFits shared.now (identities cores.old.items) }
    requires alone { IsAlone pass.old.core (identities cores.old.items) }
    requires bells { pass.old.bells ≡ bells.now }
    ensures napped { IfOk result (FirstNapped (length shared.now.rings)
        cores.old.items cores.new.items pass.old pass.new) }
    ensures turns { OnOk result (HaveTurned cores.old.items cores.new.items) }
    ensures same { SameCores cores.old.items cores.new.items }
    ensures pass { SameBell pass.old pass.new }
    ensures kept { OnErr result (pass.new ≡ pass.old) }
{
    let core = &mut cores[0];
    nap_one(rt, core, shared, bells, pass, gate)
}

// Takes a nap of a core, if the core may take a turn.
fn nap_one<R: Wait, G: Gate>(
    rt: &R,
    core: &mut Core,
    shared: &Shared,
    bells: &Bells,
    pass: &mut BellPass,
    gate: &G,
) -> Result<Round, NoMemory>
    requires fits { Fits shared.now (identity_of core.old) }
    requires core { pass.old.core ≡ core.old.home.core }
    requires bells { pass.old.bells ≡ bells.now }
    ensures napped { IfOk result (NappedTo (length shared.now.rings)
        core.old core.new pass.old pass.new) }
    ensures same { SameCore core.old core.new }
    ensures pass { SameBell pass.old pass.new }
    ensures kept { OnErr result (pass.new ≡ pass.old) }
{
    if core.is_refused() {
        return Err(NoMemory);
    }
    if core.turns() >= TURN_LIMIT {
        return Ok(Round::Idle);
    }
    let nap = core.nap(rt, shared, bells, pass, gate)?;
    Ok(round_of(nap))
}

// Returns the result of a nap of a group's one core.
fn round_of(nap: Nap) -> Round
    ensures value { result ≡ round_of_nap nap }
{
    match nap {
        Nap::Awake(Turn::Worked) => Round::Worked,
        Nap::Rested => Round::Rested,
        _ => Round::Idle,
    }
}

// Lets the one core call up those that rest: it loads sleepers, and rings each core whose bit is 1.
pub(crate) fn call_up_first(
    cores: &mut Vec<Core>,
    shared: &Shared,
    bells: &Bells,
    pass: &mut BellPass,
)
    requires fits { EachFits shared.now (identities cores.old.items) }
    requires alone { IsAlone pass.old.core (identities cores.old.items) }
    requires bells { pass.old.bells ≡ bells.now }
    requires count { length bells.now ≡ length shared.now.rings }
    ensures rung { CallsUp cores.old.items cores.new.items pass.old pass.new }
    ensures turns { SameTurns cores.old.items cores.new.items }
    ensures same { SameCores cores.old.items cores.new.items }
    ensures pass { SameBell pass.old pass.new }
{
    let core = &mut cores[0];
    core.call_up(shared, bells, pass);
}
