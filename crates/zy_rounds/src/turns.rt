//! Turns of several cores.
ghost use Rattle.std.specs.Prelude.{◌≡◌, ◌≢◌, true, false, IfOk, OnOk};
ghost use Rattle.zy_core.specs.Core.{Fits, identity_of};
ghost use Rattle.zy_core.specs.Cores.{identities, EachFits, EachSettled};
ghost use Rattle.zy_rounds.specs.Counting.{have_all_blocks, HasOne, IsUnsettled, SeesOthers, EachNoted, EachNotes, some_due};
ghost use Rattle.zy_rounds.specs.Turns.{TurnedTo, HasTurned, EachTurned, AllTurned, HaveTurned, SameTurns};
ghost use Rattle.zy_rounds.specs.Same.{SameCore, SameCores};

use crate::round::Round;
use zy_base::{Gate, NoMemory};
use zy_core::{Core, Shared};
use zy_steal::Looks;

// The most turns of a core.
pub(crate) const TURN_LIMIT: u64 = 1 << 48;

// Takes a turn of one core, if it may take one. Its looks replace others in scratch space.
pub(crate) fn turn_one<G: Gate>(
    core: &mut Core,
    shared: &Shared,
    gate: &G,
    looks: &mut Looks,
) -> Result<Round, NoMemory>
    requires fits { Fits shared.now (identity_of core.old) }
    ensures same { SameCore core.old core.new }
    ensures turned { IfOk result (TurnedTo core.old core.new looks.old looks.new) }
    ensures turns { OnOk result (HasTurned core.old core.new) }
    ensures awake { IfOk result (λ round. round ≢ Round.Rested) }
{
    if core.is_refused() {
        return Err(NoMemory);
    }
    if core.turns() >= TURN_LIMIT {
        return Ok(Round::Idle);
    }
    let came = core.turn_over(shared, gate, looks)?;
    Ok(Round::of(came))
}

// Takes a turn of each core. Their looks replace others in scratch space.
pub(crate) fn turn_each<G: Gate>(
    cores: &mut Vec<Core>,
    shared: &Shared,
    gate: &G,
    looks: &mut Looks,
) -> Result<Round, NoMemory>
    requires fits { EachFits shared.now (identities cores.old.items) }
    ensures value { IfOk result (AllTurned cores.old.items cores.new.items looks.old looks.new Round.Idle) }
    ensures same { SameCores cores.old.items cores.new.items }
    ensures turned { OnOk result (EachTurned cores.old.items cores.new.items) }
    ensures turns { OnOk result (HaveTurned cores.old.items cores.new.items) }
    ensures awake { IfOk result (λ round. round ≢ Round.Rested) }
{
    let mut round = Round::Idle;
    for i in 0..cores.len() {
        let core = &mut cores[i];
        let turn = turn_one(core, shared, gate, looks)?;
        round = round.with(turn);
    }
    Ok(round)
}

// Counts each core that is settled, once. Says whether one was counted.
pub(crate) fn note_each(cores: &mut Vec<Core>, shared: &Shared) -> bool
    requires fits { EachFits shared.now (identities cores.old.items) }
    ensures same { SameCores cores.old.items cores.new.items }
    ensures value { result ≡ some_due cores.old.items }
    ensures notes { EachNotes cores.old.items cores.new.items }
    ensures noted { EachNoted cores.new.items }
    ensures turns { SameTurns cores.old.items cores.new.items }
    ensures kept { result ≡ false → cores.new.items ≡ cores.old.items }
{
    let mut counted = false;
    for i in 0..cores.len() {
        let core = &mut cores[i];
        let now = core.note(shared);
        counted = counted || now;
    }
    counted
}

// Checks whether each core finds that all cores are done. Then each of these is settled.
pub(crate) fn all_done(cores: &mut Vec<Core>, shared: &Shared) -> bool
    requires fits { EachFits shared.now (identities cores.old.items) }
    ensures same { SameCores cores.old.items cores.new.items }
    ensures settled { result ≡ true → EachSettled cores.new.items }
    ensures others { result ≡ false → HasOne SeesOthers cores.new.items }
    ensures turns { SameTurns cores.old.items cores.new.items }
{
    for i in 0..cores.len() {
        let core = &mut cores[i];
        if !core.is_done(shared) {
            return false;
        }
    }
    true
}

// Checks whether no block of these cores is away.
pub(crate) fn have_all_blocks(cores: &[Core]) -> bool
    ensures value { result ≡ have_all_blocks cores.now }
{
    for core in cores {
        if !core.has_all_blocks() {
            return false;
        }
    }
    true
}

// Checks whether each core is settled.
pub(crate) fn are_settled(cores: &[Core]) -> bool
    ensures settled { result ≡ true → EachSettled cores.now }
    ensures unsettled { result ≡ false → HasOne IsUnsettled cores.now }
{
    for i in 0..cores.len() {
        let core = &cores[i];
        if !core.is_settled() {
            return false;
        }
    }
    true
}
