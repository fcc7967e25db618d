//! Making the home.
ghost use Rattle.std.specs.Prelude.{◌≡◌, ◌≤◌, ◌^◌, length};
ghost use Rattle.zy_setup.specs.New.{AreNewCores};

use crate::conn::Rounds;
use crate::conn::homing::{CONNECTIONS, Ends, serve_rounds};
use std::alloc::Global;
use std::time::CpuClock;
use zy_base::NoMemory;
use zy_core::Running;
use zy_setup::make_run;

/// Returns the nanoseconds of these rounds, in each of which each connection gets a segment, on a
/// store of 16 shards.
pub(crate) fn homed<R: CpuClock>(rt: &R, alloc: Global, rounds: Rounds) -> Result<u64, NoMemory>
    requires rounds { rounds.count ≤ 2 ^ 20 }
{
    let running = make_run(alloc, CONNECTIONS, 1, 16)?;
    serve_run(rt, alloc, running, rounds)
}

// Returns these nanoseconds, of a run with one core.
fn serve_run<R: CpuClock>(
    rt: &R,
    alloc: Global,
    running: Running,
    rounds: Rounds,
) -> Result<u64, NoMemory>
    requires rounds { rounds.count ≤ 2 ^ 20 }
    requires cores { length running.cores ≡ 1 }
    requires count { length running.shared.rings ≡ 1 }
    requires ends { length running.inlets.items ≡ 1 }
    requires new { AreNewCores running.shared 200 running.cores }
{
    let Running {
        mut cores,
        shared,
        mut inlets,
        root,
    } = running;
    // No pass is joined.
    drop(root);
    let Some(core) = cores.next() else {
        unreachable!()
    };
    drop(cores);
    let (mut home, _, _, outlet, _) = core.into_parts();
    let (rings, store) = shared.into_parts();
    let mut ends = Ends {
        inlet: inlets.remove(0),
        outlet,
    };
    drop(inlets);
    let ring = rings.ring(0);
    let spent = serve_rounds(rt, alloc, ring, &store, &mut home, &mut ends, rounds);
    drop(ends);
    drop(home);
    drop(rings);
    drop(store);
    spent
}
