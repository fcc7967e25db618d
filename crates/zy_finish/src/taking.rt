//! Taking the cores of a run apart.
ghost use Rattle.std.specs.Prelude.{◌≡◌, ◌≤◌, [], length, vec_capacity};
ghost use Rattle.zy_core.specs.Cores.{identities, homes_of};
ghost use Rattle.zy_core.specs.Running.{rings_in};
ghost use Rattle.zy_rx.specs.Feed.{rings_of};
ghost use Rattle.zy_finish.specs.Shown.{HasShown, HaveShown};

use zy_core::{Core, Cores};
use zy_home::Home;
use zy_rx::{Inlet, both_ends};

/// Takes each core apart, and puts its home into this list, which has room for all. The two ends of
/// each receive ring show what was sent and not taken.
pub(crate) fn take_homes(cores: Cores, inlets: Vec<Inlet>, homes: Vec<Home>) -> Vec<Home>
    requires rings { rings_of inlets.items ≡ rings_in (identities cores) }
    requires none { homes.items ≡ [] }
    requires room { length inlets.items ≤ vec_capacity homes }
    ensures homes { result.items ≡ homes_of cores }
    ensures shown { HaveShown inlets.items cores }
{
    let mut cores = cores;
    let mut homes = homes;
    for inlet in inlets {
        let Some(core) = cores.next() else {
            unreachable!()
        };
        homes.push_reserved(take_one(core, inlet));
    }
    homes
}

// Takes a core apart. The two ends of its receive ring show what was sent and not taken.
fn take_one(core: Core, inlet: Inlet) -> Home
    requires ring { inlet.ring ≡ core.outlet.ring }
    ensures home { result ≡ core.home }
    ensures shown { HasShown inlet core }
{
    let (home, _, _, mut outlet, _) = core.into_parts();
    let mut inlet = inlet;
    both_ends(&mut inlet, &mut outlet);
    home
}
