//! What turns and naps use.
ghost use Rattle.std.specs.Prelude.{◌≡◌, ◌≤◌, length};

use zy_core::Shared;
use zy_park::Bells;

/// What the turns and naps of a run use: the runtime, what the cores share, a bell for each core,
/// and the gate.
#[derive(Drop)]
pub struct Driving<'s, R, G> {
    /// The runtime.
    pub rt: &'s R,
    /// What the cores share.
    pub shared: &'s Shared,
    /// A bell for each core.
    pub bells: &'s Bells,
    /// The gate.
    pub gate: &'s G,
    ghost count: { length bells.now ≡ length shared.now.rings },
    ghost few: { length bells.now ≤ 64 },
}

impl<'s, R, G> Driving<'s, R, G> {
    /// Makes it of these.
    pub fn new(rt: &'s R, shared: &'s Shared, bells: &'s Bells, gate: &'s G) -> Driving<'s, R, G>
        requires count { length bells.now ≡ length shared.now.rings }
        requires few { length bells.now ≤ 64 }
        ensures shared { result.shared.now ≡ shared.now }
        ensures bells { result.bells.now ≡ bells.now }
    {
        Driving {
            rt,
            shared,
            bells,
            gate,
        }
    }
}
