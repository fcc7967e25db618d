//! The caller's passes, and how it rings the cores that rest.
ghost use Rattle.std.specs.Prelude.{◌≡◌, ◌==◌, ◌&&◌, not};
ghost use Rattle.std.specs.Int.{bit_at};
ghost use Rattle.zy_control.specs.Pass.{seeing_stop};
ghost use Rattle.zy_drive.specs.CallUp.{RingsIf};

use zy_control::ControlPass;
use zy_core::Shared;
use zy_park::BellRoot;
use zy_rounds::Driving;

// The caller's pass on the control words, the root of the bells, and whether cores rest.
#[derive(Drop)]
pub(crate) struct Caller<'a> {
    watch: ControlPass,
    root: &'a mut BellRoot,
    rings: bool,
}

impl<'a> Caller<'a> {
    // Makes the caller, which rings cores only if some rest.
    pub(crate) fn new(shared: &Shared, root: &'a mut BellRoot, rings: bool) -> Caller<'a>
        ensures watch { result.watch.table ≡ shared.now.control.id }
        ensures root { result.root.now ≡ root.old }
        ensures rings { result.rings ≡ rings }
    {
        let (watch, _) = shared.control().watch();
        Caller { watch, root, rings }
    }

    // Loads sleepers, and rings each core whose bit is 1, if `is_due` and cores rest.
    pub(crate) fn ring_if<R, G>(&mut self, is_due: bool, driving: &Driving<'_, R, G>)
        requires watch { self.old.watch.table ≡ driving.now.shared.now.control.id }
        requires bells { self.old.root.now.bells ≡ driving.now.bells.now }
        ensures watch { self.new.watch.table ≡ self.old.watch.table }
        ensures bells { self.new.root.now.bells ≡ self.old.root.now.bells }
        ensures rung { RingsIf (is_due && self.old.rings)
            self.old.watch self.new.watch self.old.root.now self.new.root.now }
        ensures rings { self.new.rings ≡ self.old.rings }
    {
        if !is_due || !self.rings {
            return;
        }
        let sleepers = driving.shared.control().load_sleepers(&mut self.watch);
        if sleepers != 0 {
            driving.bells.ring_each_from(self.root, sleepers);
        }
    }

    // Checks whether the cores are to stop, by one load of stop.
    pub(crate) fn is_stopped(&mut self, shared: &Shared) -> bool
        requires watch { self.old.watch.table ≡ shared.now.control.id }
        ensures value { result ≡ not (self.new.watch.trace.stop.value == 0) }
        ensures watch { self.new.watch ≡ seeing_stop self.new.watch.trace.stop.value self.old.watch }
        ensures bells { self.new.root.now.bells ≡ self.old.root.now.bells }
    {
        shared.control().is_stopped(&mut self.watch)
    }

    // Asks all cores to stop, also those that rest.
    pub(crate) fn stop<R, G>(&mut self, driving: &Driving<'_, R, G>)
        requires watch { self.old.watch.table ≡ driving.now.shared.now.control.id }
        requires bells { self.old.root.now.bells ≡ driving.now.bells.now }
        ensures set { bit_at self.new.watch.trace.stop.value 0 ≡ 1 }
        ensures rung { RingsIf self.old.rings (seeing_stop self.new.watch.trace.stop.value self.old.watch)
            self.new.watch self.old.root.now self.new.root.now }
    {
        driving.shared.control().stop(&mut self.watch);
        self.ring_if(true, driving);
    }
}
