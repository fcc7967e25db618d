//! What a feeder has done when it ended or broke.
ghost use Rattle.std.specs.Prelude.{◌≡◌, Some};
ghost use Rattle.zy_feed.specs.declared.intake.Header.{Header};
ghost use Rattle.zy_read.specs.declared.stop.Stop.{Stop};
ghost use Rattle.zy_capture.specs.declared.capture_fault.CaptureFault.{CaptureFault};
ghost use Rattle.zy_feed.specs.declared.stage.Stage.TheVariants as Stages;
ghost use Rattle.zy_feed.specs.Reads.{HasBegun};
ghost use Rattle.zy_feed.specs.Feeding.{Feeding, stop_in, AreUnsent, HasFedAll, HasStoppedFeeding};
ghost use Rattle.zy_feed.specs.Feeding.{LeadsTo};

use zy_base::Source;

/// If a feeder began with a capture's header and fresh inlets, and has ended, then the source held
/// a capture with that version and count and is at its end, and each core was sent the items of the
/// records that are for it, followed by the end.
pub fn a_feeder_that_ended_has_offered_the_capture<S: Source>()
    ensures all { (first : S) (header : Header) (f g : Feeding S)
        → HasBegun S.rest S.faults first f.source f.intake header → AreUnsent f.sents
        → f.stage ≡ Stages.Cutting → g.stage ≡ Stages.Ended → LeadsTo S.rest S.faults f g
        → HasFedAll S.rest S.faults first g.source header g.sents }
{}

/// If a feeder has broken, it has its cause: the fault is the verdict on all that the source held
/// before the first read, or the source's count of faults rose since, or is at its largest value.
pub fn a_broken_feeder_has_its_cause<S: Source>()
    ensures cause { (first : S) (header : Header) (f g : Feeding S) (stop : Stop CaptureFault)
        → HasBegun S.rest S.faults first f.source f.intake header → AreUnsent f.sents
        → f.stage ≡ Stages.Cutting → stop_in g.stage ≡ Some stop → LeadsTo S.rest S.faults f g
        → HasStoppedFeeding S.rest S.faults first g.source stop }
{}
