//! The law of the count of faults while a capture is fed.
ghost use Rattle.std.specs.Prelude.{◌≡◌, ◌≤◌};
ghost use Rattle.zy_feed.specs.declared.intake.Header.{Header};
ghost use Rattle.zy_feed.specs.declared.stage.Stage.TheVariants as Stages;
ghost use Rattle.zy_feed.specs.Reads.{HasBegun};
ghost use Rattle.zy_feed.specs.Feeding.{Feeding, AreUnsent, LeadsTo};

use zy_base::Source;

/// However far a feeder is, the count of faults has not fallen since the first read.
pub fn a_feeder_counts_on<S: Source>()
    ensures count { (first : S) (header : Header) (f g : Feeding S)
        → HasBegun S.rest S.faults first f.source f.intake header → AreUnsent f.sents
        → f.stage ≡ Stages.Cutting → LeadsTo S.rest S.faults f g
        → S.faults first ≤ S.faults g.source }
{}
