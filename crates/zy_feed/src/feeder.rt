//! The feeder of a run.
ghost use Rattle.std.specs.Prelude.{◌≡◌, ◌≢◌, ◌↔◌, ℕ, List, true, false, Some, slice_get, refl};
ghost use Rattle.std.proofs.Common.{◌∙◌};
ghost use Rattle.zy_feed.specs.Routing as Routing;
ghost use Rattle.zy_rx.specs.Feed.{rings_of, sent_by, HasOffered, HasNoRoom, HasMet};
ghost use Rattle.zy_feed.specs.declared.stage.Stage.TheVariants as Stages;
ghost use Rattle.zy_feed.specs.Feeding.{feeder_state, in_stage, stop_in, IsBroken, IsWaiting, LeadsTo};
ghost use Rattle.zy_feed.specs.Feeding.{StepsTo};
ghost use Rattle.zy_feed.specs.Leads.{leads_same, leads_on};
ghost use Rattle.zy_capture.specs.declared.record.Record.{Record};
ghost use Rattle.zy_capture.specs.Standing.{StandsForRecords};
ghost use Rattle.zy_feed.specs.Reads.{HoldsRecord};

use crate::inlets::Inlets;
use crate::intake::Intake;
use crate::stage::Stage;
use crate::stop::Stop;
use std::mem;
use zy_base::Source;
use zy_capture::{Record, Segment};
use zy_rx::{Fed, Feeder, Outlet, Rx};

/// Offers the records of a capture to the home cores of their connections, and then the end to each
/// core.
#[derive(Drop)]
pub struct CaptureFeeder<'s, S> {
    source: &'s mut S,
    intake: Intake,
    inlets: Inlets,
    stage: Stage,
}

impl<'s, S: Source> CaptureFeeder<'s, S> {
    /// Makes a feeder of what this intake has begun to read of the source. Takes no memory.
    pub fn new(source: &'s mut S, intake: Intake, inlets: Inlets) -> CaptureFeeder<'s, S>
        ensures source { result.source.ghost_name ≡ source.entry.ghost_name }
        ensures now { result.source.now ≡ source.old }
        ensures intake { result.intake ≡ intake }
        ensures inlets { result.inlets ≡ inlets }
        ensures stage { result.stage ≡ Stages.Cutting }
    {
        CaptureFeeder {
            source,
            intake,
            inlets,
            stage: Stage::Cutting,
        }
    }

    /// Returns the source, the inlets, and the reason why the feeder broke, if it is broken. Takes
    /// no memory.
    pub fn into_parts(self) -> (&'s mut S, Inlets, Option<Stop>)
        ensures source { result.0.ghost_name ≡ self.entry.source.ghost_name }
        ensures now { result.0.now ≡ self.entry.source.now }
        ensures inlets { result.1 ≡ self.entry.inlets }
        ensures stop { result.2 ≡ stop_in self.entry.stage }
    {
        let CaptureFeeder {
            source,
            intake: _,
            inlets,
            stage,
        } = self;
        let stop = match stage {
            Stage::Broken(stop) => Some(stop),
            _ => None,
        };
        (source, inlets, stop)
    }

    // Cuts the next record and offers it, at once if it is a segment that the piece holds whole.
    fn cut_next(&mut self) -> Fed
        requires cutting { self.old.stage ≡ Stages.Cutting }
        ensures source { self.new.source.ghost_name ≡ self.old.source.ghost_name }
        ensures steps { StepsTo self.old.inlets self.new.inlets self.new.stage result }
        ensures leads { LeadsTo S.rest S.faults
            (in_stage self.old Stages.Cutting) (feeder_state self.new) }
    {
        match self.intake.cut_held() {
            Some(segment) => self.deliver(item_of(Record::Segment(segment))),
            None => self.cut(),
        }
    }

    // Cuts the next record and offers it; if there is none, offers the end to the first core.
    #[inline(never)]
    fn cut(&mut self) -> Fed
        requires cutting { self.old.stage ≡ Stages.Cutting }
        ensures source { self.new.source.ghost_name ≡ self.old.source.ghost_name }
        ensures steps { StepsTo self.old.inlets self.new.inlets self.new.stage result }
        ensures leads { LeadsTo S.rest S.faults
            (in_stage self.old Stages.Cutting) (feeder_state self.new) }
    {
        match self.intake.cut(self.source) {
            Ok(Some(record)) => self.deliver(item_of(record)),
            Ok(None) => self.end(0),
            Err(stop) => {
                self.stage = Stage::Broken(stop);
                Fed::Broken
            }
        }
    }

    // Offers again the item that waits.
    fn offer_again(&mut self) -> Fed
        requires waiting { IsWaiting self.old.stage }
        ensures source { self.new.source.ghost_name ≡ self.old.source.ghost_name }
        ensures steps { StepsTo self.old.inlets self.new.inlets self.new.stage result }
        ensures leads { LeadsTo S.rest S.faults (feeder_state self.old) (feeder_state self.new) }
    {
        match mem::replace(&mut self.stage, Stage::Cutting) {
            Stage::Waiting(item) => self.deliver(item),
            _ => unreachable!(),
        }
    }

    // Offers an item to the core that it is for, and keeps it if it is handed back.
    #[inline(always)]
    fn deliver(&mut self, item: Rx) -> Fed
        requires cutting { self.old.stage ≡ Stages.Cutting }
        ensures source { self.new.source.ghost_name ≡ self.old.source.ghost_name }
        ensures steps { StepsTo self.old.inlets self.new.inlets self.new.stage result }
        ensures leads { LeadsTo S.rest S.faults
            (in_stage self.old (Stages.Waiting item)) (feeder_state self.new) }
    {
        match self.inlets.deliver(item) {
            None => Fed::Offered,
            Some(item) => {
                self.stage = Stage::Waiting(item);
                Fed::Full
            }
        }
    }

    // Offers the end to this core, if there is one.
    fn end(&mut self, core: u32) -> Fed
        ensures source { self.new.source.ghost_name ≡ self.old.source.ghost_name }
        ensures steps { StepsTo self.old.inlets self.new.inlets self.new.stage result }
        ensures leads { LeadsTo S.rest S.faults
            (in_stage self.old (Stages.Ending core)) (feeder_state self.new) }
    {
        if core >= self.inlets.count() {
            self.stage = Stage::Ended;
            return Fed::Ended;
        }
        if self.inlets.offer_end(core) {
            self.stage = Stage::Ending(core + 1);
            return Fed::Offered;
        }
        self.stage = Stage::Ending(core);
        Fed::Full
    }
}

impl<'s, S: Source> Feeder for CaptureFeeder<'s, S> {
    ghost inlets = { λ f. f.inlets };

    ghost ended = { λ f. f.stage ≡ Stages.Ended };

    ghost broken = { λ f. IsBroken f.stage };

    ghost leads = { λ f g. (g.source.ghost_name ≡ f.source.ghost_name)
        × LeadsTo S.rest S.faults (feeder_state f) (feeder_state g) };

    fn step(&mut self) -> Fed {
        match &self.stage {
            Stage::Cutting => self.cut_next(),
            Stage::Waiting(_) => self.offer_again(),
            Stage::Ending(core) => {
                let core = *core;
                self.end(core)
            }
            Stage::Ended => unreachable!(),
            Stage::Broken(_) => unreachable!(),
        }
    }

    // Checks whether the next step may wait: only if it cuts a record that the piece does not hold
    // whole.
    fn may_wait(&self) -> bool
        ensures cutting { result ≡ true → self.now.stage ≡ Stages.Cutting }
        ensures held { result ≡ false → self.now.stage ≡ Stages.Cutting
            → (records : List Record) (bytes : List ℕ) → StandsForRecords self.now.intake.reader records bytes
            → HoldsRecord bytes self.now.intake.left true }
        ensures missing { result ≡ true
            → (records : List Record) (bytes : List ℕ) → StandsForRecords self.now.intake.reader records bytes
            → HoldsRecord bytes self.now.intake.left false }
    {
        match self.stage {
            Stage::Cutting => !self.intake.holds_record(),
            _ => false,
        }
    }

    fn meet(&mut self, core: u32, outlet: &mut Outlet) {
        self.inlets.meet(core, outlet);
    }

    ghost leads_same = { λ f. (refl, leads_same S.rest S.faults (feeder_state f)) };

    ghost leads_on = { λ f g h p q. (
      q.0 ∙ p.0,
      leads_on S.rest S.faults (feeder_state f) (feeder_state g) (feeder_state h) p.1 q.1,
    ) };
}

// Makes the item that offers a record; its bytes are moved.
fn item_of(next: Record) -> Rx
    ensures value { result ≡ Routing.offered_item next }
{
    match next {
        Record::Segment(Segment { conn, bytes }) => Rx::Segment { conn, bytes },
        Record::Close { conn } => Rx::Close { conn },
    }
}
