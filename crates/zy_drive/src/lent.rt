//! A feeder that is lent.
ghost use Rattle.std.specs.Prelude.{◌≡◌};
ghost use Rattle.std.proofs.Common.{refl, ◌∙◌};

use zy_rx::{Fed, Feeder, Outlet};

// A feeder that is lent to a scope, since a scope says nothing of a `&mut` that its closure holds.
#[derive(Drop)]
pub(crate) struct Lent<'a, F> {
    pub(crate) feeder: &'a mut F,
}

impl<'a, F: Feeder> Feeder for Lent<'a, F> {
    ghost inlets = { λ l. F.inlets l.feeder.now };

    ghost ended = { λ l. F.ended l.feeder.now };

    ghost broken = { λ l. F.broken l.feeder.now };

    ghost leads = { λ l m. (m.feeder.ghost_name ≡ l.feeder.ghost_name) × F.leads l.feeder.now m.feeder.now };

    fn step(&mut self) -> Fed {
        self.feeder.step()
    }

    fn may_wait(&self) -> bool {
        self.feeder.may_wait()
    }

    fn meet(&mut self, core: u32, outlet: &mut Outlet) {
        self.feeder.meet(core, outlet);
    }

    ghost leads_same = { λ l. (refl, F.leads_same l.feeder.now) };

    ghost leads_on = { λ l m n p q. (q.0 ∙ p.0, F.leads_on l.feeder.now m.feeder.now n.feeder.now p.1 q.1) };
}
