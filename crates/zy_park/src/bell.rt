//! The bell of one core: its two ends, and the seats at its token.
ghost use Rattle.std.specs.Prelude.{◌≡◌, true, false, IfOk};
ghost use Rattle.zy_park.specs.Token.{unrung, rings, takes};
ghost use Rattle.zy_park.specs.Bell.{seated};

use crate::view::View;
use crossbeam_utils::rule::{Outcome, Protocol};
use crossbeam_utils::sync::parker::{Pass, RuledParker, RuledUnparker};
use std::alloc::Global;
use std::marker::{Brand, Model, PhantomData};
use std::sync::Wait;
use zy_base::NoMemory;

// The rule of a token, which holds between any two steps.
pub(crate) struct Rule;

impl Protocol<bool, View> for Rule {
    ghost use Rattle.zy_park.specs.Token.{TokenRule, unrung};

    ghost holds = { TokenRule };

    ghost first = { unrung };
}

// The token was put.
struct Rings;

impl Outcome<bool, View> for Rings {
    ghost use Rattle.zy_park.specs.Token.{puts};

    ghost then = { puts };
}

// The pass on the control words that is lent to a rest, if there is one.
pub(crate) trait Lent {
    ghost use Rattle.std.specs.Prelude.{Option};
    ghost use Rattle.zy_control.specs.Pass.{Held};

    ghost lent: { Option Held };
}

impl Lent for Brand {
    ghost use Rattle.std.specs.Prelude.{None};

    ghost lent = { None };
}

// The token was taken.
struct Takes<J> {
    marker: PhantomData<J>,
}

impl<J: Lent> Outcome<bool, View> for Takes<J> {
    ghost use Rattle.zy_park.specs.Token.{takes_from};

    ghost then = { takes_from J.lent };
}

// The end that puts the token. Contracts see which table the token is in.
#[derive(Drop)]
pub(crate) struct Bell {
    unparker: RuledUnparker<View, Rule>,
}

impl Model for Bell {
    ghost use Rattle.std.specs.Arc.{arc_value};
    ghost use Rattle.atomic_table.specs.Seated.{TableId};

    ghost Value = { TableId };

    ghost view = { λ b. (arc_value b.unparker.state).shared.table_id };
}

// The end that rests until the token is there, and takes it. Contracts see which table the token
// is in.
#[derive(Drop)]
pub(crate) struct Sleeper {
    parker: RuledParker<View, Rule>,
}

impl Model for Sleeper {
    ghost use Rattle.std.specs.Arc.{arc_value};
    ghost use Rattle.atomic_table.specs.Seated.{TableId};

    ghost Value = { TableId };

    ghost view = { λ s. (arc_value s.parker.unparker.state).shared.table_id };
}

// The right to step on a token. Contracts see which table it is in, and what the seat knows.
#[derive(Drop)]
pub(crate) struct BellSeat {
    pass: Pass<View>,
}

impl Model for BellSeat {
    ghost use Rattle.zy_park.specs.Bell.{Seated, seated};

    ghost Value = { Seated };

    ghost view = { λ s. seated s.pass.table_id s.pass.me.0 };
}

impl Bell {
    // Makes a bell whose token is not there: its two ends, and the first seat at it.
    pub(crate) fn new(alloc: Global) -> Result<(Bell, Sleeper, BellSeat), NoMemory>
        ensures sleeper { IfOk result (λ made. made.1 ≡ made.0) }
        ensures seat { IfOk result (λ made. made.2 ≡ seated made.0 unrung) }
    {
        let (parker, pass) = RuledParker::ruled(alloc)?;
        let unparker = match parker.unparker().clone() {
            Ok(unparker) => unparker,
            Err(_) => {
                drop(parker);
                return Err(NoMemory);
            }
        };
        Ok((Bell { unparker }, Sleeper { parker }, BellSeat { pass }))
    }

    // Makes another seat at its token. Takes no memory.
    pub(crate) fn enter(&self) -> BellSeat
        ensures value { result ≡ seated self.now unrung }
    {
        BellSeat {
            pass: self.unparker.pass(),
        }
    }

    // Puts the token, and wakes the core if it rests. The token is there after its one step.
    pub(crate) fn ring(&self, seat: &mut BellSeat)
        requires table { seat.old.table ≡ self.now }
        ensures value { seat.new ≡ seated seat.old.table (rings seat.old.view) }
    {
        self.unparker.unpark_as::<Rings>(&mut seat.pass);
    }
}

impl Sleeper {
    // Waits until the token is there, and takes it.
    pub(crate) fn rest<J: Lent, R: Wait>(&self, rt: &R, seat: &mut BellSeat)
        requires table { seat.old.table ≡ self.now }
        ensures value { seat.new ≡ seated seat.old.table (takes J.lent seat.old.view) }
    {
        self.parker.park_as::<Takes<J>, R>(rt, &mut seat.pass);
    }
}
