//! Why a text of a source is read no further.
ghost use Rattle.std.specs.Prelude.{◌≡◌};
ghost use Rattle.zy_read.specs.Piece.{stop_of};
ghost use Rattle.zy_read.specs.declared.stop.Stop.TheVariants as Stops;

use crate::not_taken::NotTaken;
use zy_base::{Failed, NoMemory};

/// Why a text of a source is read no further. Its faults have type `F`.
#[derive(Clone, Copy, PartialEq, Eq)]
pub enum Stop<F> {
    /// The text has this fault.
    Refused(F),
    /// A read failed.
    ReadFault,
    /// An allocation failed.
    NoMemory,
}

impl<F> From<NoMemory> for Stop<F> {
    ghost from_gives = { λ _ stop. stop ≡ Stops.NoMemory };

    fn from(_: NoMemory) -> Stop<F> {
        Stop::NoMemory
    }
}

impl<F> From<Failed> for Stop<F> {
    ghost from_gives = { λ _ stop. stop ≡ Stops.ReadFault };

    fn from(_: Failed) -> Stop<F> {
        Stop::ReadFault
    }
}

impl<F> From<NotTaken<F>> for Stop<F> {
    ghost from_gives = { λ answer stop. stop ≡ stop_of answer };

    fn from(answer: NotTaken<F>) -> Stop<F> {
        match answer {
            NotTaken::Fault(fault) => Stop::Refused(fault),
            NotTaken::NoMemory => Stop::NoMemory,
        }
    }
}
