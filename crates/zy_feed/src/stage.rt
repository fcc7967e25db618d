//! Where a feeder is.

use crate::stop::Stop;
use zy_rx::Rx;

// Where a feeder is.
#[derive(Drop)]
pub(crate) enum Stage {
    // The next record is to be cut out.
    Cutting,
    // This item was handed back, and is offered next.
    Waiting(Rx),
    // All records were offered, and the end is to be offered to this core next.
    Ending(u32),
    // All was offered.
    Ended,
    // The capture is read no further.
    Broken(Stop),
}
