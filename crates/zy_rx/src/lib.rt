//! What the network delivers to a core: the home core of a connection, the receive ring of each
//! core, feeders that offer items to these rings, and the items of a capture that each core is
//! offered.
#![tactic(auto)]

mod feeder;
mod flow_table;
mod inlet;
mod outlet;
mod rx;

pub use feeder::{Fed, Feeder};
pub use flow_table::FlowTable;
pub use inlet::{Inlet, RingInlet};
pub use outlet::{Outlet, RingOutlet, both_ends, ring};
pub use rx::Rx;
