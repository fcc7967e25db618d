//! The beginning of a run: the store, a block for each connection, and the cores.
#![tactic(auto)]

mod connections;
mod core_parts;
mod making;
mod making_rings;
mod own_connections;
mod running;

pub use running::make_run;
