//! The report on a journal: what is counted of the calls on each shard, as a table.
#![tactic(auto)]

mod lines;
mod reporting;
mod table;
mod tallies;
mod tally;

pub use reporting::report;
