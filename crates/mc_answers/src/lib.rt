//! Says which bytes may answer a command, from any memcached.
#![tactic(auto)]

pub mod answers;
pub mod cuts;
