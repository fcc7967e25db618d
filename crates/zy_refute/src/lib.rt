//! Refutes that the calls at a key have an order, by rules over when they were sent and ended.
#![tactic(auto)]

mod candidates;
mod laws;
mod makers;
mod matching;
mod meeting;
mod need;
mod observed;
mod order;
mod rests;
mod shared;
mod sharing;
mod sources;
mod store;
mod takers;
mod unmet;

pub use laws::a_need_without_a_source_is_never_met;
pub use meeting::is_never_met;
pub use need::Need;
pub use observed::Observed;
pub use order::is_surely_before;
pub use shared::find_shared;
pub use sharing::is_shared;
pub use sources::has_no_source;
pub use store::Store;
pub use unmet::{find_unmet, is_unmet};
