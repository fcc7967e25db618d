//! Finds which call made what another one found, and between which moments calls can be made. Nothing is
//! promised of it: it only leads a search for an order.
#![tactic(auto)]

mod chain;
mod effects;
mod floors;
mod hashing;
mod keys;
mod links;
mod looked;
mod numbers;
mod overs;
mod reach;
mod sessions;
mod sorted;
mod sources;
mod table;

pub use chain::Chain;
pub use effects::{changes, expected, found_another};
pub use hashing::{mixed, unique_hash};
pub use keys::Keys;
pub use links::{Calls, Links, Makers, links_of};
pub use numbers::{NONE, at, put, small, time_at};
pub use overs::Overs;
pub use reach::Times;
pub use sessions::{are_of_one_session, end_of};
pub use sorted::Sorted;
pub use table::Table;
