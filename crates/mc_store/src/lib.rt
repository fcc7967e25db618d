//! The shards of the store in the slots of one table, called by any number of passes at once.
#![tactic(auto)]

mod fetched;
mod got;
mod pass;
mod root;
mod store;
mod tried;

pub use fetched::Fetched;
pub use got::Got;
pub use pass::Pass;
pub use root::Root;
pub use store::StoreTable;
pub use tried::Tried;
