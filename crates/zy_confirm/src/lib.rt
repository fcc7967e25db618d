//! Follows an order of calls that may explain a recording.
#![tactic(auto)]

mod beginning;
mod choosing;
mod counting;
mod failing;
mod gathering;
mod laws;
mod making;
mod next_text;
mod outcome;
mod refusing;
mod store;
mod timing;

pub use failing::may_fail_quietly;
pub use laws::an_order_has_chains;
pub use making::make;
pub use next_text::text_length;
pub use store::Store;
pub use timing::{ended_by, is_unended, marks_fit};
