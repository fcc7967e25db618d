//! Checks that an order of calls explains a recording.
#![tactic(auto)]

mod beginning;
mod calling;
mod carrying;
mod confirming;
mod ending;
mod lasting;
mod numbers;
mod over;
mod row;
mod rules;
mod settling;
mod state;
mod track;
mod window;

pub use confirming::confirm;
pub use lasting::union_of;
pub use numbers::Numbers;
pub use rules::Rules;
pub use window::{Window, confirm_between};
