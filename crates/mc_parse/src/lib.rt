//! Reads a line, with its block, as a command, and lists the command's calls.
#![tactic(auto)]

mod args;
mod arity;
mod asking;
mod command;
mod error_line;
mod line;
mod listing;
mod meta;
mod meta_ask;
mod meta_command;
mod name;
mod need;
mod number;
mod on_all;
mod one_call;
mod parse;
mod parsed;
mod reading;
mod retrieval;
mod setting;
mod shard_call;
mod sizes;
mod storing;
mod verb;
mod word;

pub use command::{Command, Keys};
pub use error_line::ErrorLine;
pub use listing::calls;
pub use meta::Meta;
pub use name::Name;
pub use need::{Need, need_of, read_need};
pub use one_call::call_at;
pub use parse::{
    parse_block, parse_large, parse_line, parse_read, parse_read_block, parse_read_in,
};
pub use parsed::Parsed;
pub use retrieval::{OneKey, got_keys, one_key};
pub use setting::{NoSet, OneSet, one_set, set_command};
pub use shard_call::{Calls, ShardCall};
pub use verb::Verb;
