//! What tables of words and slots share: the name of a table, for contracts alone, and lemmas that
//! show that a step keeps a rule.
#![tactic(auto)]

mod name;

pub use name::Name;
