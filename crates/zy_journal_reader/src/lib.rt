//! The reader of journals: fed byte by byte or in pieces, it gives the journal that was encoded.
#![tactic(auto)]

mod call_fields;
mod draft;
mod due;
mod laws;
mod past;
mod reader;
mod records;
mod state;

pub use laws::a_journal_is_good_exactly_where_it_is_a_spelling;
pub use reader::JournalReader;
