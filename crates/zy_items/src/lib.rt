//! Items files: what a server has between two recordings, the reader and the writer.
#![tactic(auto)]

mod due;
mod laws;
mod reader;
mod standing;
mod state;
mod writing;

pub use laws::a_good_items_file_says_what_a_server_can_have;
pub use reader::ItemsReader;
pub use standing::{KeptItem, Standing};
pub use writing::write_items;
