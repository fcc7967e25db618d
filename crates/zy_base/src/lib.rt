//! The types that every layer shares: byte strings, lists, numbers, sources and sinks.
#![tactic(auto)]

mod blob;
mod call_numbers;
mod file_fault;
mod filling;
mod items;
mod limits;
mod mem_sink;
mod mem_source;
mod number;
mod outside;
mod piece;
mod queue;
mod reserved;
mod short;
mod storage;
mod sure_sink;
mod sure_source;
mod writing;

pub use blob::Blob;
pub use call_numbers::CallNumbers;
pub use file_fault::FileFault;
pub use filling::Filling;
pub use items::Items;
pub use limits::{
    COMMAND_LIMIT, CONNECTION_LIMIT, CORE_LIMIT, HOLD_LIMIT, KEY_LIMIT, LINE_LIMIT, SHARD_LIMIT,
    STAMP_LIMIT, VALUE_LIMIT,
};
pub use mem_sink::MemSink;
pub use mem_source::MemSource;
pub use number::{digits_of, number_text, read_number};
pub use outside::{Failed, Gate, NoMemory, Sink, Source, Ungated};
pub use piece::Piece;
pub use queue::Queue;
pub use reserved::Reserved;
pub use sure_sink::SureSink;
pub use sure_source::SureSource;
pub use writing::{write_pieces, write_whole};
