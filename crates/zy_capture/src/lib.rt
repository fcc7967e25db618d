//! Capture and replies files: readers fed byte by byte, streams, outputs and the writer.
#![tactic(auto)]

mod capture_fault;
mod capture_state;
mod due;
mod laws;
mod outputs;
mod reader;
mod record;
mod replies_due;
mod replies_reader;
mod replies_state;
mod session_bytes;
mod sessions;
mod streams;
mod whole;
mod writing;

pub use capture_fault::{CaptureFault, FeedFault};
pub use laws::a_capture_is_good_exactly_where_it_is_a_spelling;
pub use outputs::Outputs;
pub use reader::Reader;
pub use record::{Held, Record, Segment};
pub use replies_reader::RepliesReader;
pub use session_bytes::SessionBytes;
pub use streams::Streams;
pub use whole::begins_with_record;
pub use writing::write_replies;
