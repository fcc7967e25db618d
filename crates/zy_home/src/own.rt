//! The result of a claim from a home's own queue.
use zy_conn::HoldEnd;

/// The result of a claim from the home's own queue.
#[derive(Drop)]
pub enum Own {
    /// A block was taken, held to this end, and settled.
    Took { held: HoldEnd },
    /// The queue was empty.
    Empty { at: u64 },
    /// Another core took the place first.
    Raced { saw: u64, found: u64 },
}
