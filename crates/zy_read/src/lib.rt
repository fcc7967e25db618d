//! The reading machine: the common part of readers that take bytes one after another.
#![tactic(auto)]

mod bytes;
mod fed;
mod field;
mod field_format;
mod field_reader;
mod magic;
mod not_taken;
mod pieces;
mod reads;
mod shape;
mod stop;

pub use bytes::are_bytes;
pub use fed::{Fed, goes_on};
pub use field::Field;
pub use field_format::FieldFormat;
pub use field_reader::FieldReader;
pub use magic::{MagicPart, MagicStep};
pub use not_taken::{FileFeed, NotTaken};
pub use pieces::Pieces;
pub use reads::{Reads, feed, feed_piece};
pub use shape::Shape;
pub use stop::Stop;
