//! The connections of a home.
mod cutting;
mod settling;

use crate::link::Link;
use crate::places::Places;

/// The connections of a home, without their blocks.
#[derive(Drop)]
pub struct Links {
    pub(crate) places: Places,
    // By place, and so by rising number: the connection.
    pub(crate) items: Vec<Link>,
    pub(crate) ended: bool,
    pub(crate) refused: bool,
    // The places whose blocks may have got an event from the items that were cut last: they are left to
    // settle. A place may be here twice.
    pub(crate) touched: Vec<usize>,
}
