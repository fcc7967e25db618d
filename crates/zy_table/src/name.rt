//! The name of a table.
use std::collections::LinkedList;

/// The name of a table of words and slots, for contracts alone: no value of it is made. It is the
/// table's identity as plain numbers, so that a view can hold it.
pub struct Name {
    pub words: u64,
    pub slots: u64,
    pub views_name: u64,
    pub atom: u64,
    pub block: u64,
    pub offset: u64,
    pub slot_names: LinkedList<u64>,
}
