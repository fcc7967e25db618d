//! Orders of calls.

use zy_items::{KeptItem, Standing};
use zy_search::Firsts;
use zy_verdict::Order;

/// What may happen at a key besides the calls.
#[derive(Clone, Copy)]
pub struct Rules<'a> {
    /// The store begins with any items.
    pub warm: bool,
    /// Items may be lost.
    pub forget: bool,
    /// The calls are those of a window, and the store begins with this. Then the items that are stored have
    /// uniques above its bound.
    pub begun: Option<&'a Standing>,
}

/// What was found.
#[derive(Drop)]
pub enum Found {
    /// An order of all sure calls, and some others, and the items that the store begins with; none if they
    /// are known before.
    Ordered { order: Order, began: Vec<KeptItem> },
    /// No order; the calls with these offsets stood in the way.
    Nothing { calls: Vec<usize> },
}

impl<'a> Rules<'a> {
    // Returns what the keys have before any call.
    pub(crate) fn firsts(self) -> Firsts<'a> {
        match self.begun {
            Some(begun) => Firsts::Items(&begun.items),
            None if self.warm => Firsts::Any,
            None => Firsts::Nothing,
        }
    }

    // Checks whether keys may have items before any call.
    pub(crate) fn may_have_items(self) -> bool {
        match self.begun {
            Some(begun) => !begun.items.is_empty(),
            None => self.warm,
        }
    }
}
