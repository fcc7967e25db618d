//! What keys have before any call.

use crate::held::{Held, first_known};
use mc_calls::Item;
use std::cmp::Ordering;
use zy_base::{Blob, NoMemory};
use zy_items::KeptItem;

/// What keys have before any call.
#[derive(Clone, Copy)]
pub enum Firsts<'a> {
    /// Anything.
    Any,
    /// No items.
    Nothing,
    /// These items, by their keys in rising order.
    Items(&'a [KeptItem]),
}

// More halvings than a list of items has.
const HALVINGS: usize = 64;

impl<'a> Firsts<'a> {
    /// Returns what a key has; nothing is known without a key. May answer `NoMemory`.
    pub fn at(self, key: Option<&Blob>) -> Result<Held, NoMemory> {
        match self {
            Firsts::Any => Ok(Held::Any),
            Firsts::Nothing => Ok(Held::Nothing),
            Firsts::Items(items) => match key {
                Some(key) => match item_of(items, key) {
                    Some(item) => first_known(item),
                    None => Ok(Held::Nothing),
                },
                None => Ok(Held::Nothing),
            },
        }
    }
}

// Returns the item of a key among items by their keys in rising order.
fn item_of<'a>(items: &'a [KeptItem], key: &Blob) -> Option<&'a Item> {
    let mut low = 0usize;
    let mut high = items.len();
    for _ in 0..HALVINGS {
        let middle = low.saturating_add(high.saturating_sub(low) / 2);
        let kept = items.get(middle)?;
        match kept.key.cmp(key) {
            Ordering::Less => low = middle.saturating_add(1),
            Ordering::Greater => high = middle,
            Ordering::Equal => return Some(&kept.item),
        }
        if high <= low {
            return None;
        }
    }
    None
}
