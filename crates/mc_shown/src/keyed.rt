//! The listed items by their keys.
ghost use Rattle.std.specs.Prelude.{◌≡◌, ◌<◌, ◌↔◌, true, length, IfSome, IfNone};
ghost use Rattle.std.specs.List.{AllByRecursion, Contains};
ghost use Rattle.mc_shown.specs.Listing.{IsNotOf, IsOnce};

use crate::listed::Listed;
use zy_base::Blob;

/// Returns the first item of a key.
pub(crate) fn item_of<'a>(items: &[Listed<'a>], key: &[u8]) -> Option<Listed<'a>>
    ensures some { IfSome result (λ item. Contains items.now item) }
    ensures key { IfSome result (λ item. item.key.now ≡ key.now) }
    ensures none { IfNone result (AllByRecursion (IsNotOf key.now) items.now) }
{
    for i in 0..items.len() {
        if is_same(items[i].key, key) {
            return Some(items[i]);
        }
    }
    None
}

/// Checks whether the key with this index is not asked for again.
pub(crate) fn is_once(keys: &[Blob], i: usize) -> bool
    requires low { i < length keys.now }
    ensures value { result ≡ true → IsOnce keys.now i }
{
    for j in 0..keys.len() {
        if j != i && is_same(keys[j].bytes(), keys[i].bytes()) {
            return false;
        }
    }
    true
}

// Checks whether two keys are the same.
fn is_same(one: &[u8], other: &[u8]) -> bool
    ensures value { (result ≡ true) ↔ (one.now ≡ other.now) }
{
    one == other
}
