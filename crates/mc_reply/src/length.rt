//! Room for the text of a retrieval.
ghost use Rattle.std.specs.Prelude.{◌≡◌, ◌≤◌, ◌+◌, Bool, length, IfSome};
ghost use Rattle.mc_reply.specs.Text.{item_text, items_text};

use mc_calls::CallReply;
use zy_base::Blob;

/// Returns a number of bytes that the texts of the keys do not exceed; `None` if it does not fit in
/// a `usize`.
pub(crate) fn items_room(keys: &[Blob], replies: &[CallReply]) -> Option<usize>
    requires same { length keys.now ≡ length replies.now }
    ensures value { IfSome result (λ n. (asked : Bool) → length (items_text asked keys.now replies.now) ≤ n) }
{
    let mut total = 0usize;
    for at in 0..keys.len() {
        let Some(more) = item_room(&keys[at], &replies[at]) else {
            return None;
        };
        let Some(sum) = total.checked_add(more) else {
            return None;
        };
        total = sum;
    }
    Some(total)
}

/// Returns a number of bytes that the text of a key does not exceed: its bytes, those of its value,
/// and 73 for three numbers of up to 20 digits and what is around them.
pub(crate) fn item_room(key: &Blob, reply: &CallReply) -> Option<usize>
    ensures value { IfSome result (λ n. (asked : Bool) → length (item_text asked key.now reply.now) ≤ n) }
{
    let CallReply::Hit {
        flags,
        unique,
        value,
    } = reply
    else {
        return Some(0);
    };
    // Both are read, so that the prover knows that they fit their types.
    let _flags = *flags;
    let _unique = *unique;
    let Some(sum) = key.bytes().len().checked_add(value.bytes().len()) else {
        return None;
    };
    match sum.checked_add(73) {
        Some(room) => Some(room),
        None => None,
    }
}
