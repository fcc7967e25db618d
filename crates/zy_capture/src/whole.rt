//! Records that bytes of a capture hold whole.
ghost use Rattle.std.specs.Prelude.{◌≡◌, ◌↔◌, ℕ, true, IfSome, IfNone};
ghost use Rattle.zy_capture.specs.Whole.{BeginsWithRecord, HoldsSegment};

use zy_read::are_bytes;

// The bytes of a close.
const CLOSE: usize = 5;

// What a segment begins with.
#[derive(Clone, Copy)]
pub(crate) struct Head {
    pub(crate) conn: u32,
    // The number of its bytes.
    pub(crate) size: u32,
}

/// Checks whether bytes begin with a whole record, whatever its connection and its length are.
pub fn begins_with_record(bytes: &[u8]) -> bool
    ensures value { (result ≡ true) ↔ BeginsWithRecord bytes.now }
{
    are_bytes(bytes);
    if let Some(_head) = held_segment(bytes) {
        return true;
    }
    if bytes.len() < CLOSE {
        return false;
    }
    if bytes[0] == b'C' {
        return true;
    }
    false
}

// Returns the head of the segment with which bytes begin, if they hold it whole.
pub(crate) fn held_segment(bytes: &[u8]) -> Option<Head>
    ensures some { IfSome result (λ head. HoldsSegment bytes.now head.conn head.size) }
    ensures none { IfNone result ((conn size : ℕ) → HoldsSegment bytes.now conn size → ⊥) }
{
    match bytes {
        [b'S', a, b, c, d, e, f, g, h, rest @ ..] => {
            let size = u32::from_be_bytes([*e, *f, *g, *h]);
            if size as usize > rest.len() {
                return None;
            }
            let conn = u32::from_be_bytes([*a, *b, *c, *d]);
            Some(Head { conn, size })
        }
        _ => None,
    }
}
