//! Lines.
ghost use Rattle.std.specs.Prelude.{◌≡◌, ◌<◌, ◌≤◌, ◌↔◌, true, length, take, codes, IfSome, IfNone};
ghost use Rattle.std.specs.List.{list_all};
ghost use Rattle.mc_answers.specs.Cut.{IsLine, is_no_feed};
ghost use Rattle.mc_answers.specs.Kinds.{IsLineWith, IsErrorLine, IsServerError};

use crate::text::{after_front, halve_at};

/// Returns the length of the first line, with the byte that ends it.
pub fn line_length(bytes: &[u8]) -> Option<usize>
    ensures within { IfSome result (λ n. (0 < n) × (n ≤ length bytes.now)) }
    ensures some { IfSome result (λ n. IsLine (take n bytes.now)) }
    ensures none { IfNone result (list_all is_no_feed bytes.now ≡ true) }
{
    match halve_at(bytes, b'\n') {
        Some(halved) => Some(halved.front.len() + 1),
        None => None,
    }
}

/// Checks whether a line begins with these bytes and ends in `\r\n`.
pub fn is_line_with(line: &[u8], front: &[u8]) -> bool
    requires line { IsLine line.now }
    ensures value { (result ≡ true) ↔ IsLineWith front.now line.now }
{
    match after_front(line, front) {
        Some(rest) => rest.ends_with(b"\r\n"),
        None => false,
    }
}

/// Checks whether a server names a fault of its own in a line.
pub(crate) fn is_server_error(line: &[u8]) -> bool
    requires line { IsLine line.now }
    ensures value { (result ≡ true) ↔ IsServerError line.now }
{
    is_line_with(line, b"SERVER_ERROR")
}

/// Checks whether a server names a fault in a line.
pub fn is_error_line(line: &[u8]) -> bool
    requires line { IsLine line.now }
    ensures value { (result ≡ true) ↔ IsErrorLine line.now }
{
    is_line_with(line, b"ERROR") || is_line_with(line, b"CLIENT_ERROR") || is_server_error(line)
}
