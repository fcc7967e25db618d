//! The text of an item.
ghost use Rattle.std.specs.Prelude.{◌≡◌, true};
ghost use Rattle.mc_calls.specs.declared.call_reply.CallReply.TheVariants.{Hit};
ghost use Rattle.mc_reply.specs.Text.{item_line, item_text, line};
ghost use Rattle.mc_answered.specs.Halved.{heading_seen};
ghost use Rattle.mc_answered.specs.With.{IsFound, IsHeadingOf};

use crate::heading::{Heading, read_heading};
use crate::line::line_length;
use crate::text::text_from;

/// An item with its key, and whether its unique is shown.
#[derive(Clone, Copy)]
pub(crate) struct Shown<'a> {
    pub(crate) key: &'a [u8],
    pub(crate) flags: u32,
    pub(crate) unique: u64,
    pub(crate) value: &'a [u8],
    pub(crate) asked: bool,
}

impl Shown<'_> {
    /// Returns the length of the item's text, if the bytes begin with it.
    pub(crate) fn length_in(&self, bytes: &[u8]) -> Option<usize>
        ensures value { IsFound (λ text. text ≡ item_text self.now.asked self.now.key.now
            (Hit self.now.flags self.now.unique self.now.value.now)) bytes.now result }
    {
        let Some(line) = self.line_in(bytes) else {
            return None;
        };
        match value_length(text_from(bytes, line), self.value) {
            Some(length) => Some(line + length),
            None => None,
        }
    }

    // Returns the length of the item's first line, if the bytes begin with it.
    fn line_in(&self, bytes: &[u8]) -> Option<usize>
        ensures value { IsFound (λ text. text ≡ item_line self.now.asked self.now.key.now self.now.flags
            self.now.unique self.now.value.now) bytes.now result }
    {
        let Some(length) = line_length(bytes) else {
            return None;
        };
        match read_heading(&bytes[..length], self.asked) {
            Some(heading) if self.is_headed(&heading) => Some(length),
            _ => None,
        }
    }

    // Checks whether the heading is that of the item.
    fn is_headed(&self, heading: &Heading<'_>) -> bool
        ensures value { result ≡ true → IsHeadingOf self.now.asked self.now.key.now self.now.flags self.now.unique
            self.now.value.now (heading_seen heading.entry.now) }
    {
        heading.key == self.key
            && heading.flags == self.flags
            && heading.count == self.value.len() as u64
            && (!self.asked || heading.unique == self.unique)
    }
}

/// Returns the length of a value and the end of its line, if the bytes begin with them.
pub(crate) fn value_length(bytes: &[u8], value: &[u8]) -> Option<usize>
    ensures value { IsFound (λ text. text ≡ line value.now) bytes.now result }
{
    match bytes.strip_prefix(value) {
        Some(rest) if rest.starts_with(b"\r\n") => Some(value.len() + 2),
        _ => None,
    }
}
