//! What was read of a line.
ghost use Rattle.std.specs.Prelude.{◌≡◌, ◌≤◌, length, drop, IfOk};
ghost use Rattle.mc_parse.specs.Parsed.{line_key, nothing_parsed};

use crate::name::Name;
use zy_base::{Blob, NoMemory};

/// What `read_need` read of a line, so that it isn't read again. For a storage line this is what
/// the line says, with the place of the key; for any other line, the name with the place of the
/// text after it. A meta command has no name here.
#[derive(Clone, Copy)]
pub struct Parsed {
    // 0 if the line has none.
    pub(crate) unique: u64,
    pub(crate) flags: u32,
    // The place of the first byte of the key, and the place after its last byte; or the place of the text after
    // the name.
    pub(crate) from: u32,
    pub(crate) to: u32,
    // None if the line is read as a meta command.
    pub(crate) name: Option<Name>,
    pub(crate) quiet: bool,
}

impl Parsed {
    /// Begins with nothing read.
    pub fn nothing() -> Parsed
        ensures value { result ≡ nothing_parsed }
    {
        Parsed {
            unique: 0,
            flags: 0,
            from: 0,
            to: 0,
            name: None,
            quiet: false,
        }
    }

    // Returns the key of a storage line, which is a part of the line.
    pub(crate) fn key(&self, line: &Blob) -> Result<Blob, NoMemory>
        requires order { self.now.from ≤ self.now.to }
        requires within { self.now.to ≤ length line.now }
        ensures value { IfOk result (λ key. key ≡ line_key line.now self.now) }
    {
        line.part(self.from as usize, self.to as usize)
    }

    // Returns the text after the name, which ends the line.
    pub(crate) fn text<'a>(&self, line: &'a [u8]) -> &'a [u8]
        requires within { self.now.from ≤ length line.now }
        ensures value { result.now ≡ drop self.now.from line.now }
    {
        &line[self.from as usize..]
    }
}
