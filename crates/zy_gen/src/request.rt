//! What a generated command asks for.

/// What a command asks for, besides its key.
#[derive(Clone, Copy, PartialEq, Eq)]
pub enum Request {
    /// `get` of the key.
    Get,
    /// `get` of 50 keys, this one first.
    GetMany,
    /// `set` with these flags and a block of `size` bytes; quiet with `noreply`.
    Set { flags: u32, size: u32, quiet: bool },
    /// `set` of the value 10.
    SetTen,
    /// `incr` by 7.
    Incr,
    /// `append` of the digit 9.
    Append,
    /// `delete` of the key.
    Delete,
}

/// A command: the number of its key among those of its connection, and what it asks for.
#[derive(Clone, Copy)]
pub struct Command {
    pub item: u32,
    pub request: Request,
}
