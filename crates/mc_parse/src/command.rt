//! Commands.
ghost use Rattle.std.specs.Prelude.{◌≡◌};
ghost use Rattle.mc_parse.specs.Deed.{says_of, is_unsaid};

use crate::error_line::ErrorLine;
use crate::meta::Meta;
use crate::verb::Verb;
use zy_base::{Blob, Items};

/// A list of keys.
pub type Keys = Items<Blob>;

/// What a request asks for. A quiet command is not answered.
#[derive(Drop)]
pub enum Command {
    /// Stores the value, as the verb says.
    Store {
        verb: Verb,
        key: Blob,
        flags: u32,
        value: Blob,
        quiet: bool,
    },
    /// Stores the value if the item has this unique.
    Cas {
        key: Blob,
        flags: u32,
        unique: u64,
        value: Blob,
        quiet: bool,
    },
    /// Gets the items of the keys, with their uniques if these are asked for.
    Get {
        keys: Keys,
        unique: bool,
    },
    /// Removes the item of the key.
    Delete {
        key: Blob,
        quiet: bool,
    },
    /// Counts a value up or down by the amount.
    Count {
        key: Blob,
        up: bool,
        amount: u64,
        quiet: bool,
    },
    /// Reports the text of the version.
    Version,
    /// Reports what all shards count.
    Stats,
    /// Does nothing, but is answered.
    Verbosity {
        quiet: bool,
    },
    /// Removes all items.
    Flush {
        quiet: bool,
    },
    /// A fault of the client, answered with this error line.
    Fault {
        line: ErrorLine,
        quiet: bool,
    },
    /// A meta command.
    Meta {
        meta: Meta,
    },
}

impl Command {
    /// Checks whether the command asks for no answer.
    pub fn is_quiet(&self) -> bool
        ensures value { result ≡ is_unsaid (says_of self.now) }
    {
        match self {
            Command::Store { quiet, .. } | Command::Cas { quiet, .. } => *quiet,
            Command::Delete { quiet, .. } | Command::Count { quiet, .. } => *quiet,
            Command::Verbosity { quiet } | Command::Flush { quiet } => *quiet,
            Command::Fault { quiet, .. } => *quiet,
            Command::Get { .. } | Command::Version | Command::Stats | Command::Meta { .. } => false,
        }
    }
}
