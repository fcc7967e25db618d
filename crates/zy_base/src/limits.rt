//! The limits of what is served and of what the files hold.

/// The most bytes of a key.
pub const KEY_LIMIT: u8 = 250;

/// The most bytes of a value.
pub const VALUE_LIMIT: u32 = 1_048_576;

/// The most bytes of a line: a longer one is not read.
pub const LINE_LIMIT: usize = 65_536;

/// The most connections.
pub const CONNECTION_LIMIT: u32 = 4_096;

/// The most shards.
pub const SHARD_LIMIT: u32 = 256;

/// The most cores.
pub const CORE_LIMIT: u32 = 64;

/// The most commands of one hold.
pub const HOLD_LIMIT: u32 = 64;

/// The most commands of one connection.
pub const COMMAND_LIMIT: u64 = 1_099_511_627_776;

/// Every stamp is below this.
pub const STAMP_LIMIT: u64 = 1_152_921_504_606_846_976;
