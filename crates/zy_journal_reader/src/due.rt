//! What is expected next in a journal.

/// A part of one byte.
#[derive(Clone, Copy)]
pub(crate) enum ByteField {
    /// A byte of the magic.
    Magic,
    /// The tag of a record, or the end.
    Tag,
    /// The code of a call.
    CallCode,
    /// The length of the call's key.
    KeyLength,
    /// The code of a reply.
    ReplyCode,
}

/// A number of four bytes.
#[derive(Clone, Copy)]
pub(crate) enum NumberField {
    /// The shard of an entry.
    Shard,
    /// The connection of an entry.
    Connection,
    /// The number of the call within its command.
    Part,
    /// The flags that a call stores.
    Flags,
    /// The length of the value that a call stores.
    ValueLength,
    /// The flags that a get found.
    FoundFlags,
    /// The length of the value that a get found.
    FoundLength,
    /// The connection of a hold.
    HoldConnection,
    /// The core of a hold.
    HoldCore,
    /// The count of a hold.
    HoldCount,
}

/// A number of eight bytes.
#[derive(Clone, Copy)]
pub(crate) enum LongField {
    /// The stamp of an entry.
    Stamp,
    /// The number of the command among its connection's.
    Index,
    /// The CAS value of a cas, or the amount of an incr or a decr.
    CallNumber,
    /// The CAS value that a get found.
    FoundUnique,
    /// The number in a reply.
    ReplyNumber,
    /// The five numbers of a tally, in this order.
    Gets,
    Sets,
    Hits,
    Misses,
    Items,
}

/// Bytes whose length was read before.
#[derive(Clone, Copy)]
pub(crate) enum BytesField {
    /// The key of a call.
    Key,
    /// The value that a call stores.
    Value,
    /// The value that a get found.
    FoundValue,
}

/// What is expected next.
#[derive(Clone, Copy)]
pub(crate) enum Due {
    /// A part of one byte.
    Byte(ByteField),
    /// A number of four bytes.
    Number(NumberField),
    /// A number of eight bytes.
    Long(LongField),
    /// Bytes whose length is known.
    Bytes(BytesField),
    /// Nothing: the end was read.
    Nothing,
}
