//! What valid words ask for.

/// What the words ask for: a command with its options.
#[derive(Clone, Copy, PartialEq, Eq)]
pub enum Request {
    /// Serve a capture.
    Run { run: Run, out: Out },
    /// Check a journal and a replies file against a capture, on `shards` shards.
    Check { shards: u32 },
    /// Make a capture.
    Gen { traffic: Traffic },
    /// Make a capture of recorded packets to this port, 1 to 65,535.
    Pcap { port: u16 },
    /// Count the calls and the items of a journal.
    Report,
    /// Make a capture, serve it, and check the result.
    SelfTest { traffic: Traffic, run: Run },
}

/// How a capture is served.
#[derive(Clone, Copy, PartialEq, Eq)]
pub struct Run {
    /// The number of cores, 1 to 64.
    pub cores: u32,
    /// The number of threads, 1 to the number of cores.
    pub threads: u32,
    /// The number from which the order of turns is generated; without it, cores take turns by their
    /// numbers.
    pub order: Option<u32>,
    /// The number of shards, 1 to 256.
    pub shards: u32,
    /// The number of turns in a row without work after which a core rests, 0 to 1,000,000; with 0
    /// none rests.
    pub rest: u32,
}

/// Traffic made from a number.
#[derive(Clone, Copy, PartialEq, Eq)]
pub struct Traffic {
    /// The number from which it is made.
    pub number: u32,
    /// The number of connections, 1 to 4,096.
    pub conns: u32,
    /// The number of commands of each connection, 1 to 1,000,000.
    pub commands: u32,
}

/// What a run writes.
#[derive(Clone, Copy, PartialEq, Eq)]
pub enum Out {
    /// The replies.
    Replies,
    /// The journal, and then the replies.
    Both,
}
