//! What is expected next in recorded packets.
ghost use Rattle.std.specs.Prelude.{◌≡◌};
ghost use Rattle.zy_pcap.specs.Steps.{due_width};

/// The field that is expected next.
#[derive(Clone, Copy)]
pub(crate) enum Due {
    /// The magic.
    Magic,
    /// The two numbers of the version.
    Version,
    /// The time zone and the accuracy of times, which are skipped.
    Settings,
    /// The most bytes of a frame that were captured, which is skipped.
    MostCaptured,
    /// The link type.
    LinkType,
    /// The first byte of a record's time; no record was begun.
    Begin,
    /// The other bytes of a record's time.
    Time,
    /// The captured length of a record.
    Captured,
    /// The original length of a record of this captured length.
    Original { size: u32 },
    /// The bytes of a frame: one and this number of others.
    Frame { others: u32 },
}

impl Due {
    // Returns how many bytes the field has.
    pub(crate) fn width(self) -> usize
        ensures value { result ≡ due_width self }
    {
        match self {
            Due::Settings => 8,
            Due::Begin => 1,
            Due::Time => 7,
            Due::Frame { others } => others as usize + 1,
            _ => 4,
        }
    }
}
