//! Why an input is read no further.

use zy_base::FileFault;
use zy_capture::CaptureFault;
use zy_pcap::PcapFault;

/// Why an input is rejected: its first fault, by the part that has it. Places count from the start
/// of that part.
#[derive(Clone, Copy, PartialEq, Eq)]
pub enum Refusal {
    /// The capture has this fault. It is not `Trailing`: what follows the capture is the journal.
    Capture(CaptureFault),
    /// The journal has this fault.
    Journal(FileFault),
    /// The replies file has this fault.
    Replies(FileFault),
    /// The items file of a window has this fault; no part of a check's input has it.
    Items(FileFault),
    /// Recorded packets have this fault; no part of a check's input has it.
    Pcap(PcapFault),
}

/// Why an input is read no further.
pub type Stop = zy_read::Stop<Refusal>;
