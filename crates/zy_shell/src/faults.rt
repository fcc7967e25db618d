//! The lines of an input's faults, after the program's name.
ghost use Rattle.std.specs.Prelude.{◌≡◌};
ghost use Rattle.zy_base.specs.Outside.{Writes};
ghost use Rattle.zy_shell.specs.FaultLine.{refusal_line, fault_line, fault_text, fault_middle, journal_text};
ghost use Rattle.zy_shell.specs.FaultLine.{replies_text, items_text, file_line, pcap_number};

use crate::lines::{write_number, write_two};
use zy_base::{Failed, FileFault, Sink, write_whole};
use zy_capture::CaptureFault;
use zy_input::Refusal;
use zy_pcap::PcapFault;

/// Writes the line of a refusal.
pub(crate) fn write_refusal<E: Sink>(says: &mut E, refusal: Refusal) -> Result<(), Failed>
    ensures writes { Writes E.holds E.faults E.finishes says.old says.new result (refusal_line refusal) }
{
    match refusal {
        Refusal::Capture(fault) => write_capture_fault(says, fault),
        Refusal::Journal(fault) => write_file_fault(says, journal_text(fault), fault),
        Refusal::Replies(fault) => write_file_fault(says, replies_text(fault), fault),
        Refusal::Items(fault) => write_file_fault(says, items_text(fault), fault),
        Refusal::Pcap(fault) => write_number(says, b"pcap: fault ", pcap_number(fault)),
    }
}

// Writes the line of a fault of a capture.
fn write_capture_fault<E: Sink>(says: &mut E, fault: CaptureFault) -> Result<(), Failed>
    ensures writes { Writes E.holds E.faults E.finishes says.old says.new result (fault_line fault) }
{
    let text = fault_text(fault);
    let middle = fault_middle(fault);
    match fault {
        CaptureFault::BadMagic { at } => write_number(says, text, at),
        CaptureFault::ConnCount { number } => write_number(says, text, number as u64),
        CaptureFault::BadTag { at, byte } => write_two(says, text, at, middle, byte as u64),
        CaptureFault::ConnRange { at, number } => write_two(says, text, at, middle, number as u64),
        CaptureFault::SegmentLength { at, number } => {
            write_two(says, text, at, middle, number as u64)
        }
        CaptureFault::Truncated { at } => write_number(says, text, at),
        CaptureFault::Trailing { at } => write_number(says, text, at),
        CaptureFault::TooLong => write_whole(says, text),
    }
}

// Returns the beginning of the line of a fault of a capture.
fn fault_text(fault: CaptureFault) -> &'static [u8]
    ensures value { result.now ≡ fault_text fault }
{
    match fault {
        CaptureFault::BadMagic { .. } => b"capture: bad-magic at ",
        CaptureFault::ConnCount { .. } => b"capture: conn-count ",
        CaptureFault::BadTag { .. } => b"capture: bad-tag at ",
        CaptureFault::ConnRange { .. } => b"capture: conn-range at ",
        CaptureFault::SegmentLength { .. } => b"capture: segment-length at ",
        CaptureFault::Truncated { .. } => b"capture: truncated at ",
        CaptureFault::Trailing { .. } => b"capture: trailing at ",
        CaptureFault::TooLong => b"capture: too-long\n",
    }
}

// Returns the text between the two numbers of a line, if it has two.
fn fault_middle(fault: CaptureFault) -> &'static [u8]
    ensures value { result.now ≡ fault_middle fault }
{
    match fault {
        CaptureFault::BadTag { .. } => b" byte ",
        _ => b" number ",
    }
}

// Writes the line of a fault of a journal, a replies file or an items file, which begins with this
// text.
fn write_file_fault<E: Sink>(
    says: &mut E,
    text: &'static [u8],
    fault: FileFault,
) -> Result<(), Failed>
    ensures writes { Writes E.holds E.faults E.finishes says.old says.new result (file_line text.now fault) }
{
    match fault {
        FileFault::Form { at } | FileFault::Truncated { at } => write_number(says, text, at),
        FileFault::TooLong => write_whole(says, text),
    }
}

// Returns the beginning of the line of a fault of a journal.
fn journal_text(fault: FileFault) -> &'static [u8]
    ensures value { result.now ≡ journal_text fault }
{
    match fault {
        FileFault::Form { .. } => b"journal: form at ",
        FileFault::Truncated { .. } => b"journal: truncated at ",
        FileFault::TooLong => b"journal: too-long\n",
    }
}

// Returns the beginning of the line of a fault of a replies file.
fn replies_text(fault: FileFault) -> &'static [u8]
    ensures value { result.now ≡ replies_text fault }
{
    match fault {
        FileFault::Form { .. } => b"replies: form at ",
        FileFault::Truncated { .. } => b"replies: truncated at ",
        FileFault::TooLong => b"replies: too-long\n",
    }
}

// Returns the beginning of the line of a fault of an items file.
fn items_text(fault: FileFault) -> &'static [u8]
    ensures value { result.now ≡ items_text fault }
{
    match fault {
        FileFault::Form { .. } => b"items: form at ",
        FileFault::Truncated { .. } => b"items: truncated at ",
        FileFault::TooLong => b"items: too-long\n",
    }
}

// Returns the number of a fault of recorded packets.
fn pcap_number(fault: PcapFault) -> u64
    ensures value { result ≡ pcap_number fault }
{
    match fault {
        PcapFault::Magic { .. } => 9,
        PcapFault::Version { .. } => 10,
        PcapFault::LinkType { .. } => 11,
        PcapFault::RecordLength { .. } => 12,
        PcapFault::Ipv6 { .. } => 13,
        PcapFault::Vlan { .. } => 14,
        PcapFault::Fragment { .. } => 15,
        PcapFault::Short { .. } => 16,
        PcapFault::Missing { .. } => 17,
        PcapFault::FlowCount { .. } => 18,
        PcapFault::FlowLength { .. } => 19,
        PcapFault::PcapTruncated { .. } => 20,
        PcapFault::PcapTooLong => 21,
    }
}
