//! The inputs of the program: the parts of a check's input, a capture, a journal, and recorded
//! packets.
ghost use Rattle.std.specs.Prelude.{◌≤◌};
ghost use Rattle.zy_input.specs.Parts.{HasReadParts, HasReadNotedParts, HasReadStreams, HasReadJournal, HasReadPackets};

use crate::capture_part::CapturePart;
use crate::journal_part::{JournalPart, Until};
use crate::notes::{NoNotes, Noted, Notes};
use crate::packets_part::PacketsPart;
use crate::part::{read_alone, read_part};
use crate::replies_part::RepliesPart;
use crate::stop::Stop;
use std::alloc::Global;
use zy_base::{NoMemory, Source};
use zy_capture::{Outputs, Streams};
use zy_journal::Journal;
use zy_pcap::Flows;
use zy_read::Pieces;

/// What the input of a check gives.
#[derive(Drop)]
pub struct Parts {
    /// The streams of the capture.
    pub streams: Streams,
    /// The journal.
    pub journal: Journal,
    /// The outputs of the replies file.
    pub outputs: Outputs,
}

/// What the input of a check gives, with notes on the records of its capture.
#[derive(Drop)]
pub struct NotedParts<N: Notes> {
    /// The streams of the capture, and the notes.
    pub capture: Noted<N>,
    /// The journal.
    pub journal: Journal,
    /// The outputs of the replies file.
    pub outputs: Outputs,
}

/// Reads a capture, a journal and a replies file, one after the other, to the end of the source.
pub fn read_parts<S: Source>(alloc: Global, source: &mut S) -> Result<Parts, Stop>
    ensures parts { HasReadParts S.rest S.faults source.old source.new result }
    ensures count { S.faults source.old ≤ S.faults source.new }
{
    match read_noted_parts::<NoNotes, S>(alloc, source) {
        Ok(parts) => {
            let NotedParts {
                capture,
                journal,
                outputs,
            } = parts;
            Ok(Parts {
                streams: capture.into_streams(),
                journal,
                outputs,
            })
        }
        Err(stop) => Err(stop),
    }
}

/// Reads the same, and takes notes on the records of the capture.
pub fn read_noted_parts<N: Notes, S: Source>(
    alloc: Global,
    source: &mut S,
) -> Result<NotedParts<N>, Stop>
    ensures parts { HasReadNotedParts N.holds S.rest S.faults source.old source.new result }
    ensures count { S.faults source.old ≤ S.faults source.new }
{
    let mut pieces = match Pieces::new(alloc) {
        Ok(pieces) => pieces,
        Err(NoMemory) => return Err(Stop::NoMemory),
    };
    let capture = match read_part(CapturePart::<N>::new(alloc), &mut pieces, source) {
        Ok(capture) => capture,
        Err(stop) => return Err(stop),
    };
    let journal = match read_part(JournalPart::new(alloc, Until::OwnEnd), &mut pieces, source) {
        Ok(journal) => journal,
        Err(stop) => return Err(stop),
    };
    let outputs = match read_part(RepliesPart::new(alloc), &mut pieces, source) {
        Ok(outputs) => outputs,
        Err(stop) => return Err(stop),
    };
    Ok(NotedParts {
        capture,
        journal,
        outputs,
    })
}

/// Reads a capture, and returns its streams. The source may give up to 64 KiB after the capture,
/// which are dropped.
pub fn read_streams<S: Source>(alloc: Global, source: &mut S) -> Result<Streams, Stop>
    ensures streams { HasReadStreams S.rest S.faults source.old source.new result }
    ensures count { S.faults source.old ≤ S.faults source.new }
{
    match read_alone(alloc, CapturePart::<NoNotes>::new(alloc), source) {
        Ok(capture) => Ok(capture.into_streams()),
        Err(stop) => Err(stop),
    }
}

/// Reads a journal to the end of the source.
pub fn read_journal<S: Source>(alloc: Global, source: &mut S) -> Result<Journal, Stop>
    ensures journal { HasReadJournal S.rest S.faults source.old source.new result }
    ensures count { S.faults source.old ≤ S.faults source.new }
{
    read_alone(alloc, JournalPart::new(alloc, Until::SourceEnd), source)
}

/// Reads recorded packets to the end of the source, and returns the streams of those to a port.
pub fn read_packets<S: Source>(alloc: Global, port: u16, source: &mut S) -> Result<Flows, Stop>
    requires port { 1 ≤ port }
    ensures packets { HasReadPackets port S.rest S.faults source.old source.new result }
    ensures count { S.faults source.old ≤ S.faults source.new }
{
    read_alone(alloc, PacketsPart::new(alloc, port), source)
}
