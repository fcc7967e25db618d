//! The input of the program `judge`: a capture and a replies file.
ghost use Rattle.std.specs.Prelude.{◌≤◌};
ghost use Rattle.zy_input.specs.Recording.{HasReadRecording};

use crate::capture_part::CapturePart;
use crate::notes::{Noted, Notes};
use crate::part::read_part;
use crate::replies_part::RepliesPart;
use crate::stop::Stop;
use std::alloc::Global;
use zy_base::{NoMemory, Source};
use zy_capture::Outputs;
use zy_read::Pieces;

/// A recording: the streams of its capture, with notes on the records, and its outputs.
#[derive(Drop)]
pub struct NotedRecording<N: Notes> {
    /// The streams of the capture, and the notes.
    pub capture: Noted<N>,
    /// The outputs of the replies file.
    pub outputs: Outputs,
}

/// Reads a capture and a replies file, one after the other, to the end of the source, and takes
/// notes on the records of the capture.
pub fn read_recording<N: Notes, S: Source>(
    alloc: Global,
    source: &mut S,
) -> Result<NotedRecording<N>, Stop>
    ensures recording { HasReadRecording N.holds S.rest S.faults source.old source.new result }
    ensures count { S.faults source.old ≤ S.faults source.new }
{
    let mut pieces = match Pieces::new(alloc) {
        Ok(pieces) => pieces,
        Err(NoMemory) => return Err(Stop::NoMemory),
    };
    let capture = match read_part(CapturePart::<N>::new(alloc), &mut pieces, source) {
        Ok(capture) => capture,
        Err(stop) => return Err(stop),
    };
    let outputs = match read_part(RepliesPart::new(alloc), &mut pieces, source) {
        Ok(outputs) => outputs,
        Err(stop) => return Err(stop),
    };
    Ok(NotedRecording { capture, outputs })
}
