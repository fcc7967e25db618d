//! The input of the program `judge` for a window: a capture, an items file and a replies file.
ghost use Rattle.std.specs.Prelude.{◌≤◌};
ghost use Rattle.zy_input.specs.Window.{HasReadWindow};

use crate::capture_part::CapturePart;
use crate::items_part::ItemsPart;
use crate::notes::{Noted, Notes};
use crate::part::read_part;
use crate::replies_part::RepliesPart;
use crate::stop::Stop;
use std::alloc::Global;
use zy_base::{NoMemory, Source};
use zy_capture::Outputs;
use zy_items::Standing;
use zy_read::Pieces;

/// A window of a recording: the streams of its capture, with notes on the records, what its server
/// has when it begins, and its outputs.
#[derive(Drop)]
pub struct NotedWindow<N: Notes> {
    /// The streams of the capture, and the notes.
    pub capture: Noted<N>,
    /// What the items file says that the server has.
    pub standing: Standing,
    /// The outputs of the replies file.
    pub outputs: Outputs,
}

/// Reads a capture, an items file and a replies file, one after the other, to the end of the
/// source, and takes notes on the records of the capture.
pub fn read_window<N: Notes, S: Source>(
    alloc: Global,
    source: &mut S,
) -> Result<NotedWindow<N>, Stop>
    ensures window { HasReadWindow N.holds S.rest S.faults source.old source.new result }
    ensures count { S.faults source.old ≤ S.faults source.new }
{
    let mut pieces = match Pieces::new(alloc) {
        Ok(pieces) => pieces,
        Err(NoMemory) => return Err(Stop::NoMemory),
    };
    let capture = match read_part(CapturePart::<N>::new(alloc), &mut pieces, source) {
        Ok(capture) => capture,
        Err(stop) => return Err(stop),
    };
    let standing = match read_part(ItemsPart::new(alloc), &mut pieces, source) {
        Ok(standing) => standing,
        Err(stop) => return Err(stop),
    };
    let outputs = match read_part(RepliesPart::new(alloc), &mut pieces, source) {
        Ok(outputs) => outputs,
        Err(stop) => return Err(stop),
    };
    Ok(NotedWindow {
        capture,
        standing,
        outputs,
    })
}
