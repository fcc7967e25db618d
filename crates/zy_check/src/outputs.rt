//! The first output that is not the expected one.
ghost use Rattle.std.specs.Prelude.{◌<◌, length};
ghost use Rattle.mc_calls.specs.Order.{of_connection};
ghost use Rattle.mc_parse.specs.Calls.{dues_of};
ghost use Rattle.zy_check.specs.Cause.{IsComplete};
ghost use Rattle.zy_check.specs.Missing.{AreEnded};
ghost use Rattle.zy_check.specs.Output.{FoundDiffering, FoundOutput};
ghost use Rattle.zy_check.specs.Track.{HasMadeCalls, IsAtEnd};

use crate::compared::Differing;
use crate::files::Files;
use crate::track::Track;
use crate::verdict::Cause;

/// Returns the cause at the first session whose output is not the expected one, if there is one.
pub fn first_output(files: &Files, tracks: &[Track]) -> Option<Cause>
    requires complete { IsComplete files.now }
    requires ended { AreEnded files.now tracks.now }
    ensures found { FoundOutput files.now result }
{
    for conn in 0..files.count() {
        let differing = first_differing(files, &tracks[conn as usize], conn);
        if let Some(Differing { session, at }) = differing {
            return Some(Cause::WrongOutput { conn, session, at });
        }
    }
    let conn = files.count();
    if 0 < files.output_count(conn) {
        return Some(Cause::WrongOutput {
            conn,
            session: 0,
            at: 0,
        });
    }
    None
}

// Returns the first session of a connection whose output is not the expected one, if there is one.
fn first_differing(files: &Files, track: &Track, conn: u32) -> Option<Differing>
    requires within { conn < length files.now.streams }
    requires complete { IsComplete files.now }
    requires made { HasMadeCalls files.now conn track.now (dues_of (of_connection conn files.now.entries)) }
    requires end { IsAtEnd files.now conn track.now }
    ensures found { FoundDiffering files.now conn result }
{
    if let Some(differing) = track.differing() {
        return Some(differing);
    }
    let session = files.sessions(conn);
    if session < files.output_count(conn) {
        return Some(Differing { session, at: 0 });
    }
    None
}
