//! The first call that has no entry.
ghost use Rattle.std.specs.Prelude.{length, IfOk};
ghost use Rattle.zy_check.specs.Given.{AreRight};
ghost use Rattle.zy_check.specs.Missing.{FoundMissing};
ghost use Rattle.zy_check.specs.Walk.{AreTracked};

use crate::files::Files;
use crate::track::Track;
use crate::verdict::Cause;
use zy_base::NoMemory;

/// Returns the cause at the first connection with a call that has no entry, if there is one. If
/// there is none, each connection is at its end.
pub fn first_missing(files: &Files, tracks: &mut [Track]) -> Result<Option<Cause>, NoMemory>
    requires right { AreRight files.now }
    requires tracked { AreTracked files.now (length files.now.entries) tracks.old }
    ensures found { IfOk result (FoundMissing files.now tracks.new) }
{
    for conn in 0..files.count() {
        let track = &mut tracks[conn as usize];
        if track.go_on(files, conn)? {
            let index = track.commands();
            return Ok(Some(Cause::Missing { conn, index }));
        }
    }
    Ok(None)
}
