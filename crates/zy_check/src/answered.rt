//! Which commands are answered.
ghost use Rattle.std.specs.Prelude.{◌≡◌, ◌<◌, length, Some};
ghost use Rattle.std.specs.List.{slice_get};
ghost use Rattle.zy_check.specs.Answered.{AreAnswered};
ghost use Rattle.zy_check.specs.Cause.{IsComplete};
ghost use Rattle.zy_check.specs.Missing.{AreEnded};

use crate::files::Files;
use crate::track::Track;
use crate::verdict::Cause;
use std::marker::Model;

/// For each connection, which of its commands are answered: those with a text that is not empty.
/// Contracts see it as the list of the connections' lists.
#[derive(Drop)]
pub struct Answered {
    tracks: Vec<Track>,
}

impl Model for Answered {
    ghost use Rattle.std.specs.Prelude.{Bool, List};
    ghost use Rattle.zy_check.specs.Track.{flags_of};

    ghost Value = { List (List Bool) };

    ghost view = { λ a. flags_of a.tracks.items };
}

impl Answered {
    // Makes it of connections that are at their ends.
    pub(crate) fn of_tracks(files: &Files, tracks: Vec<Track>) -> Answered
        requires complete { IsComplete files.now }
        requires ended { AreEnded files.now tracks.items }
        ensures value { AreAnswered files.now result }
    {
        Answered { tracks }
    }

    /// Returns which of the commands of a connection are answered, in their order.
    pub fn of(&self, conn: usize) -> &[bool]
        requires within { conn < length self.now }
        ensures value { slice_get self.now conn ≡ Some result.now }
    {
        self.tracks[conn].answered()
    }
}

/// A verdict and, for a run, which commands are answered.
#[derive(Drop)]
pub enum Checked {
    /// A journal and outputs are those of a run.
    Yes(Answered),
    /// They are not, and this is the first cause.
    No(Cause),
}
