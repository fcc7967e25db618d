//! The sessions of a capture, as notes that are taken while it is read.
ghost use Rattle.zy_sessions.specs.Sessions.{SessionsHold};

use crate::sessions::Sessions;
use std::alloc::Global;
use zy_base::NoMemory;
use zy_capture::Record;
use zy_input::Notes;

impl Notes for Sessions {
    ghost holds = { λ sessions count given. SessionsHold sessions count given };

    fn begin(alloc: Global, count: u32) -> Result<Sessions, NoMemory> {
        Sessions::new(alloc, count)
    }

    fn add(&mut self, item: &Record) -> Result<(), NoMemory> {
        self.take(item)
    }
}
