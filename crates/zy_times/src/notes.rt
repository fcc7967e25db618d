//! The times of a capture, as notes that are taken while it is read.
ghost use Rattle.zy_times.specs.Line.{TimesHold};

use crate::times::Times;
use std::alloc::Global;
use zy_base::NoMemory;
use zy_capture::Record;
use zy_input::Notes;

impl Notes for Times {
    ghost holds = { λ times count given. TimesHold times count given };

    fn begin(alloc: Global, count: u32) -> Result<Times, NoMemory> {
        Times::new(alloc, count)
    }

    fn add(&mut self, item: &Record) -> Result<(), NoMemory> {
        self.take(item)
    }
}
