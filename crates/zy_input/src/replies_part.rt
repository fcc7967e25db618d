//! Reading the replies file.
ghost use Rattle.std.specs.Prelude.{◌≡◌, [], None, ⊤};
ghost use Rattle.zy_capture.specs.RepliesStanding.{StandsForReplies};
ghost use Rattle.zy_capture.specs.RepliesVerdict.{Verdict};
ghost use Rattle.zy_input.specs.declared.stop.Refusal.TheVariants.{Replies};
ghost use Rattle.zy_input.specs.Kinds.{replies_keeping, replies_kind};

use crate::keep::{Keep, keep_taken};
use crate::part::{Part, Taken};
use crate::stop::{Refusal, Stop};
use std::alloc::Global;
use zy_base::{FileFault, NoMemory};
use zy_capture::{Outputs, RepliesReader, SessionBytes};
use zy_read::{Pieces, are_bytes};

/// The reader of the replies file, and the outputs that it gave.
#[derive(Drop)]
pub(crate) struct RepliesPart {
    alloc: Global,
    reader: RepliesReader,
    outputs: Option<Outputs>,
}

impl RepliesPart {
    // Begins before the first byte.
    pub(crate) fn new(alloc: Global) -> RepliesPart
        ensures reader { StandsForReplies result.reader [] [] }
        ensures none { result.outputs ≡ None }
    {
        RepliesPart {
            alloc,
            reader: RepliesReader::new(alloc),
            outputs: None,
        }
    }
}

impl Part for RepliesPart {
    type Gives = Outputs;

    ghost Setting = { ⊤ };

    ghost kind = { λ u. replies_kind };

    // Takes all of the bytes, since the file ends with the source.
    fn take(&mut self, pieces: &mut Pieces) -> Taken {
        let next = pieces.left();
        are_bytes(next);
        let fed = self.reader.feed_piece(next);
        keep_taken(self.alloc, &self.reader, &mut self.outputs, false, fed)
    }

    fn end(self) -> Result<Outputs, Stop> {
        match (self.reader.end(), self.outputs) {
            (Ok(()), Some(outputs)) => Ok(outputs),
            // The version of a whole replies file was read.
            (Ok(()), None) => unreachable!(),
            (Err(fault), _) => Err(Stop::Refused(Refusal::Replies(fault))),
        }
    }
}

impl Keep for Outputs {
    type Reader = RepliesReader;

    type Item = SessionBytes;

    type Fault = FileFault;

    ghost Verdict = { Verdict };

    ghost keeping = { replies_keeping };

    ghost refused = { λ fault. Replies fault };

    fn refusal(fault: FileFault) -> Refusal {
        Refusal::Replies(fault)
    }

    fn number(reader: &RepliesReader) -> Option<u32> {
        reader.version()
    }

    fn make(alloc: Global, number: u32) -> Result<Outputs, NoMemory> {
        Ok(Outputs::new(alloc, number))
    }

    fn add(made: &mut Option<Outputs>, item: SessionBytes) -> Result<(), NoMemory> {
        match made {
            Some(outputs) => match outputs.add(item.conn, item.bytes) {
                Ok(()) => Ok(()),
                Err(refused) => {
                    drop(refused);
                    Err(NoMemory)
                }
            },
            None => unreachable!(),
        }
    }
}
