//! Reading an items file.
ghost use Rattle.std.specs.Prelude.{◌≡◌, ℕ, List, [], ⊤};
ghost use Rattle.zy_items.specs.Places.{StandsForItems};
ghost use Rattle.zy_items.specs.Verdict.{items_verdict, is_good_items};
ghost use Rattle.zy_input.specs.Kinds.{items_kind, StandsForItemsPart};

use crate::part::{Part, Taken};
use crate::stop::{Refusal, Stop};
use std::alloc::Global;
use zy_items::{ItemsReader, Standing};
use zy_read::{Fed, FileFeed, Pieces};

/// The reader of an items file.
#[derive(Drop)]
pub(crate) struct ItemsPart {
    reader: ItemsReader,
}

impl ItemsPart {
    // Begins before the first byte.
    pub(crate) fn new(alloc: Global) -> ItemsPart
        ensures value { StandsForItems result.reader [] [] }
    {
        ItemsPart {
            reader: ItemsReader::new(alloc),
        }
    }

    // Checks whether the file is whole, whatever follows.
    fn is_whole(&self) -> bool
        ensures value { (bytes : List ℕ) → StandsForItemsPart self.now bytes
            → result ≡ is_good_items (items_verdict bytes) }
    {
        self.reader.is_done()
    }
}

impl Part for ItemsPart {
    type Gives = Standing;

    ghost Setting = { ⊤ };

    ghost kind = { λ u. items_kind };

    fn take(&mut self, pieces: &mut Pieces) -> Taken {
        let Fed { taken, answer } = self.reader.feed_piece(pieces.left());
        let answer = match answer {
            Ok(_) => Ok(self.is_whole()),
            Err(FileFeed::Fault(fault)) => Err(Stop::Refused(Refusal::Items(fault))),
            Err(FileFeed::NoMemory) => Err(Stop::NoMemory),
        };
        Taken {
            count: taken,
            answer,
        }
    }

    fn end(self) -> Result<Standing, Stop> {
        match self.reader.end() {
            Ok(standing) => Ok(standing),
            Err(fault) => Err(Stop::Refused(Refusal::Items(fault))),
        }
    }
}
