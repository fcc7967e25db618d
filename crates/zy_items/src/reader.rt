//! The reader of items files.
ghost use Rattle.std.specs.Prelude.{◌≡◌, ◌<◌, ◌≤◌, [], ◌∷◌, length, take, get_or, Err, Ok, None};
ghost use Rattle.zy_read.specs.Standing.{given_in, Feeds, FeedsAs, TellsFault, TellsLasting, AnswersBy};
ghost use Rattle.zy_read.specs.declared.not_taken.NotTaken.TheVariants.{NoMemory};
ghost use Rattle.zy_items.specs.Verdict.{items_files, items_verdict, is_good_items};
ghost use Rattle.zy_items.specs.Places.{StandsForItems, EndsItemsBy, MayWantItems};

use crate::standing::Standing;
use crate::state::ItemsState;
use std::alloc::Global;
use std::marker::Model;
use zy_base::FileFault;
use zy_read::{Fed, FieldReader, FileFeed, feed, feed_piece};

/// Reads an items file, byte by byte or in pieces, and keeps what it says.
#[derive(Drop)]
pub struct ItemsReader {
    reader: FieldReader<ItemsState>,
}

impl Model for ItemsReader {
    ghost use Rattle.zy_items.specs.Steps.{ItemsPlace};

    ghost Value = { ItemsPlace };

    ghost view = { λ r. r.reader };
}

impl ItemsReader {
    /// Makes a reader to which no byte was fed. Takes no memory.
    pub fn new(alloc: Global) -> ItemsReader
        ensures value { StandsForItems result [] [] }
    {
        ItemsReader {
            reader: FieldReader::new(alloc, ItemsState::new(alloc)),
        }
    }

    /// Takes the next byte. The answer is `Some` at the byte that ends the file.
    ///
    /// After a fault each call answers that same fault, and a byte after the end is a fault.
    /// `NoMemory` is possible at the bytes of keys and values, and at a value's length.
    pub fn feed(&mut self, byte: u8) -> Result<Option<()>, FileFeed>
        ensures fed { FeedsAs items_files self.old self.new (byte ∷ []) result }
        ensures exact { TellsFault items_files self.old (byte ∷ []) result }
        ensures lasts { TellsLasting items_files self.old (byte ∷ []) result }

        // If an allocation failed.
        ensures kept { result ≡ Err NoMemory → self.new ≡ self.old }
        ensures memory { result ≡ Err NoMemory → MayWantItems self.old byte }
    {
        feed(&mut self.reader, byte)
    }

    /// Takes bytes up to the end of the file or the first fault, or all of them if there is
    /// neither. The answer is the one that `feed` gives to the last byte taken; bytes after the end
    /// are not read.
    ///
    /// After `NoMemory` the bytes before the one that needs memory are taken; `feed` says when that
    /// is possible.
    pub fn feed_piece(&mut self, bytes: &[u8]) -> Fed<(), FileFault>
        requires some { 0 < length bytes.now }
        ensures within { result.taken ≤ length bytes.now }
        ensures none { result.answer ≡ Ok None → result.taken ≡ length bytes.now }
        ensures taken { (gave : _) → result.answer ≡ Ok gave → 0 < result.taken }
        ensures fed { Feeds items_files self.old self.new (take result.taken bytes.now)
            (given_in result.answer) }
        ensures exact { TellsFault items_files self.old (take result.taken bytes.now)
            result.answer }
        ensures lasts { TellsLasting items_files self.old (take result.taken bytes.now)
            result.answer }
        ensures memory { result.answer ≡ Err NoMemory
            → MayWantItems self.new (get_or bytes.now result.taken 0) }
    {
        feed_piece(&mut self.reader, bytes)
    }

    /// Checks whether the end was read and no fault was met.
    #[tactic(auto, using(zy_read::proofs::Feeding::verdict_here))]
    pub fn is_done(&self) -> bool
        ensures value { AnswersBy items_files self.now (λ b. is_good_items (items_verdict b))
            result }
    {
        self.reader.end().is_ok()
    }

    /// Returns what the file says that was fed, or its fault.
    #[tactic(auto, using(zy_read::proofs::Feeding::verdict_here))]
    pub fn end(self) -> Result<Standing, FileFault>
        ensures value { EndsItemsBy self result }
    {
        match self.reader.end() {
            Ok(()) => Ok(self.reader.into_state().into_standing()),
            Err(fault) => Err(fault),
        }
    }
}
