//! What was read of an items file, and what its fields do.
ghost use Rattle.std.specs.Prelude.{◌≡◌, ◌-◌, ◌+◌, ◌∷◌, [], ℕ, length};
ghost use Rattle.zy_items.specs.Standing.{standing_of};
ghost use Rattle.zy_items.specs.Steps.{items_fields, items_shape, items_start, standing_in};
ghost use Rattle.zy_items.specs.Verdict.{ItemsVerdict, good_items};
ghost use Rattle.zy_items.specs.Verdict.ItemsVerdict.{Bad};
ghost use Rattle.zy_items.specs.Places.{FitsItems, WantsItems};
ghost use Rattle.zy_items.specs.Laws.{items_widths, items_run, items_lawful, items_few, items_begin};

mod records;

use crate::due::ItemsDue;
use crate::standing::{KeptItem, Standing};
use records::is_key_size;
use std::alloc::Global;
use std::collections::BTreeSet;
use std::marker::Model;
use zy_base::{Blob, FileFault};
use zy_read::{FieldFormat, FileFeed, NotTaken, Shape};

const ITEMS_LIMIT: u64 = 9_223_372_036_854_775_807;

const MAGIC: &[u8; 8] = b"ZYGITM1\n";

/// What was read of an items file up to some field.
#[derive(Drop)]
pub(crate) struct ItemsState {
    due: ItemsDue,
    bound: u64,
    /// The key of the item that is being read.
    key: Blob,
    items: Vec<KeptItem>,
    lasting: BTreeSet<Blob>,
}

impl Model for ItemsState {
    ghost use Rattle.zy_items.specs.Steps.{ItemsRead};

    ghost Value = { ItemsRead };

    ghost view = { λ s. record {
      due = s.due;
      bound = s.bound;
      key = s.key;
      items = s.items.items;
      lasting = s.lasting.keys;
    } };
}

impl ItemsState {
    // Makes the state before the first byte.
    pub(crate) fn new(alloc: Global) -> ItemsState
        ensures value { result ≡ items_start }
    {
        ItemsState {
            due: ItemsDue::Magic,
            bound: 0,
            key: Blob::new(alloc),
            items: Vec::new(alloc),
            lasting: BTreeSet::new(alloc),
        }
    }

    // Returns what was read.
    pub(crate) fn into_standing(self) -> Standing
        ensures value { standing_of result ≡ standing_in self }
    {
        Standing {
            items: self.items,
            lasting: self.lasting,
            bound: self.bound,
        }
    }
}

impl FieldFormat for ItemsState {
    type Gives = ();

    type Fault = FileFault;

    ghost Verdict = { ItemsVerdict };

    ghost fields = { items_fields };

    ghost good = { good_items };

    ghost bad = { Bad };

    ghost shape_of = { λ s. items_shape s.due };

    ghost Fits = { FitsItems };

    ghost Wants = { WantsItems };

    fn shape(&self) -> Shape {
        match self.due {
            ItemsDue::Magic | ItemsDue::Tag | ItemsDue::Nothing => Shape::Byte,
            ItemsDue::Flags => Shape::Four,
            ItemsDue::Key { others }
            | ItemsDue::Value { others, .. }
            | ItemsDue::Lasting { others } => Shape::Run(others),
            _ => Shape::Eight,
        }
    }

    fn is_end(&self) -> bool {
        matches!(self.due, ItemsDue::Nothing)
    }

    // Checks whether the next field gives no record: only a tag may be the end.
    #[tactic(auto, using(crate::proofs::StateLemmas::quiet))]
    fn is_quiet(&self) -> bool {
        !matches!(self.due, ItemsDue::Tag)
    }

    fn limit(&self) -> u64 {
        ITEMS_LIMIT
    }

    fn too_long(&self) -> FileFault {
        FileFault::TooLong
    }

    fn truncated(&self, at: u64) -> FileFault {
        FileFault::Truncated { at }
    }

    // Judges a byte of the magic, the tag of a record, or the end. No item comes after a lasting
    // key.
    fn judge_byte(&mut self, alloc: Global, at: u64, byte: u8) -> Result<Option<()>, FileFeed> {
        self.due = match (self.due, byte) {
            (ItemsDue::Magic, _) if byte == MAGIC[at as usize] => {
                if at == 7 {
                    ItemsDue::Bound
                } else {
                    ItemsDue::Magic
                }
            }
            (ItemsDue::Tag, b'I') if self.lasting.is_empty() => ItemsDue::KeySize,
            (ItemsDue::Tag, b'L') => ItemsDue::LastingSize,
            (ItemsDue::Tag, b'E') => {
                self.due = ItemsDue::Nothing;
                return Ok(Some(()));
            }
            _ => return Err(NotTaken::Fault(FileFault::Form { at })),
        };
        Ok(None)
    }

    // Judges the flags of an item.
    fn judge_four(
        &mut self,
        alloc: Global,
        at: u64,
        bytes: [u8; 4],
    ) -> Result<Option<()>, FileFeed> {
        let flags = u32::from_be_bytes(bytes);
        match self.due {
            ItemsDue::Flags => {
                self.due = ItemsDue::Unique { flags };
                Ok(None)
            }
            _ => unreachable!(),
        }
    }

    // Judges the bound, a unique, or a length.
    #[tactic(auto, using(crate::proofs::StateLemmas::placed))]
    fn judge_eight(
        &mut self,
        alloc: Global,
        at: u64,
        bytes: [u8; 8],
    ) -> Result<Option<()>, FileFeed> {
        let number = u64::from_be_bytes(bytes);
        self.due = match self.due {
            ItemsDue::Bound => {
                self.bound = number;
                ItemsDue::Tag
            }
            ItemsDue::KeySize if is_key_size(number) => ItemsDue::Key { others: number - 1 },
            ItemsDue::LastingSize if is_key_size(number) => {
                ItemsDue::Lasting { others: number - 1 }
            }
            ItemsDue::Unique { flags } if number <= self.bound => ItemsDue::ValueSize {
                flags,
                unique: number,
            },
            ItemsDue::ValueSize { flags, unique } => {
                if number == 0 {
                    return self.end_item(alloc, flags, unique, Blob::new(alloc));
                }
                ItemsDue::Value {
                    flags,
                    unique,
                    others: number - 1,
                }
            }
            _ => return Err(NotTaken::Fault(FileFault::Form { at })),
        };
        Ok(None)
    }

    // Judges a key or a value. Copies it, so that it takes no more memory than it needs, and none
    // if it is short.
    #[tactic(auto, using(crate::proofs::StateLemmas::placed, crate::proofs::StateLemmas::run_due))]
    fn judge_run(
        &mut self,
        alloc: Global,
        at: u64,
        bytes: &mut Vec<u8>,
    ) -> Result<Option<()>, FileFeed> {
        let all = match Blob::copy_of(alloc, bytes.as_slice()) {
            Ok(all) => all,
            Err(_) => return Err(NotTaken::NoMemory),
        };
        match self.due {
            ItemsDue::Key { .. } => self.take_key(at, all),
            ItemsDue::Value { flags, unique, .. } => self.end_item(alloc, flags, unique, all),
            ItemsDue::Lasting { .. } => self.take_lasting(at, all),
            _ => unreachable!(),
        }
    }

    // Takes none.
    #[tactic(auto, using(zy_read::proofs::OverLemmas::over_none))]
    fn judge_front(&mut self, alloc: Global, at: u64, bytes: &[u8]) -> usize {
        0
    }

    ghost widths = { items_widths };

    ghost runs = { items_run };

    ghost lawful = { items_lawful };

    ghost few = { items_few };

    ghost begins = { items_begin };
}
