//! Sets: key and value are moved to where they stay.
ghost use Rattle.std.specs.Prelude.{◌≡◌, ◌+◌, ◌^◌, ◌<◌, ◌∷◌, [], ◌++◌, max, Some, IfOk, IfErr, OnOk, OnErr};
ghost use Rattle.mc_calls.specs.declared.call.Call.TheVariants.{Set};
ghost use Rattle.mc_calls.specs.declared.call_reply.CallReply.TheVariants.{Stored};
ghost use Rattle.mc_calls.specs.Key.{hash_of};
ghost use Rattle.mc_calls.specs.History.{IsHistory};
ghost use Rattle.mc_history.specs.Recorded.{with_set};
ghost use Rattle.mc_shard.specs.Contents.{with_item};
ghost use Rattle.mc_shard.specs.Shard.{state_of, last_of, entry_of, with_entry, state_past};
ghost use Rattle.mc_shard.specs.Index.{contents_in, IsIndex};

use super::Shard;
use crate::contents::{Contents, Noted, unique};
use crate::hashed::Sought;
use mc_calls::{Item, Tag, hash_of};
use mc_history::Ledger;
use zy_base::{Blob, NoMemory};

impl Shard {
    // Stores an item. Key and value are moved into the history; the answer is the stamp of the
    // entry. All memory is taken first: if allocation fails, the shard is as it was, and key and
    // value are handed back.
    pub(super) fn store(
        &mut self,
        tag: Tag,
        mut key: Blob,
        flags: u32,
        mut value: Blob,
        seen: u64,
    ) -> Result<u64, (Blob, Blob, NoMemory)>
        requires last { last_of self.old < 2 ^ 60 }
        requires seen { seen < 2 ^ 60 }
        requires count { (state_of self.old).count < 2 ^ 52 }
        ensures stamp { IfOk result (λ stamp. stamp ≡ max (last_of self.old) seen + 1) }
        ensures key { IfErr result (λ e. e.0 ≡ key) }
        ensures value { IfErr result (λ e. e.1 ≡ value) }
        ensures ok { IfOk result (λ stamp. self.new
            ≡ with_entry self.old (entry_of tag self.old.number (Set key flags value) Stored stamp)) }
        ensures state { OnOk result (state_of self.new ≡ state_past self.old (Set key flags value)) }
        ensures err { OnErr result (self.new ≡ self.old) }
        ensures sound { IsHistory self.new.shards self.new.number self.new.history }
    {
        let stamp = self.last.max(seen) + 1;
        if key.share().is_err() || value.share().is_err() {
            return Err((key, value, NoMemory));
        }
        let unique = unique(self.number, self.shards, self.contents.count);
        numbers_fit(tag, flags);
        let item = Item {
            flags,
            value,
            unique,
        };
        match put(&mut self.contents, &mut self.ledger, tag, stamp, key, item) {
            Ok(()) => {
                self.contents.note(Noted::Set);
                self.last = stamp;
                Ok(stamp)
            }
            Err((key, item, refused)) => Err((key, item.value, refused)),
        }
    }
}

// Appends the entry of a set that stored this item, whose place its key gets. If allocation fails,
// key and item are handed back.
#[inline(always)]
fn put(
    contents: &mut Contents,
    ledger: &mut Ledger,
    tag: Tag,
    stamp: u64,
    key: Blob,
    item: Item,
) -> Result<(), (Blob, Item, NoMemory)>
    requires index { IsIndex ledger.old.stored contents.old }
    requires room { contents.old.count < 2 ^ 52 }
    ensures ok { OnOk result (ledger.new ≡ with_set ledger.old tag stamp key item) }
    ensures put { OnOk result (contents_in ledger.new.stored contents.new
        ≡ with_item (contents_in ledger.old.stored contents.old) (Some key) item) }
    ensures err { OnErr result (ledger.new ≡ ledger.old) }
    ensures same { OnErr result (contents_in ledger.new.stored contents.new
        ≡ contents_in ledger.old.stored contents.old) }
    ensures index { IsIndex ledger.new.stored contents.new }
    ensures key { IfErr result (λ e. e.0 ≡ key) }
    ensures item { IfErr result (λ e. e.1 ≡ item) }
{
    let hash = hash_of(key.bytes());
    let Ok(place) = ledger.next_place() else {
        return Err((key, item, NoMemory));
    };
    let spot = match contents.ready(ledger, &Sought::with_hash(&key, hash)) {
        Ok(spot) => spot,
        Err(refused) => return Err((key, item, refused)),
    };
    match ledger.push_set(tag, stamp, key, item) {
        Ok(_) => {
            let key = &ledger.stored(place).key;
            contents.put(&Sought::with_hash(key, hash), spot, place);
            Ok(())
        }
        Err(back) => Err(back),
    }
}

// Does nothing. Shows that a part and flags fit their types.
#[inline(always)]
fn numbers_fit(tag: Tag, flags: u32)
    ensures part { tag.part < 2 ^ 32 }
    ensures flags { flags < 2 ^ 32 }
{
    let _part = tag.part;
    let _flags = flags;
}
