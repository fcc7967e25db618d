//! Calls that are neither a `get` nor a `set`: call and reply are kept whole.
ghost use Rattle.std.specs.Prelude.{◌≡◌, ◌+◌, ◌^◌, ◌<◌, length, max, IfOk, IfErr, IfSome, OnOk, OnErr, option_copied};
ghost use Rattle.mc_calls.specs.Call.{key_of};
ghost use Rattle.mc_calls.specs.History.{IsHistory};
ghost use Rattle.mc_shard.specs.Shard.{state_of, last_of, TallyCounts, entry_of, reply_of, with_entry, state_past};
ghost use Rattle.mc_shard.specs.Places.{all_keys, AreLines};
ghost use Rattle.mc_shard.specs.Index.{place_at, found_at};

use super::Shard;
use super::changing::carry_out;
use crate::change::Step;
use crate::contents::{Contents, note_of};
use crate::hashed::{Hashed, Sought};
use crate::made::Made;
use crate::step::step_of;
use mc_calls::{Call, Item, Tag, numbers_fit};
use mc_history::{Exchange, Ledger};
use zy_base::NoMemory;

impl Shard {
    // Makes any call as `make` does. Call and reply are moved into the history.
    pub(super) fn make_other(
        &mut self,
        tag: Tag,
        mut call: Call,
        seen: u64,
    ) -> Result<Made, (Call, NoMemory)>
        requires last { last_of self.old < 2 ^ 60 }
        requires seen { seen < 2 ^ 60 }
        requires count { (state_of self.old).count < 2 ^ 52 }
        ensures reply { IfOk result (λ made. made.reply ≡ reply_of self.old call) }
        ensures counts { IfOk result (λ made. TallyCounts call made.reply self.old.history) }
        ensures stamp { IfOk result (λ made. made.stamp ≡ max (last_of self.old) seen + 1) }
        ensures returned { IfErr result (λ e. e.0 ≡ call) }
        ensures ok { IfOk result (λ made. self.new
            ≡ with_entry self.old (entry_of tag self.old.number call made.reply made.stamp)) }
        ensures state { OnOk result (state_of self.new ≡ state_past self.old call) }
        ensures err { OnErr result (self.new ≡ self.old) }
        ensures sound { IsHistory self.new.shards self.new.number self.new.history }
    {
        let _ = &self.number;
        let key = match shared(&mut call) {
            Ok(key) => key,
            Err(refused) => return Err((call, refused)),
        };
        self.make_shared(tag, call, key, seen)
    }

    // Makes a call whose bytes are shared, so that no copy here allocates.
    fn make_shared(
        &mut self,
        tag: Tag,
        call: Call,
        key: Option<Hashed>,
        seen: u64,
    ) -> Result<Made, (Call, NoMemory)>
        requires last { last_of self.old < 2 ^ 60 }
        requires seen { seen < 2 ^ 60 }
        requires count { (state_of self.old).count < 2 ^ 52 }
        requires key { key ≡ key_of call }
        ensures reply { IfOk result (λ made. made.reply ≡ reply_of self.old call) }
        ensures counts { IfOk result (λ made. TallyCounts call made.reply self.old.history) }
        ensures stamp { IfOk result (λ made. made.stamp ≡ max (last_of self.old) seen + 1) }
        ensures returned { IfErr result (λ e. e.0 ≡ call) }
        ensures ok { IfOk result (λ made. self.new
            ≡ with_entry self.old (entry_of tag self.old.number call made.reply made.stamp)) }
        ensures err { OnErr result (self.new ≡ self.old) }
        ensures sound { IsHistory self.new.shards self.new.number self.new.history }
    {
        let stamp = self.last.max(seen) + 1;
        let place = place_at(&self.contents, &self.ledger, &key);
        let found = item_at(&self.ledger, place);
        let Step { reply, change } = match step_of(
            self.alloc,
            &call,
            self.contents.tallied(),
            found,
        ) {
            Ok(step) => step,
            Err(refused) => {
                drop(key);
                return Err((call, refused));
            }
        };
        numbers_fit(tag, &call, &reply);
        let copy = match reply.copy() {
            Ok(copy) => copy,
            Err(refused) => {
                drop(reply);
                drop(key);
                drop(change);
                return Err((call, refused));
            }
        };
        let noted = note_of(&call, &reply);
        let exchange = Exchange { call, reply };
        match carry_out(
            &mut self.contents,
            &mut self.ledger,
            self.number,
            self.shards,
            tag,
            stamp,
            key,
            change,
            exchange,
        ) {
            Ok(()) => {
                self.contents.note(noted);
                self.last = stamp;
                Ok(Made { reply: copy, stamp })
            }
            Err((Exchange { call, reply }, refused)) => {
                drop(reply);
                drop(copy);
                Err((call, refused))
            }
        }
    }
}

// Lets the copies of a call share its bytes, and copies its key; a flush and a tally have none.
fn shared(call: &mut Call) -> Result<Option<Hashed>, NoMemory>
    ensures call { call.new ≡ call.old }
    ensures key { IfOk result (λ key. key ≡ key_of call.old) }
{
    call.share()?;
    match Sought::of_call(call) {
        Some(key) => Ok(Some(key.copy()?)),
        None => Ok(None),
    }
}

// Returns the place of the item of a call's key, if the call has a key.
fn place_at(contents: &Contents, ledger: &Ledger, key: &Option<Hashed>) -> Option<u32>
    requires lines { AreLines ledger.now.stored contents.now.places.lines }
    ensures value { result ≡ place_at (all_keys ledger.now.stored contents.now.places) key.now }
{
    match key {
        Some(key) => contents.place_of(ledger, &key.sought()),
        None => None,
    }
}

// Returns the item at a place, if there is one.
fn item_at(ledger: &Ledger, place: Option<u32>) -> Option<&Item>
    requires within { IfSome place (λ place. place < length ledger.now.stored) }
    ensures value { option_copied result ≡ found_at ledger.now.stored place }
{
    match place {
        Some(place) => Some(&ledger.stored(place).item),
        None => None,
    }
}
