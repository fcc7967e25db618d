//! The changes of calls that are neither a `get` nor a `set`, with their entries.
ghost use Rattle.std.specs.Prelude.{◌≡◌, ◌+◌, ◌^◌, ◌<◌, ◌≤◌, Some, IfErr, OnOk, OnErr};
ghost use Rattle.mc_calls.specs.Shard.{state_with};
ghost use Rattle.mc_shard.specs.Contents.{with_item, without_item, without_items};
ghost use Rattle.mc_shard.specs.Step.{effect_in};
ghost use Rattle.mc_shard.specs.Index.{contents_in, IsIndex, HasEntry};

use crate::change::Change;
use crate::contents::{Contents, unique};
use crate::hashed::{Hashed, Sought};
use mc_calls::{Item, Tag};
use mc_history::{Exchange, Ledger, StoredItem};
use zy_base::NoMemory;

/// Appends the entry of a call with this key, and makes its change. If allocation fails, call and
/// reply are handed back.
pub(super) fn carry_out(
    contents: &mut Contents,
    ledger: &mut Ledger,
    number: u32,
    shards: u32,
    tag: Tag,
    stamp: u64,
    key: Option<Hashed>,
    change: Change,
    exchange: Exchange,
) -> Result<(), (Exchange, NoMemory)>
    requires within { number < shards }
    requires few { shards ≤ 256 }
    requires room { contents.old.count < 2 ^ 52 }
    requires index { IsIndex ledger.old.stored contents.old }
    ensures entries { OnOk result (HasEntry ledger.old tag stamp exchange ledger.new) }
    ensures ok { OnOk result (contents_in ledger.new.stored contents.new
        ≡ state_with shards number (contents_in ledger.old.stored contents.old) (effect_in key change)) }
    ensures err { OnErr result (ledger.new ≡ ledger.old) }
    ensures same { OnErr result (contents_in ledger.new.stored contents.new
        ≡ contents_in ledger.old.stored contents.old) }
    ensures index { IsIndex ledger.new.stored contents.new }
    ensures returned { IfErr result (λ e. e.0 ≡ exchange) }
{
    match change {
        Change::Put { flags, value } => {
            let unique = unique(number, shards, contents.count);
            let item = Item {
                flags,
                value,
                unique,
            };
            match key {
                Some(key) => put(contents, ledger, tag, stamp, key, item, exchange),
                None => {
                    drop(item);
                    keep(ledger, tag, stamp, exchange)
                }
            }
        }
        Change::Remove => match key {
            Some(key) => remove(contents, ledger, tag, stamp, key, exchange),
            None => keep(ledger, tag, stamp, exchange),
        },
        Change::Clear => {
            drop(key);
            clear(contents, ledger, tag, stamp, exchange)
        }
        Change::Nothing => {
            drop(key);
            keep(ledger, tag, stamp, exchange)
        }
    }
}

// Appends the entry of a call that stored nothing.
fn keep(
    ledger: &mut Ledger,
    tag: Tag,
    stamp: u64,
    exchange: Exchange,
) -> Result<(), (Exchange, NoMemory)>
    ensures entries { OnOk result (HasEntry ledger.old tag stamp exchange ledger.new) }
    ensures stored { ledger.new.stored ≡ ledger.old.stored }
    ensures err { OnErr result (ledger.new ≡ ledger.old) }
    ensures returned { IfErr result (λ e. e.0 ≡ exchange) }
{
    match ledger.push_other(tag, stamp, exchange, None) {
        Ok(_) => Ok(()),
        Err((exchange, stored, refused)) => {
            drop(stored);
            Err((exchange, refused))
        }
    }
}

// Appends the entry of a call that stored this item, whose place its key gets.
fn put(
    contents: &mut Contents,
    ledger: &mut Ledger,
    tag: Tag,
    stamp: u64,
    key: Hashed,
    item: Item,
    exchange: Exchange,
) -> Result<(), (Exchange, NoMemory)>
    requires room { contents.old.count < 2 ^ 52 }
    requires index { IsIndex ledger.old.stored contents.old }
    ensures entries { OnOk result (HasEntry ledger.old tag stamp exchange ledger.new) }
    ensures ok { OnOk result (contents_in ledger.new.stored contents.new
        ≡ with_item (contents_in ledger.old.stored contents.old) (Some key) item) }
    ensures err { OnErr result (ledger.new ≡ ledger.old) }
    ensures same { OnErr result (contents_in ledger.new.stored contents.new
        ≡ contents_in ledger.old.stored contents.old) }
    ensures index { IsIndex ledger.new.stored contents.new }
    ensures returned { IfErr result (λ e. e.0 ≡ exchange) }
{
    match key.sought().copied_key() {
        Ok(copy) => {
            let stored = StoredItem { key: copy, item };
            let put = put_stored(
                contents,
                ledger,
                tag,
                stamp,
                &key.sought(),
                stored,
                exchange,
            );
            drop(key);
            put
        }
        Err(refused) => {
            drop(key);
            drop(item);
            Err((exchange, refused))
        }
    }
}

// Does as `put`, with what is stored.
fn put_stored(
    contents: &mut Contents,
    ledger: &mut Ledger,
    tag: Tag,
    stamp: u64,
    key: &Sought<'_>,
    stored: StoredItem,
    exchange: Exchange,
) -> Result<(), (Exchange, NoMemory)>
    requires room { contents.old.count < 2 ^ 52 }
    requires index { IsIndex ledger.old.stored contents.old }
    requires key { stored.key ≡ key.now }
    ensures entries { OnOk result (HasEntry ledger.old tag stamp exchange ledger.new) }
    ensures ok { OnOk result (contents_in ledger.new.stored contents.new
        ≡ with_item (contents_in ledger.old.stored contents.old) (Some key.now) stored.item) }
    ensures err { OnErr result (ledger.new ≡ ledger.old) }
    ensures same { OnErr result (contents_in ledger.new.stored contents.new
        ≡ contents_in ledger.old.stored contents.old) }
    ensures index { IsIndex ledger.new.stored contents.new }
    ensures returned { IfErr result (λ e. e.0 ≡ exchange) }
{
    let Ok(place) = ledger.next_place() else {
        drop(stored);
        return Err((exchange, NoMemory));
    };
    let spot = match contents.ready(ledger, key) {
        Ok(spot) => spot,
        Err(refused) => {
            drop(stored);
            return Err((exchange, refused));
        }
    };
    match ledger.push_other(tag, stamp, exchange, Some(stored)) {
        Ok(_) => {
            contents.put(key, spot, place);
            Ok(())
        }
        Err((exchange, stored, refused)) => {
            drop(stored);
            Err((exchange, refused))
        }
    }
}

// Appends the entry of a call that removed the item of its key.
fn remove(
    contents: &mut Contents,
    ledger: &mut Ledger,
    tag: Tag,
    stamp: u64,
    key: Hashed,
    exchange: Exchange,
) -> Result<(), (Exchange, NoMemory)>
    requires index { IsIndex ledger.old.stored contents.old }
    ensures entries { OnOk result (HasEntry ledger.old tag stamp exchange ledger.new) }
    ensures ok { OnOk result (contents_in ledger.new.stored contents.new
        ≡ without_item (contents_in ledger.old.stored contents.old) (Some key)) }
    ensures err { OnErr result (ledger.new ≡ ledger.old) }
    ensures same { OnErr result (contents_in ledger.new.stored contents.new
        ≡ contents_in ledger.old.stored contents.old) }
    ensures index { IsIndex ledger.new.stored contents.new }
    ensures returned { IfErr result (λ e. e.0 ≡ exchange) }
{
    match keep(ledger, tag, stamp, exchange) {
        Ok(()) => {
            contents.remove(ledger, &key.sought());
            drop(key);
            Ok(())
        }
        Err(back) => {
            drop(key);
            Err(back)
        }
    }
}

// Appends the entry of a call that removed all items.
fn clear(
    contents: &mut Contents,
    ledger: &mut Ledger,
    tag: Tag,
    stamp: u64,
    exchange: Exchange,
) -> Result<(), (Exchange, NoMemory)>
    requires index { IsIndex ledger.old.stored contents.old }
    ensures entries { OnOk result (HasEntry ledger.old tag stamp exchange ledger.new) }
    ensures ok { OnOk result (contents_in ledger.new.stored contents.new
        ≡ without_items (contents_in ledger.old.stored contents.old)) }
    ensures err { OnErr result (ledger.new ≡ ledger.old) }
    ensures same { OnErr result (contents.new ≡ contents.old) }
    ensures index { IsIndex ledger.new.stored contents.new }
    ensures returned { IfErr result (λ e. e.0 ≡ exchange) }
{
    match keep(ledger, tag, stamp, exchange) {
        Ok(()) => {
            contents.clear();
            Ok(())
        }
        Err(back) => Err(back),
    }
}
