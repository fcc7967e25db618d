//! One try of a get, step by step: its key is lent, and its reply is appended.
ghost use Rattle.std.specs.Prelude.{◌≡◌, ◌<◌, ◌≤◌, ◌^◌, length, IfOk, OnErr};
ghost use Rattle.mc_calls.specs.Key.{hash_of};
ghost use Rattle.mc_calls.specs.Order.{last_stamp};
ghost use Rattle.mc_store.specs.Steps.{mine_at, trace_at, IsIdle, HasTaken, HasMadeGet, HasGivenUp};
ghost use Rattle.mc_store.specs.Call.{IfFetched, IfUnfetched, HasFetched, WasFree, WasBusy};

use crate::fetched::Fetched;
use crate::store::StoreTable;
use crate::store::plays::PutsBack;
use crate::store::taking::Taking;
use crate::store::view::View;
use atomic_table::Seat;
use mc_calls::{CallReply, Tag};
use mc_shard::Shard;
use zy_base::{Blob, NoMemory};

impl StoreTable {
    // Takes the shard, if it is free, and makes the get.
    pub(crate) fn try_fetch(
        &self,
        seat: &mut Seat<Shard, View>,
        tag: Tag,
        shard: u32,
        key: &Blob,
        hash: u32,
        seen: u64,
        replies: &mut Vec<CallReply>,
    ) -> Result<Fetched, NoMemory>
        requires table { seat.old.table_id ≡ self.now.id }
        requires within { shard < self.now.shards }
        requires idle { IsIdle tag.conn seat.old.me }
        requires seen { seen ≡ last_stamp 0 (mine_at seat.old.me) }
        requires few { length (mine_at seat.old.me) < 2 ^ 40 }
        requires hash { hash ≡ hash_of key.now }

        // The answer.
        ensures ok { IfFetched result (HasFetched tag shard key.now replies.old.items replies.new.items
            (mine_at seat.old.me) (mine_at seat.new.me)) }
        ensures stamp { IfFetched result (λ stamp. last_stamp 0 (mine_at seat.old.me) < stamp) }
        ensures free { IfFetched result (λ stamp. WasFree shard (trace_at seat.old.me) (trace_at seat.new.me)) }
        ensures busy { IfUnfetched result (WasBusy shard (trace_at seat.old.me) (trace_at seat.new.me)) }

        // What stays.
        ensures kept { IfUnfetched result (λ asked loaded found. mine_at seat.new.me ≡ mine_at seat.old.me) }
        ensures err { OnErr result (mine_at seat.new.me ≡ mine_at seat.old.me) }
        ensures same { IfUnfetched result (λ asked loaded found. replies.new.items ≡ replies.old.items) }
        ensures refused { OnErr result (replies.new.items ≡ replies.old.items) }
        ensures idle { IsIdle tag.conn seat.new.me }
        ensures table { seat.new.table_id ≡ seat.old.table_id }
        ensures seat { seat.new.id ≡ seat.old.id }
        ensures steps { (trace_at seat.old.me).steps ≤ (trace_at seat.new.me).steps }
    {
        match self.take(seat, tag.conn, shard) {
            Taking::Free { even } => {
                match self.fetch_on(seat, tag, shard, even, key, hash, seen, replies) {
                    Ok(stamp) => Ok(Fetched::Made { stamp }),
                    Err(refused) => Err(refused),
                }
            }
            Taking::Held { loaded, found } => Ok(Fetched::Busy {
                shard,
                loaded,
                found,
            }),
        }
    }

    // Makes the get on the shard that the seat has taken, in its slot, and gives the shard back.
    fn fetch_on(
        &self,
        seat: &mut Seat<Shard, View>,
        tag: Tag,
        shard: u32,
        even: u64,
        key: &Blob,
        hash: u32,
        seen: u64,
        replies: &mut Vec<CallReply>,
    ) -> Result<u64, NoMemory>
        requires table { seat.old.table_id ≡ self.now.id }
        requires within { shard < self.now.shards }
        requires taken { HasTaken tag.conn shard self.now.shards even seat.old.me }
        requires seen { seen ≡ last_stamp 0 (mine_at seat.old.me) }
        requires few { length (mine_at seat.old.me) < 2 ^ 40 }
        requires hash { hash ≡ hash_of key.now }
        ensures stamp { IfOk result (λ stamp. last_stamp 0 (mine_at seat.old.me) < stamp) }
        ensures ok { IfOk result (HasMadeGet tag shard key.now seat.old.me seat.new.me
            replies.old.items replies.new.items) }
        ensures err { OnErr result (HasGivenUp tag.conn seat.old.me seat.new.me) }
        ensures refused { OnErr result (replies.new.items ≡ replies.old.items) }
        ensures table { seat.new.table_id ≡ seat.old.table_id }
        ensures seat { seat.new.id ≡ seat.old.id }
    {
        let words = &self.table.shared;
        let word = shard as usize;
        match seat
            .slot_mut(words, word)
            .fetch(tag, key, hash, seen, replies)
        {
            Ok(stamp) => {
                words.store::<PutsBack>(seat, word, even + 2);
                Ok(stamp)
            }
            Err(refused) => {
                words.store::<PutsBack>(seat, word, even);
                Err(refused)
            }
        }
    }
}
