//! One try of a call, step by step.
ghost use Rattle.std.specs.Prelude.{◌≡◌, ◌<◌, ◌≤◌, ◌^◌, [], ◌∷◌, ◌++◌, length, IfOk, IfErr, OnErr};
ghost use Rattle.mc_calls.specs.Kind.{MayAnswer};
ghost use Rattle.mc_calls.specs.Order.{last_stamp};
ghost use Rattle.mc_shard.specs.Shard.{entry_of};
ghost use Rattle.mc_store.specs.Steps.{mine_at, trace_at, IsIdle, HasTaken, HasMade, HasGivenUp};
ghost use Rattle.mc_store.specs.Call.{IfMade, IfTaken, WasFree, WasBusy};

use crate::store::StoreTable;
use crate::store::plays::PutsBack;
use crate::store::taking::Taking;
use crate::store::view::View;
use crate::tried::Tried;
use atomic_table::Seat;
use mc_calls::{Call, Tag};
use mc_shard::{Made, Shard};
use zy_base::NoMemory;

impl StoreTable {
    // Takes the shard, if it is free, and makes the call.
    pub(crate) fn try_on(
        &self,
        seat: &mut Seat<Shard, View>,
        tag: Tag,
        shard: u32,
        call: Call,
        seen: u64,
    ) -> Result<Tried, (Call, NoMemory)>
        requires table { seat.old.table_id ≡ self.now.id }
        requires within { shard < self.now.shards }
        requires idle { IsIdle tag.conn seat.old.me }
        requires seen { seen ≡ last_stamp 0 (mine_at seat.old.me) }
        requires few { length (mine_at seat.old.me) < 2 ^ 40 }

        // The answer.
        ensures kind { IfMade result (λ reply stamp. MayAnswer call reply) }
        ensures free { IfMade result (λ reply stamp. WasFree shard (trace_at seat.old.me) (trace_at seat.new.me)) }
        ensures busy { IfTaken result (λ back. WasBusy shard (trace_at seat.old.me) (trace_at seat.new.me)) }
        ensures back { IfTaken result (λ back asked loaded found. back ≡ call) }
        ensures returned { IfErr result (λ e. e.0 ≡ call) }

        // The seat.
        ensures ok { IfMade result (λ reply stamp. mine_at seat.new.me
            ≡ mine_at seat.old.me ++ entry_of tag shard call reply stamp ∷ []) }
        ensures stamp { IfMade result (λ reply stamp. last_stamp 0 (mine_at seat.old.me) < stamp) }
        ensures kept { IfTaken result (λ back asked loaded found. mine_at seat.new.me ≡ mine_at seat.old.me) }
        ensures err { OnErr result (mine_at seat.new.me ≡ mine_at seat.old.me) }
        ensures idle { IsIdle tag.conn seat.new.me }
        ensures table { seat.new.table_id ≡ seat.old.table_id }
        ensures seat { seat.new.id ≡ seat.old.id }
        ensures steps { (trace_at seat.old.me).steps ≤ (trace_at seat.new.me).steps }
    {
        match self.take(seat, tag.conn, shard) {
            Taking::Free { even } => match self.call_on(seat, tag, shard, even, call, seen) {
                Ok(Made { reply, stamp }) => Ok(Tried::Made { reply, stamp }),
                Err(back) => Err(back),
            },
            Taking::Held { loaded, found } => Ok(Tried::Busy {
                call,
                shard,
                loaded,
                found,
            }),
        }
    }

    // Makes the call on the shard that the seat has taken, in its slot, and gives the shard back.
    fn call_on(
        &self,
        seat: &mut Seat<Shard, View>,
        tag: Tag,
        shard: u32,
        even: u64,
        call: Call,
        seen: u64,
    ) -> Result<Made, (Call, NoMemory)>
        requires table { seat.old.table_id ≡ self.now.id }
        requires within { shard < self.now.shards }
        requires taken { HasTaken tag.conn shard self.now.shards even seat.old.me }
        requires seen { seen ≡ last_stamp 0 (mine_at seat.old.me) }
        requires few { length (mine_at seat.old.me) < 2 ^ 40 }
        ensures kind { IfOk result (λ made. MayAnswer call made.reply) }
        ensures stamp { IfOk result (λ made. last_stamp 0 (mine_at seat.old.me) < made.stamp) }
        ensures returned { IfErr result (λ e. e.0 ≡ call) }
        ensures ok { IfOk result (λ made. HasMade tag.conn seat.old.me seat.new.me
            (entry_of tag shard call made.reply made.stamp)) }
        ensures err { OnErr result (HasGivenUp tag.conn seat.old.me seat.new.me) }
        ensures table { seat.new.table_id ≡ seat.old.table_id }
        ensures seat { seat.new.id ≡ seat.old.id }
    {
        let words = &self.table.shared;
        let word = shard as usize;
        match seat.slot_mut(words, word).make(tag, call, seen) {
            Ok(made) => {
                words.store::<PutsBack>(seat, word, even + 2);
                Ok(made)
            }
            Err(back) => {
                words.store::<PutsBack>(seat, word, even);
                Err(back)
            }
        }
    }
}
