//! Taking a shard, the first steps of a try.
ghost use Rattle.std.specs.Prelude.{◌≡◌, ◌<◌, ◌≤◌, ◌^◌, length};
ghost use Rattle.mc_store.specs.Steps.{mine_at, trace_at, IsIdle, HasTaken, IfFree, IfHeld};
ghost use Rattle.mc_store.specs.Call.{WasFree, WasBusy};

use crate::store::StoreTable;
use crate::store::plays::{Looks, Tries};
use crate::store::view::View;
use atomic_table::Seat;
use mc_shard::Shard;

/// The result of trying to take a shard.
#[derive(Drop)]
pub(crate) enum Taking {
    /// It is taken. This is the even word that it had.
    Free { even: u64 },
    /// Another pass has it. These are the word that was loaded, and the one that the exchange
    /// found.
    Held { loaded: u64, found: u64 },
}

impl StoreTable {
    // Loads the shard's word and, if it was even, makes an exchange, which takes the shard if it
    // finds the same word. The pass is that of this connection.
    #[inline(always)]
    pub(crate) fn take(&self, seat: &mut Seat<Shard, View>, conn: u32, shard: u32) -> Taking
        requires table { seat.old.table_id ≡ self.now.id }
        requires within { shard < self.now.shards }
        requires idle { IsIdle conn seat.old.me }
        requires few { length (mine_at seat.old.me) < 2 ^ 40 }

        // The answer.
        ensures taken { IfFree result (λ even. HasTaken conn shard self.now.shards even seat.new.me) }
        ensures free { IfFree result (λ even. WasFree shard (trace_at seat.old.me) (trace_at seat.new.me)) }
        ensures busy { IfHeld result (WasBusy shard (trace_at seat.old.me) (trace_at seat.new.me) shard) }
        ensures idle { IfHeld result (λ loaded found. IsIdle conn seat.new.me) }

        // The seat.
        ensures calls { mine_at seat.new.me ≡ mine_at seat.old.me }
        ensures table { seat.new.table_id ≡ seat.old.table_id }
        ensures seat { seat.new.id ≡ seat.old.id }
        ensures steps { (trace_at seat.old.me).steps ≤ (trace_at seat.new.me).steps }
    {
        let _conn = conn;
        let words = &self.table.shared;
        let word = shard as usize;
        let loaded = words.load::<Looks>(seat, word);
        if loaded % 2 == 1 {
            return Taking::Held {
                loaded,
                found: loaded,
            };
        }
        let found = words.compare_exchange::<Tries>(seat, word, loaded, loaded + 1);
        if found == loaded {
            Taking::Free { even: loaded }
        } else {
            Taking::Held { loaded, found }
        }
    }
}
