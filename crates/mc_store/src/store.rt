//! The store: the shards in the slots of one table, with a word for each.
//!
//! Word `s` is `2k` if shard `s` is free and has had `k` calls, and `2k + 1` if a pass has it. Slot
//! `s` has shard `s` while it is free. A call loads the word, exchanges the even word with the odd one
//! above it, calls the shard in its slot, and stores an even word again.
ghost use Rattle.std.specs.Prelude.{◌≡◌, ◌<◌, ◌≤◌, ◌^◌, ℕ, [], ◌∷◌, ◌++◌, length, true, false, IfOk, OnOk, OnErr, IfErr};
ghost use Rattle.mc_calls.specs.Key.{hash_of};
ghost use Rattle.mc_calls.specs.Kind.{MayAnswer};
ghost use Rattle.mc_calls.specs.Order.{last_stamp};
ghost use Rattle.zy_table.specs.Member.{is_in};
ghost use Rattle.mc_store.specs.Joined.{is_joined};
ghost use Rattle.mc_store.specs.View.{untraced};
ghost use Rattle.mc_store.specs.Pass.{passed, rooted};
ghost use Rattle.mc_shard.specs.Shard.{entry_of};
ghost use Rattle.mc_store.specs.Call.{IfReply, IfBusy, IfMade, IfTaken, IsOfCall, WasFree, WasBusy};
ghost use Rattle.mc_store.specs.Call.{IfFetched, IfUnfetched, HasFetched};
ghost use Rattle.mc_store.specs.Closing.{AreClosed, empties};

pub(crate) mod calling;
pub(crate) mod draining;
pub(crate) mod fetching;
pub(crate) mod plays;
pub(crate) mod taking;
pub(crate) mod view;

use crate::fetched::Fetched;
use crate::got::Got;
use crate::pass::Pass;
use crate::root::Root;
use crate::tried::Tried;
use atomic_table::{Badge, Table};
use draining::drain;
use mc_calls::{Call, CallReply, Entry, Tag};
use mc_history::Histories;
use mc_shard::Shard;
use plays::{Gives, Named, TakesIn};
use std::alloc::Global;
use std::marker::{Brand, Model};
use std::mem;
use view::{Rule, View};
use zy_base::{Blob, NoMemory};

/// The shards of a store. Contracts see which table it is, and the number of its shards.
#[derive(Drop)]
pub struct StoreTable {
    table: Table<Shard, View, (), Rule, Global>,
    shards: u32,
    alloc: Global,
}

impl Model for StoreTable {
    ghost use Rattle.std.specs.Prelude.{◌≡◌, ◌<◌, ◌≤◌};
    ghost use Rattle.mc_store.specs.Pass.{Stored, stored};

    ghost Value = { Stored };

    ghost view = { λ s. stored s.table.shared.table_id s.shards };

    ghost invariant = { λ s. (s.table.shared.table_id.words ≡ s.shards) × (s.table.shared.table_id.slots ≡ s.shards)
        × (0 < s.shards) × (s.shards ≤ 256) };
}

impl StoreTable {
    /// Makes a store of `shards` empty shards, 1 to 256, and its root. If allocation fails, there
    /// is nothing to hand back.
    pub fn new(alloc: Global, shards: u32) -> Result<(StoreTable, Root), NoMemory>
        requires some { 1 ≤ shards }
        requires few { shards ≤ 256 }
        ensures shards { IfOk result (λ made. made.0.shards ≡ shards) }
        ensures root { IfOk result (λ made. made.1 ≡ rooted made.0.id [] []) }
    {
        let Ok(words) = Vec::from_elem(alloc, 0u64, shards as usize) else {
            return Err(NoMemory);
        };
        let empty = match empty_shards(alloc, shards) {
            Ok(empty) => empty,
            Err(refused) => {
                drop(words);
                return Err(refused);
            }
        };
        let made = Table::new(alloc, words.as_slice(), empty, &());
        drop(words);
        match made {
            Ok((table, seat)) => Ok((
                StoreTable {
                    table,
                    shards,
                    alloc,
                },
                Root {
                    badge: seat.into_badge(),
                },
            )),
            Err(back) => {
                drop(back);
                Err(NoMemory)
            }
        }
    }

    /// Returns the number of shards, which is the number of the table's slots.
    pub fn shards(&self) -> u32
        ensures value { result ≡ self.now.shards }
        ensures slots { result ≡ self.now.id.slots }
        ensures some { 1 ≤ result }
        ensures few { result ≤ 256 }
    {
        self.shards
    }

    /// Makes the pass of a connection below 4,096 to which this root gave none before. The pass has
    /// no calls. If allocation fails, none counts as given.
    pub fn split(&self, root: &mut Root, conn: u32) -> Result<Pass, NoMemory>
        requires table { root.old.table ≡ self.now.id }
        requires within { conn < 4096 }
        requires fresh { is_in conn root.old.given ≡ false }
        ensures value { IfOk result (λ pass. pass ≡ passed root.old.table conn [] untraced) }
        ensures ok { OnOk result (root.new ≡ rooted root.old.table (conn ∷ root.old.given) root.old.joined) }
        ensures err { OnErr result (root.new ≡ root.old) }
    {
        Ok(self.split_as::<Brand>(root, conn))
    }

    fn split_as<N: Named>(&self, root: &mut Root, conn: u32) -> Pass
        requires picked { conn ≡ N.conn }
        requires table { root.old.table ≡ self.now.id }
        requires within { conn < 4096 }
        requires fresh { is_in conn root.old.given ≡ false }
        ensures value { result ≡ passed root.old.table conn [] untraced }
        ensures ok { root.new ≡ rooted root.old.table (conn ∷ root.old.given) root.old.joined }
    {
        let mut seat = mem::replace(&mut root.badge, Badge::blank()).into_seat();
        let given = self.table.shared.split_seat::<Gives<N>>(&mut seat);
        root.badge = seat.into_badge();
        Pass {
            conn,
            count: 0,
            last: 0,
            badge: given.into_badge(),
        }
    }

    /// Tries once to make a call on a shard, for the pass's connection: one load of the shard's word
    /// and, if it was even, one exchange. The call happens at the store that makes the word even
    /// again. Its stamp is above all that the pass and the shard have seen.
    ///
    /// The entry in the answer is a copy. If allocation fails, no call was made, and the shard is
    /// free again, as it was. The program calls `make_call`.
    pub fn try_call(
        &self,
        pass: &mut Pass,
        tag: Tag,
        shard: u32,
        call: &Call,
    ) -> Result<Got, NoMemory>
        requires table { pass.old.table ≡ self.now.id }
        requires conn { tag.conn ≡ pass.old.conn }
        requires within { shard < self.now.shards }
        requires few { length pass.old.calls < 2 ^ 40 }

        // The answer.
        ensures reply { IfReply result (IsOfCall tag shard call.now) }
        ensures kind { IfReply result (λ entry. MayAnswer call.now entry.reply) }
        ensures free { IfReply result (λ entry. WasFree shard pass.old.trace pass.new.trace) }
        ensures busy { IfBusy result (WasBusy shard pass.old.trace pass.new.trace) }

        // The pass.
        ensures ok { IfReply result (λ entry. pass.new.calls ≡ pass.old.calls ++ entry ∷ []) }
        ensures stamp { IfReply result (λ entry. last_stamp 0 pass.old.calls < entry.stamp) }
        ensures kept { IfBusy result (λ shard loaded found. pass.new.calls ≡ pass.old.calls) }
        ensures err { OnErr result (pass.new.calls ≡ pass.old.calls) }
        ensures table { pass.new.table ≡ pass.old.table }
        ensures conn { pass.new.conn ≡ pass.old.conn }
        ensures steps { pass.old.trace.steps ≤ pass.new.trace.steps }
    {
        let Ok(given) = call.copy() else {
            return Err(NoMemory);
        };
        let kept = match call.copy() {
            Ok(kept) => kept,
            Err(refused) => {
                drop(given);
                return Err(refused);
            }
        };
        match self.make_call(pass, tag, shard, given) {
            Ok(Tried::Made { reply, stamp }) => Ok(Got::Reply(Entry {
                tag,
                shard,
                call: kept,
                reply,
                stamp,
            })),
            Ok(
                Tried::Busy {
                    call,
                    shard,
                    loaded,
                    found,
                },
            ) => {
                drop(call);
                drop(kept);
                Ok(Got::Busy {
                    shard,
                    loaded,
                    found,
                })
            }
            Err((given, refused)) => {
                drop(given);
                drop(kept);
                Err(refused)
            }
        }
    }

    /// Tries once to make a call on a shard, as `try_call` does. The call is moved into its entry;
    /// the answer has only its reply and the stamp. If it was not made it is handed back.
    pub fn make_call(
        &self,
        pass: &mut Pass,
        tag: Tag,
        shard: u32,
        call: Call,
    ) -> Result<Tried, (Call, NoMemory)>
        requires table { pass.old.table ≡ self.now.id }
        requires conn { tag.conn ≡ pass.old.conn }
        requires within { shard < self.now.shards }
        requires few { length pass.old.calls < 2 ^ 40 }

        // The answer.
        ensures kind { IfMade result (λ reply stamp. MayAnswer call reply) }
        ensures free { IfMade result (λ reply stamp. WasFree shard pass.old.trace pass.new.trace) }
        ensures busy { IfTaken result (λ back. WasBusy shard pass.old.trace pass.new.trace) }
        ensures back { IfTaken result (λ back asked loaded found. back ≡ call) }
        ensures returned { IfErr result (λ e. e.0 ≡ call) }

        // The pass.
        ensures ok { IfMade result (λ reply stamp. pass.new.calls
            ≡ pass.old.calls ++ entry_of tag shard call reply stamp ∷ []) }
        ensures stamp { IfMade result (λ reply stamp. last_stamp 0 pass.old.calls < stamp) }
        ensures kept { IfTaken result (λ back asked loaded found. pass.new.calls ≡ pass.old.calls) }
        ensures err { OnErr result (pass.new.calls ≡ pass.old.calls) }
        ensures table { pass.new.table ≡ pass.old.table }
        ensures conn { pass.new.conn ≡ pass.old.conn }
        ensures steps { pass.old.trace.steps ≤ pass.new.trace.steps }
    {
        let seen = pass.last;
        let mut seat = mem::replace(&mut pass.badge, Badge::blank()).into_seat();
        let tried = self.try_on(&mut seat, tag, shard, call, seen);
        pass.badge = seat.into_badge();
        match tried {
            Ok(Tried::Made { reply, stamp }) => {
                pass.count += 1;
                pass.last = stamp;
                Ok(Tried::Made { reply, stamp })
            }
            other => other,
        }
    }

    /// Tries once to get the item of a key from a shard, as `make_call` does by `Call::Get`. The
    /// key is lent, with its hash. The reply is appended to `replies`; the answer has only the
    /// stamp. If the get was not made, the replies are as they were.
    pub fn fetch(
        &self,
        pass: &mut Pass,
        tag: Tag,
        shard: u32,
        key: &Blob,
        hash: u32,
        replies: &mut Vec<CallReply>,
    ) -> Result<Fetched, NoMemory>
        requires table { pass.old.table ≡ self.now.id }
        requires conn { tag.conn ≡ pass.old.conn }
        requires within { shard < self.now.shards }
        requires few { length pass.old.calls < 2 ^ 40 }
        requires hash { hash ≡ hash_of key.now }

        // The answer.
        ensures ok { IfFetched result (HasFetched tag shard key.now replies.old.items replies.new.items
            pass.old.calls pass.new.calls) }
        ensures stamp { IfFetched result (λ stamp. last_stamp 0 pass.old.calls < stamp) }
        ensures free { IfFetched result (λ stamp. WasFree shard pass.old.trace pass.new.trace) }
        ensures busy { IfUnfetched result (WasBusy shard pass.old.trace pass.new.trace) }

        // What stays.
        ensures kept { IfUnfetched result (λ asked loaded found. pass.new.calls ≡ pass.old.calls) }
        ensures err { OnErr result (pass.new.calls ≡ pass.old.calls) }
        ensures same { IfUnfetched result (λ asked loaded found. replies.new.items ≡ replies.old.items) }
        ensures refused { OnErr result (replies.new.items ≡ replies.old.items) }
        ensures table { pass.new.table ≡ pass.old.table }
        ensures conn { pass.new.conn ≡ pass.old.conn }
        ensures steps { pass.old.trace.steps ≤ pass.new.trace.steps }
    {
        let seen = pass.last;
        let mut seat = mem::replace(&mut pass.badge, Badge::blank()).into_seat();
        let fetched = self.try_fetch(&mut seat, tag, shard, key, hash, seen, replies);
        pass.badge = seat.into_badge();
        match fetched {
            Ok(Fetched::Made { stamp }) => {
                pass.count += 1;
                pass.last = stamp;
                Ok(Fetched::Made { stamp })
            }
            other => other,
        }
    }

    /// Joins a pass: takes it back, with its calls.
    pub fn join(&self, root: &mut Root, pass: Pass)
        requires table { root.old.table ≡ self.now.id }
        requires pass { pass.table ≡ root.old.table }
        ensures value { root.new ≡ rooted root.old.table root.old.given ((pass.conn, pass.calls) ∷ root.old.joined) }
    {
        let Pass {
            conn: _,
            count: _,
            last: _,
            badge,
        } = pass;
        let mut seat = mem::replace(&mut root.badge, Badge::blank()).into_seat();
        self.table
            .shared
            .join_seat::<TakesIn>(&mut seat, badge.into_seat());
        root.badge = seat.into_badge();
    }

    /// Returns the histories of the shards, once every pass that was given was joined. They are
    /// moved. If allocation fails, store and root are handed back.
    pub fn close(self, root: Root) -> Result<Histories, (StoreTable, Root)>
        requires table { root.table ≡ self.id }
        requires all { (conn : ℕ) → is_in conn root.given ≡ true → is_joined conn root.joined ≡ true }
        ensures ok { IfOk result (AreClosed self.shards root.joined) }
        ensures store { IfErr result (λ kept. kept.0 ≡ self) }
        ensures root { IfErr result (λ kept. kept.1 ≡ root) }
    {
        let StoreTable {
            table,
            shards,
            alloc,
        } = self;
        let Ok(lists) = Vec::with_capacity(alloc, shards as usize) else {
            return Err((
                StoreTable {
                    table,
                    shards,
                    alloc,
                },
                root,
            ));
        };
        let Root { badge } = root;
        Ok(Histories::from_vec(drain(table.close_with(badge.into_seat()), lists)))
    }
}

// Makes the shards below `shards`, on which no call was made.
fn empty_shards(alloc: Global, shards: u32) -> Result<Vec<Shard>, NoMemory>
    requires few { shards ≤ 256 }
    ensures value { IfOk result (λ made. made.items ≡ empties shards shards) }
{
    let mut made = Vec::new(alloc);
    for number in 0..shards {
        if let Err(back) = made.push(Shard::new(alloc, number, shards)) {
            drop(back);
            drop(made);
            return Err(NoMemory);
        }
    }
    Ok(made)
}
