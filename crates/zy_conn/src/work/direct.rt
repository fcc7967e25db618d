//! A retrieval of one key or a `set`, which is executed without its command.
ghost use Rattle.std.specs.Prelude.{◌≡◌, ℕ, ◌<◌, ◌^◌, List, [], ◌∷◌, length, vec_len, vec_capacity};
ghost use Rattle.mc_calls.specs.declared.call_reply.CallReply.{CallReply};
ghost use Rattle.mc_parse.specs.declared.command.Command.{Command};
ghost use Rattle.mc_parse.specs.declared.command.Command.TheVariants.{Get};
ghost use Rattle.mc_parse.specs.Calls.{get_at, IsOnShard};
ghost use Rattle.mc_parse.specs.OneSet.{set_command, IsSetBy};
ghost use Rattle.zy_calls.specs.Batch.{Batch as Sent, with_text};
ghost use Rattle.zy_conn.specs.Work.{no_frame, command_read};
ghost use Rattle.zy_conn.specs.Step.{SamePass};
ghost use Rattle.zy_conn.specs.Direct.{IsBegunBy, ReadsTo, TriesTo, StartsTo};

use crate::answer::OneAnswer;
use crate::begun::Begun;
use crate::calling::{Made, make_get};
use crate::hold_end::HoldEnd;
use mc_calls::{Call, CallReply, Tag};
use mc_parse::{OneKey, OneSet, ShardCall, set_command};
use mc_reply::set_text;
use mc_store::{Pass, StoreTable, Tried};
use std::alloc::Global;
use zy_base::{Blob, COMMAND_LIMIT, NoMemory};
use zy_calls::Batch;
use zy_frame::{Frame, one_key_of, one_set_of};

/// How the next command was begun.
#[derive(Drop)]
pub(crate) enum Begins {
    /// Its command is in progress.
    Going,
    /// It was executed, and is finished.
    Finished,
    /// It was not begun, or its call was not made.
    Stopped(HoldEnd),
}

/// Begins the command of a frame, when nothing is begun. A retrieval of one key or a `set` is
/// executed and finished, if its call is made; any other command is read. May answer `NoMemory`.
pub(super) fn start(
    alloc: Global,
    frame: Frame,
    store: &StoreTable,
    pass: &mut Pass,
    begun: &mut Begun,
    replies: &mut Vec<CallReply>,
    batch: &mut Batch,
) -> Result<Begins, NoMemory>
    requires table { pass.old.table ≡ store.now.id }
    requires none { begun.old ≡ no_frame }
    requires empty { replies.old.items ≡ [] }
    requires few { batch.old.finished < 2 ^ 40 }
    ensures pass { SamePass pass.old pass.new }
    ensures to { StartsTo store.now.shards frame pass.old batch.old pass.new begun.new replies.new.items batch.new
        result }
{
    let one = match one_key_of(&frame) {
        Ok(Some(one)) => one,
        _ => return start_other(alloc, frame, store, pass, begun, batch),
    };
    if pass.count() >= COMMAND_LIMIT {
        drop(one);
        return read(alloc, frame, begun);
    }
    match begun.take_room() {
        Ok(room) => {
            drop(frame);
            get(one, room, store, pass, begun, replies, batch)
        }
        Err(_) => {
            drop(one);
            read(alloc, frame, begun)
        }
    }
}

// Begins the command of a frame, when nothing is begun. A `set` is executed and finished, if its
// call is made; any other command is read.
fn start_other(
    alloc: Global,
    frame: Frame,
    store: &StoreTable,
    pass: &mut Pass,
    begun: &mut Begun,
    batch: &mut Batch,
) -> Result<Begins, NoMemory>
    requires table { pass.old.table ≡ store.now.id }
    requires none { begun.old ≡ no_frame }
    requires few { batch.old.finished < 2 ^ 40 }
    ensures pass { SamePass pass.old pass.new }
    ensures to { (replies : List CallReply) → replies ≡ [] → StartsTo store.now.shards frame pass.old batch.old
        pass.new begun.new replies batch.new result }
{
    if pass.count() >= COMMAND_LIMIT {
        return read(alloc, frame, begun);
    }
    match one_set_of(frame, store.shards()) {
        Ok(one) => set(one, store, pass, begun, batch),
        Err((frame, _)) => read(alloc, frame, begun),
    }
}

// Executes a `set`, and finishes it, if its call is made. Otherwise its command is made. The text is
// appended before the call, since nothing may fail after it, and taken back if it is not made.
fn set(
    one: OneSet,
    store: &StoreTable,
    pass: &mut Pass,
    begun: &mut Begun,
    batch: &mut Batch,
) -> Result<Begins, NoMemory>
    requires table { pass.old.table ≡ store.now.id }
    requires within { IsOnShard store.now.shards one.next }
    requires calls { length pass.old.calls < 2 ^ 40 }
    requires none { begun.old ≡ no_frame }
    requires few { batch.old.finished < 2 ^ 40 }
    ensures pass { SamePass pass.old pass.new }
    ensures begun { IsBegunBy result (set_command one.next.call one.quiet) begun.new }
    ensures to { (shards : ℕ) (command : Command) → IsSetBy shards command one.next one.quiet → TriesTo command one.next
        pass.old batch.old pass.new [] batch.new result }
{
    let finished = batch.finished();
    let OneSet { next, quiet } = one;
    let ShardCall { shard, call } = next;
    if let Err(e) = batch.send_copy(set_text(quiet)) {
        begun.begin(set_command(call, quiet));
        return Err(e);
    }
    let tag = Tag {
        conn: pass.conn(),
        index: finished,
        part: 0,
    };
    match store.make_call(pass, tag, shard, call) {
        Ok(Tried::Made { reply, stamp: _ }) => {
            drop(reply);
            batch.set_finished(finished + 1);
            Ok(Begins::Finished)
        }
        Ok(
            Tried::Busy {
                call,
                shard,
                loaded,
                found,
            },
        ) => {
            come_back(call, quiet, begun, batch);
            Ok(Begins::Stopped(HoldEnd::Busy {
                shard,
                loaded,
                found,
            }))
        }
        Err((call, e)) => {
            come_back(call, quiet, begun, batch);
            Err(e)
        }
    }
}

// Takes the text of a `set` back, and begins the command of its call, which was not made.
fn come_back(call: Call, quiet: bool, begun: &mut Begun, batch: &mut Batch)
    requires none { begun.old ≡ no_frame }
    ensures begun { begun.new ≡ command_read (set_command call quiet) }
    ensures batch { (before : Sent) (text : List ℕ) → batch.old ≡ with_text before text → batch.new ≡ before }
{
    batch.take_back();
    begun.begin(set_command(call, quiet));
}

// Reads the command of a frame.
fn read(alloc: Global, frame: Frame, begun: &mut Begun) -> Result<Begins, NoMemory>
    requires none { begun.old ≡ no_frame }
    ensures to { ReadsTo frame begun.new result }
{
    match begun.read(alloc, frame) {
        Ok(()) => Ok(Begins::Going),
        Err(e) => Err(e),
    }
}

// Executes a retrieval of one key, and finishes it, if its call is made. Otherwise its command is
// made, in this room.
fn get(
    one: OneKey,
    room: Vec<Blob>,
    store: &StoreTable,
    pass: &mut Pass,
    begun: &mut Begun,
    replies: &mut Vec<CallReply>,
    batch: &mut Batch,
) -> Result<Begins, NoMemory>
    requires table { pass.old.table ≡ store.now.id }
    requires calls { length pass.old.calls < 2 ^ 40 }
    requires none { begun.old ≡ no_frame }
    requires empty { replies.old.items ≡ [] }
    requires few { batch.old.finished < 2 ^ 40 }
    requires keys { room.items ≡ [] }
    requires room { vec_len room < vec_capacity room }
    ensures pass { SamePass pass.old pass.new }
    ensures begun { IsBegunBy result (Get (one.key ∷ []) one.unique) begun.new }
    ensures to { TriesTo (Get (one.key ∷ []) one.unique) (get_at store.now.shards one.key) pass.old batch.old
        pass.new replies.new.items batch.new result }
{
    match try_get(&one, store, pass, replies, batch) {
        Ok(Begins::Finished) => {
            drop(one);
            begun.give_room(room);
            Ok(Begins::Finished)
        }
        other => {
            begun.begin(one.into_command(room));
            other
        }
    }
}

// Makes the get of a key, and appends its text.
fn try_get(
    one: &OneKey,
    store: &StoreTable,
    pass: &mut Pass,
    replies: &mut Vec<CallReply>,
    batch: &mut Batch,
) -> Result<Begins, NoMemory>
    requires table { pass.old.table ≡ store.now.id }
    requires calls { length pass.old.calls < 2 ^ 40 }
    requires empty { replies.old.items ≡ [] }
    requires few { batch.old.finished < 2 ^ 40 }
    ensures pass { SamePass pass.old pass.new }
    ensures to { TriesTo (Get (one.now.key ∷ []) one.now.unique) (get_at store.now.shards one.now.key) pass.old
        batch.old pass.new replies.new.items batch.new result }
{
    let index = batch.finished();
    match make_get(pass, store, index, &one.key, replies)? {
        Made::Call => {
            batch.send_by(&OneAnswer {
                got: one,
                reply: &replies[0],
            })?;
            batch.set_finished(index + 1);
            Ok(Begins::Finished)
        }
        Made::Stopped(end) => Ok(Begins::Stopped(end)),
        Made::Done => Ok(Begins::Going),
    }
}
