//! The lines that answer `stats`.
ghost use Rattle.std.specs.Prelude.{◌≡◌, ◌≤◌, ◌+◌, ◌++◌, length, OnOk, OnErr};
ghost use Rattle.mc_reply.specs.StatsText.{stat_name, stat_in, sum_in, stat_line, sum_line, stats_text};

use crate::lines::{END, LINE_END};
use mc_calls::CallReply;
use std::mem;
use zy_base::{Blob, NoMemory, Reserved};

// The most bytes of a number's line: "STAT ", a name of up to 10 bytes, a blank, up to 39 digits,
// and the end of the line.
const LINE_ROOM: usize = 57;

/// A number that `stats` reports.
#[derive(Clone, Copy)]
pub enum Stat {
    /// Calls that get the item of a key.
    Gets,
    /// Calls that store a value.
    Sets,
    /// The gets that found an item.
    Hits,
    /// The gets that found none.
    Misses,
    /// The current items.
    Items,
}

/// Appends the lines of the sums over these replies. May answer `NoMemory`.
pub(crate) fn append_stats(out: &mut Blob, replies: &[CallReply]) -> Result<(), NoMemory>
    ensures ok { OnOk result (out.new ≡ out.old ++ stats_text replies.now) }
    ensures err { OnErr result (out.new ≡ out.old) }
{
    let mut reserved = out.reserve(5 * LINE_ROOM + END.len())?;
    put_stats(&mut reserved, replies);
    drop(mem::replace(out, reserved.into_blob()));
    Ok(())
}

// Appends the lines, for which there is room.
fn put_stats(out: &mut Reserved, replies: &[CallReply])
    requires fits { 290 ≤ out.old.room }
    ensures value { out.new.bytes ≡ out.old.bytes ++ stats_text replies.now }
{
    put_sum(out, Stat::Gets, replies);
    put_sum(out, Stat::Sets, replies);
    put_sum(out, Stat::Hits, replies);
    put_sum(out, Stat::Misses, replies);
    put_sum(out, Stat::Items, replies);
    out.append(END);
}

// Appends the line of a sum.
fn put_sum(out: &mut Reserved, stat: Stat, replies: &[CallReply])
    requires fits { 57 ≤ out.old.room }
    ensures value { out.new.bytes ≡ out.old.bytes ++ sum_line stat replies.now }
    ensures room { out.old.room ≤ out.new.room + 57 }
{
    let sum = sum_of(replies, stat);
    put_line(out, stat, sum);
}

// Appends the line of a number.
fn put_line(out: &mut Reserved, stat: Stat, number: u128)
    requires fits { 57 ≤ out.old.room }
    ensures value { out.new.bytes ≡ out.old.bytes ++ stat_line stat number }
    ensures room { out.old.room ≤ out.new.room + 57 }
{
    out.append(b"STAT ");
    out.append(stat_name(stat));
    out.append(b" ");
    out.append_wide(number);
    out.append(LINE_END);
}

// Returns the name of a number.
fn stat_name(stat: Stat) -> &'static [u8]
    ensures value { result.now ≡ stat_name stat }
    ensures short { length result.now ≤ 10 }
{
    match stat {
        Stat::Gets => b"cmd_get",
        Stat::Sets => b"cmd_set",
        Stat::Hits => b"get_hits",
        Stat::Misses => b"get_misses",
        Stat::Items => b"curr_items",
    }
}

// Returns the sum over replies.
fn sum_of(replies: &[CallReply], stat: Stat) -> u128
    ensures value { result ≡ sum_in stat replies.now }
{
    let mut sum = 0u128;
    for at in 0..replies.len() {
        sum += stat_in(&replies[at], stat) as u128;
    }
    sum
}

// Returns the number in a tally, and 0 for any other reply.
fn stat_in(reply: &CallReply, stat: Stat) -> u64
    ensures value { result ≡ stat_in stat reply.now }
{
    let Some(counts) = reply.counts() else {
        return 0;
    };
    match stat {
        Stat::Gets => counts.gets,
        Stat::Sets => counts.sets,
        Stat::Hits => counts.hits,
        Stat::Misses => counts.misses,
        Stat::Items => counts.items,
    }
}
