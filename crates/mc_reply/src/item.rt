//! The lines of an item.
ghost use Rattle.std.specs.Prelude.{◌≡◌, ◌≤◌, ◌+◌, ◌++◌, length, drop, codes, decimal};
ghost use Rattle.mc_reply.specs.Text.{item_text};
ghost use Rattle.mc_reply.specs.Shape.{numbers_text, spaced_number};

use crate::lines::LINE_END;
use itoa::write_digits;
use mc_calls::CallReply;
use zy_base::{Blob, Reserved};

// The room for three numbers of up to 20 digits, each after a space, and for the end of a line.
const NUMBERS_ROOM: usize = 72;

/// Appends the text of a key.
pub(crate) fn put_item(out: &mut Reserved, asked: bool, key: &Blob, reply: &CallReply)
    requires fits { length (item_text asked key.now reply.now) ≤ out.old.room }
    ensures value { out.new.bytes ≡ out.old.bytes ++ item_text asked key.now reply.now }
    ensures room { out.old.room ≤ out.new.room + length (item_text asked key.now reply.now) }
{
    if let CallReply::Hit {
        flags,
        unique,
        value,
    } = reply
    {
        out.append(b"VALUE ");
        out.append(key.bytes());
        put_numbers(out, asked, *flags, value.bytes().len(), *unique);
        out.append(value.bytes());
        out.append(LINE_END);
    }
}

// Appends what is after the key in its line: the flags, the length of the value, the CAS value if
// it was asked for, and the end of the line. They are written into a buffer first, from its end,
// and appended at once.
fn put_numbers(out: &mut Reserved, asked: bool, flags: u32, count: usize, unique: u64)
    requires fits { length (numbers_text asked flags count unique) ≤ out.old.room }
    ensures value { out.new.bytes ≡ out.old.bytes ++ numbers_text asked flags count unique }
    ensures room { out.old.room ≤ out.new.room + length (numbers_text asked flags count unique) }
{
    let mut room = [0u8; NUMBERS_ROOM];
    room[NUMBERS_ROOM - 1] = b'\n';
    room[NUMBERS_ROOM - 2] = b'\r';
    let mut start = NUMBERS_ROOM - 2;
    if asked {
        start = put_before(&mut room, start, unique);
    }
    let start = put_before(&mut room, start, count as u64);
    let start = put_before(&mut room, start, flags as u64);
    out.append(&room[start..]);
}

// Writes a space and a number so that they end at a place, and returns where they start.
fn put_before(room: &mut [u8], end: usize, number: u64) -> usize
    requires fits { 21 ≤ end }
    requires within { end ≤ length room.old }
    ensures value { drop result room.new ≡ spaced_number number (drop end room.old) }
    ensures length { length room.new ≡ length room.old }
    ensures start { end ≤ result + 21 }
    ensures before { result ≤ end }
{
    let start = write_digits(number, room, end) - 1;
    room[start] = b' ';
    start
}
