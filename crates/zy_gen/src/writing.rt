//! The bytes of a command.
ghost use Rattle.std.specs.Prelude.{◌≡◌, ◌<◌, ◌≤◌, ◌++◌, codes, OnOk};
ghost use Rattle.zy_gen.specs.declared.request.Request.TheVariants as Requests;
ghost use Rattle.zy_gen.specs.Traffic.{traffic_key, keys, block, quiet_word, request_text, IsSmall};

use crate::request::{Command, Request};
use zy_base::{Blob, NoMemory, number_text};

// Appends the bytes of a command of a connection.
#[tactic(auto, unfolding(crate::specs::Traffic::request_text))]
pub(crate) fn append_text(out: &mut Blob, conn: u32, command: &Command) -> Result<(), NoMemory>
    requires item { command.now.item < 64 }
    requires small { IsSmall command.now.request }
    ensures ok { OnOk result (out.new ≡
        out.old ++ request_text conn command.now.item command.now.request) }
{
    let item = command.item;
    match command.request {
        Request::Get => append_with_key(out, b"get ", conn, item, b"\r\n"),
        Request::GetMany => append_many(out, conn, item),
        Request::Set { flags, size, quiet } => append_set(out, conn, item, flags, size, quiet),
        Request::SetTen => append_with_key(out, b"set ", conn, item, b" 0 3600 2\r\n10\r\n"),
        Request::Incr => append_with_key(out, b"incr ", conn, item, b" 7\r\n"),
        Request::Append => append_with_key(out, b"append ", conn, item, b" 0 0 1\r\n9\r\n"),
        Request::Delete => append_with_key(out, b"delete ", conn, item, b"\r\n"),
    }
}

// Appends a key of a connection.
#[tactic(auto, unfolding(crate::specs::Traffic::traffic_key))]
fn append_key(out: &mut Blob, conn: u32, item: u32) -> Result<(), NoMemory>
    ensures ok { OnOk result (out.new ≡ out.old ++ traffic_key conn item) }
{
    out.append(b"k")?;
    number_text(out, u64::from(conn))?;
    out.append(b":")?;
    number_text(out, u64::from(item % 64))
}

// Appends a key with bytes before and after it.
fn append_with_key(
    out: &mut Blob,
    before: &[u8],
    conn: u32,
    item: u32,
    after: &[u8],
) -> Result<(), NoMemory>
    ensures ok { OnOk result (out.new ≡ out.old
        ++ (before.now ++ (traffic_key conn item ++ after.now))) }
{
    out.append(before)?;
    append_key(out, conn, item)?;
    out.append(after)
}

// Appends a `get` of 50 keys.
#[tactic(auto, unfolding(crate::specs::Traffic::request_text))]
fn append_many(out: &mut Blob, conn: u32, item: u32) -> Result<(), NoMemory>
    requires item { item < 64 }
    ensures ok { OnOk result (out.new ≡ out.old ++ request_text conn item Requests.GetMany) }
{
    out.append(b"get")?;
    append_keys(out, conn, item, 50)?;
    out.append(b"\r\n")
}

// Appends `count` keys, each after a space.
fn append_keys(out: &mut Blob, conn: u32, item: u32, count: u32) -> Result<(), NoMemory>
    requires few { (item < 64) × (count ≤ 50) }
    ensures ok { OnOk result (out.new ≡ out.old ++ keys conn item count) }
{
    for i in 0..count {
        append_with_key(out, b" ", conn, item + i, b"")?;
    }
    Ok(())
}

// Appends a `set`.
#[tactic(auto, unfolding(crate::specs::Traffic::request_text))]
fn append_set(
    out: &mut Blob,
    conn: u32,
    item: u32,
    flags: u32,
    size: u32,
    quiet: bool,
) -> Result<(), NoMemory>
    requires few { (item < 64) × (size < 256) }
    ensures ok { OnOk result (out.new ≡
        out.old ++ request_text conn item (Requests.Set flags size quiet)) }
{
    append_with_key(out, b"set ", conn, item, b" ")?;
    number_text(out, u64::from(flags))?;
    out.append(b" 3600 ")?;
    number_text(out, u64::from(size))?;
    append_rest(out, item, size, quiet)
}

// Appends the part of a `set` after its size.
fn append_rest(out: &mut Blob, item: u32, size: u32, quiet: bool) -> Result<(), NoMemory>
    requires few { (item < 64) × (size < 256) }
    ensures ok { OnOk result (out.new ≡
        out.old ++ (quiet_word quiet ++ (codes "\r\n" ++ (block item size ++ codes "\r\n")))) }
{
    out.append(if quiet {
        b" noreply".as_slice()
    } else {
        b"".as_slice()
    })?;
    out.append(b"\r\n")?;
    append_block(out, item, size)?;
    out.append(b"\r\n")
}

// Appends a block.
fn append_block(out: &mut Blob, letter: u32, size: u32) -> Result<(), NoMemory>
    requires few { (letter < 64) × (size < 256) }
    ensures ok { OnOk result (out.new ≡ out.old ++ block letter size) }
{
    for i in 0..size {
        out.append(&[b'a' + ((letter + i) % 26) as u8])?;
    }
    Ok(())
}
