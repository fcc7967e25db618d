//! The text that answers a meta command.
ghost use Rattle.std.specs.Prelude.{◌≡◌, ◌++◌, [], length, codes, decimal, None, Some, OnOk, OnErr};
ghost use Rattle.mc_parse.specs.Deed.{meta_says};
ghost use Rattle.mc_reply.specs.Line.{line, unless};
ghost use Rattle.mc_reply.specs.MetaText.{marked, hit_text, get_text, set_text, delete_text, has_quiet_letter};
ghost use Rattle.mc_reply.specs.Text.{says_text};

use crate::lines::{LINE_END, MISS, NOOP, TOO_LARGE};
use crate::marks::{Found, marks_length, put_marks};
use mc_calls::CallReply;
use mc_meta::Letters;
use mc_parse::Meta;
use std::mem;
use zy_base::{Blob, NoMemory, digits_of};

/// Appends the text that answers a meta command with its reply. May answer `NoMemory`.
pub(crate) fn append_meta(
    out: &mut Blob,
    meta: &Meta,
    replies: &[CallReply],
) -> Result<(), NoMemory>
    ensures ok { OnOk result (out.new ≡ out.old ++ says_text (meta_says meta.now) replies.now) }
    ensures err { OnErr result (out.new ≡ out.old) }
{
    match (meta, replies) {
        (Meta::Noop, _) => out.append(NOOP),
        (Meta::Get { key, flags }, [reply]) => append_get(out, key.bytes(), flags, reply),
        (Meta::Set { key, marks, .. }, [reply]) => append_set(out, key.bytes(), marks, reply),
        (Meta::Delete { key, flags }, [reply]) => append_delete(out, key.bytes(), flags, reply),
        _ => Ok(()),
    }
}

// Appends the answer to a retrieval.
fn append_get(
    out: &mut Blob,
    key: &[u8],
    flags: &Letters,
    reply: &CallReply,
) -> Result<(), NoMemory>
    ensures ok { OnOk result (out.new ≡ out.old ++ get_text key.now flags.now reply.now) }
    ensures err { OnErr result (out.new ≡ out.old) }
{
    match reply {
        CallReply::Hit {
            flags: item_flags,
            unique,
            value,
        } => {
            let found = Found {
                flags: *item_flags,
                unique: *unique,
                bytes: value.bytes().len(),
            };
            append_hit(out, key, flags, found, value.bytes())
        }
        CallReply::Miss => {
            if flags.has(b'q') {
                Ok(())
            } else {
                out.append(MISS)
            }
        }
        _ => Ok(()),
    }
}

// Appends the answer of an item that was found.
fn append_hit(
    out: &mut Blob,
    key: &[u8],
    flags: &Letters,
    found: Found,
    value: &[u8],
) -> Result<(), NoMemory>
    ensures ok { OnOk result (out.new ≡ out.old ++ hit_text key.now flags.now found value.now) }
    ensures err { OnErr result (out.new ≡ out.old) }
{
    if flags.has(b'v') {
        append_value(out, key, flags.bytes(), found, value)
    } else {
        append_marked(out, b"HD", key, Some(found), flags.bytes())
    }
}

// Appends the answer to a storage command.
fn append_set(
    out: &mut Blob,
    key: &[u8],
    marks: &Letters,
    reply: &CallReply,
) -> Result<(), NoMemory>
    ensures ok { OnOk result (out.new ≡ out.old ++ set_text key.now marks.now reply.now) }
    ensures err { OnErr result (out.new ≡ out.old) }
{
    match reply {
        CallReply::Stored => append_unless_quiet(out, b"HD", key, marks),
        CallReply::NotStored => append_marked(out, b"NS", key, None, marks.bytes()),
        CallReply::Exists => append_marked(out, b"EX", key, None, marks.bytes()),
        CallReply::NotFound => append_marked(out, b"NF", key, None, marks.bytes()),
        CallReply::TooLarge => out.append(TOO_LARGE),
        _ => Ok(()),
    }
}

// Appends the answer to a deletion.
fn append_delete(
    out: &mut Blob,
    key: &[u8],
    flags: &Letters,
    reply: &CallReply,
) -> Result<(), NoMemory>
    ensures ok { OnOk result (out.new ≡ out.old ++ delete_text key.now flags.now reply.now) }
    ensures err { OnErr result (out.new ≡ out.old) }
{
    match reply {
        CallReply::Deleted => append_unless_quiet(out, b"HD", key, flags),
        CallReply::NotFound => append_unless_quiet(out, b"NF", key, flags),
        _ => Ok(()),
    }
}

// Appends a code and its marks as a line, unless no answer is requested.
fn append_unless_quiet(
    out: &mut Blob,
    code: &[u8],
    key: &[u8],
    letters: &Letters,
) -> Result<(), NoMemory>
    ensures ok { OnOk result (out.new
        ≡ out.old ++ unless (has_quiet_letter letters.now) (marked code.now key.now None letters.now)) }
    ensures err { OnErr result (out.new ≡ out.old) }
{
    if letters.has(b'q') {
        Ok(())
    } else {
        append_marked(out, code, key, None, letters.bytes())
    }
}

// Appends a code and its marks as a line.
fn append_marked(
    out: &mut Blob,
    code: &[u8],
    key: &[u8],
    found: Option<Found>,
    letters: &[u8],
) -> Result<(), NoMemory>
    ensures ok { OnOk result (out.new
        ≡ out.old ++ marked code.now key.now found letters.now) }
    ensures err { OnErr result (out.new ≡ out.old) }
{
    let Some(marks) = marks_length(key, found, letters) else {
        return Err(NoMemory);
    };
    let Some(line) = marks.checked_add(LINE_END.len()) else {
        return Err(NoMemory);
    };
    let Some(more) = line.checked_add(code.len()) else {
        return Err(NoMemory);
    };
    let mut reserved = out.reserve(more)?;
    reserved.append(code);
    put_marks(&mut reserved, key, found, letters);
    reserved.append(LINE_END);
    drop(mem::replace(out, reserved.into_blob()));
    Ok(())
}

// Appends the size and the marks of an item as a line, and its value as another.
fn append_value(
    out: &mut Blob,
    key: &[u8],
    letters: &[u8],
    found: Found,
    value: &[u8],
) -> Result<(), NoMemory>
    ensures ok { OnOk result (out.new
        ≡ out.old ++ (marked (codes "VA " ++ decimal found.bytes) key.now (Some found) letters.now
        ++ line value.now)) }
    ensures err { OnErr result (out.new ≡ out.old) }
{
    let Some(marks) = marks_length(key, Some(found), letters) else {
        return Err(NoMemory);
    };
    let Some(lines) = marks.checked_add(value.len()) else {
        return Err(NoMemory);
    };
    let Some(more) = lines.checked_add(7 + digits_of(found.bytes as u64)) else {
        return Err(NoMemory);
    };
    let mut reserved = out.reserve(more)?;
    reserved.append(b"VA ");
    reserved.append_number(found.bytes as u64);
    put_marks(&mut reserved, key, Some(found), letters);
    reserved.append(LINE_END);
    reserved.append(value);
    reserved.append(LINE_END);
    drop(mem::replace(out, reserved.into_blob()));
    Ok(())
}
