//! The outputs of a connection's sessions.
ghost use Rattle.std.specs.Prelude.{◌≡◌, ◌<◌, ◌^◌, [], ◌∷◌, ◌++◌, length, OnOk};
ghost use Rattle.zy_capture.specs.Capture.{connection_limit};
ghost use Rattle.zy_capture.specs.Outputs.{MayAdd, with_output};
ghost use Rattle.zy_finish.specs.Left.{session_texts};
ghost use Rattle.zy_finish.specs.Part.{session_ends};

use crate::cutting::{behind, between};
use std::alloc::Global;
use zy_base::{Blob, NoMemory};
use zy_calls::Output;
use zy_capture::Outputs;

// The most ends of sessions that a connection may have.
const END_LIMIT: usize = 1 << 31;

/// Adds the outputs of the next connection's sessions, which are its texts, cut at these ends. In
/// version 1, and if a connection has one session, its bytes are not copied.
pub(crate) fn add_sessions(
    alloc: Global,
    outputs: &mut Outputs,
    conn: u32,
    output: Output,
    ends: &[u64],
) -> Result<(), NoMemory>
    requires next { conn ≡ length outputs.old.sessions }
    requires few { conn < connection_limit }
    ensures version { outputs.new.version ≡ outputs.old.version }
    ensures ok { OnOk result (outputs.new.sessions ≡ outputs.old.sessions
        ++ session_texts (session_ends outputs.old.version ends.now) output.texts ∷ []) }
{
    if outputs.version() == 1 || ends.is_empty() {
        return add(outputs, conn, output.into_bytes());
    }
    if ends.len() >= END_LIMIT {
        drop(output);
        return Err(NoMemory);
    }
    let added = add_parts(alloc, outputs, conn, &output, ends);
    drop(output);
    added
}

// Adds the outputs of the next connection's sessions, of version 2.
fn add_parts(
    alloc: Global,
    outputs: &mut Outputs,
    conn: u32,
    output: &Output,
    ends: &[u64],
) -> Result<(), NoMemory>
    requires version { outputs.old.version ≡ 2 }
    requires next { conn ≡ length outputs.old.sessions }
    requires few { conn < connection_limit }
    requires room { length ends.now < 2 ^ 31 }
    ensures version { outputs.new.version ≡ outputs.old.version }
    ensures ok { OnOk result (outputs.new.sessions
        ≡ outputs.old.sessions ++ session_texts ends.now output.now.texts ∷ []) }
{
    let mut start = 0;
    for end in ends {
        add_copy(alloc, outputs, conn, between(output, start, *end))?;
        start = *end;
    }
    add_copy(alloc, outputs, conn, behind(output, start))?;
    Ok(())
}

// Adds a copy of the bytes of the next session.
fn add_copy(alloc: Global, outputs: &mut Outputs, conn: u32, bytes: &[u8]) -> Result<(), NoMemory>
    requires next { MayAdd outputs.old conn }
    ensures version { outputs.new.version ≡ outputs.old.version }
    ensures ok { OnOk result (outputs.new ≡ with_output outputs.old conn bytes.now) }
{
    let copy = Blob::copy_of(alloc, bytes)?;
    add(outputs, conn, copy)
}

// Adds the bytes of the next session.
fn add(outputs: &mut Outputs, conn: u32, bytes: Blob) -> Result<(), NoMemory>
    requires next { MayAdd outputs.old conn }
    ensures version { outputs.new.version ≡ outputs.old.version }
    ensures ok { OnOk result (outputs.new ≡ with_output outputs.old conn bytes) }
{
    match outputs.add(conn, bytes) {
        Ok(()) => Ok(()),
        Err((bytes, e)) => {
            drop(bytes);
            Err(e)
        }
    }
}
