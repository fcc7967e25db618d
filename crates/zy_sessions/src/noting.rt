//! Noting the frames of a session.
ghost use Rattle.std.specs.Prelude.{◌≡◌, ◌∷◌, ◌++◌, [], length, map, replicate, OnOk, Some};
ghost use Rattle.zy_frame.specs.Frame.{command_of};
ghost use Rattle.zy_sessions.specs.Noting.{AddsKey, AddsKeys};
ghost use Rattle.zy_verdict.specs.Losses.{key_with_exptime};

use crate::exptime::key_with_exptime;
use crate::session::Session;
use mc_parse::Command;
use memchr::memchr;
use std::alloc::Global;
use std::collections::BTreeSet;
use zy_base::{Blob, NoMemory};
use zy_frame::{Frame, Frames, Parts, meaning};

/// Appends the commands of these frames, which were sent at this moment, to those of a session.
pub(crate) fn note_frames(
    alloc: Global,
    session: &mut Session,
    lasting: &mut BTreeSet<Blob>,
    mut frames: Frames,
    moment: u32,
) -> Result<(), NoMemory>
    ensures commands { OnOk result (session.new.commands.items
        ≡ session.old.commands.items ++ map command_of frames) }
    ensures sent { OnOk result (session.new.sent.items
        ≡ session.old.sent.items ++ replicate (length frames) moment) }
    ensures marks { OnOk result (session.new.marks ≡ session.old.marks) }
    ensures lasting { OnOk result (AddsKeys lasting.old lasting.new frames) }
{
    while let Some(frame) = frames.next() {
        if let Err(e) = note_frame(alloc, session, lasting, frame, moment) {
            drop(frames);
            return Err(e);
        }
    }
    drop(frames);
    Ok(())
}

// Appends the command of a frame.
fn note_frame(
    alloc: Global,
    session: &mut Session,
    lasting: &mut BTreeSet<Blob>,
    frame: Frame,
    moment: u32,
) -> Result<(), NoMemory>
    ensures commands { OnOk result (session.new.commands.items
        ≡ session.old.commands.items ++ command_of frame ∷ []) }
    ensures sent { OnOk result (session.new.sent.items ≡ session.old.sent.items ++ moment ∷ []) }
    ensures marks { OnOk result (session.new.marks ≡ session.old.marks) }
    ensures lasting { OnOk result (AddsKey lasting.old lasting.new (key_with_exptime frame)) }
{
    if let Err(e) = note_key(alloc, lasting, &frame) {
        drop(frame);
        return Err(e);
    }
    if session.other.is_none() && is_other(&frame) {
        session.other = Some(session.commands.len());
    }
    match meaning(alloc, frame) {
        Ok(command) => note_command(session, command, moment),
        Err((frame, e)) => {
            drop(frame);
            Err(e)
        }
    }
}

// Appends a command, which was sent at this moment.
fn note_command(session: &mut Session, command: Command, moment: u32) -> Result<(), NoMemory>
    ensures commands { OnOk result (session.new.commands.items
        ≡ session.old.commands.items ++ command ∷ []) }
    ensures sent { OnOk result (session.new.sent.items ≡ session.old.sent.items ++ moment ∷ []) }
    ensures marks { OnOk result (session.new.marks ≡ session.old.marks) }
{
    match session.commands.push(command) {
        Ok(()) => {
            session.sent.push(moment)?;
            Ok(())
        }
        Err(refused) => {
            drop(refused.value);
            Err(NoMemory)
        }
    }
}

// Adds the key to which a frame gives an exptime other than 0, if it does.
fn note_key(alloc: Global, lasting: &mut BTreeSet<Blob>, frame: &Frame) -> Result<(), NoMemory>
    ensures lasting { OnOk result (AddsKey lasting.old lasting.new (key_with_exptime frame.now)) }
{
    match key_with_exptime(frame) {
        Some(key) => add_key(alloc, lasting, key),
        None => Ok(()),
    }
}

// Adds a key.
fn add_key(alloc: Global, lasting: &mut BTreeSet<Blob>, key: &[u8]) -> Result<(), NoMemory>
    ensures lasting { OnOk result (AddsKey lasting.old lasting.new (Some key.now)) }
{
    let key = Blob::copy_of(alloc, key)?;
    match lasting.insert(key) {
        Ok(_) => Ok(()),
        Err(refused) => {
            drop(refused.value);
            Err(NoMemory)
        }
    }
}

// Checks whether a server may take the command of a frame in a way that is not followed: its line
// has a byte 0, or announces more than 1,048,576 bytes.
fn is_other(frame: &Frame) -> bool {
    match frame.parts() {
        Parts::Line { line } | Parts::Block { line, .. } => has_zero(line),
        Parts::Large { .. } => true,
        Parts::Long => false,
    }
}

// Checks whether a byte is 0.
fn has_zero(line: &[u8]) -> bool {
    memchr(0, line).is_some()
}
