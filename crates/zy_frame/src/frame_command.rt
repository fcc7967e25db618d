//! The command of a frame.
ghost use Rattle.std.specs.Prelude.{◌≡◌, ◌≢◌, ◌≤◌, ◌+◌, ℕ, Bool, false, List, [], ◌∷◌, length, take, drop, IfOk, IfErr, IfSome, IfNone};
ghost use Rattle.mc_parse.specs.Calls.{IsOnShard};
ghost use Rattle.mc_parse.specs.OneSet.{is_set, IsSetBy};
ghost use Rattle.mc_parse.specs.declared.command.Command.TheVariants.{Get};
ghost use Rattle.zy_frame.specs.Frame.{command_of};

use crate::form::Form;
use crate::frame::Frame;
use mc_parse::{
    Command, ErrorLine, NoSet, OneKey, OneSet, one_key, one_set, parse_large, parse_read_block,
    parse_read_in,
};
use std::alloc::Global;
use zy_base::{Blob, NoMemory};

/// Returns the command of a frame. A block is moved. If allocation fails, the frame
/// is handed back.
pub fn meaning(alloc: Global, frame: Frame) -> Result<Command, (Frame, NoMemory)>
    ensures value { IfOk result (λ command. command ≡ command_of frame) }
    ensures returned { IfErr result (λ e. e.0 ≡ frame) }
{
    let mut room = Vec::new(alloc);
    let command = meaning_in(alloc, frame, &mut room);
    drop(room);
    command
}

/// Returns the same command as `meaning`; a retrieval takes this room for the list of its keys.
pub fn meaning_in(
    alloc: Global,
    frame: Frame,
    room: &mut Vec<Blob>,
) -> Result<Command, (Frame, NoMemory)>
    requires empty { room.old.items ≡ [] }
    ensures value { IfOk result (λ command. command ≡ command_of frame) }
    ensures returned { IfErr result (λ e. e.0 ≡ frame) }
    ensures room { room.new.items ≡ [] }
{
    match command_in(alloc, &frame, room) {
        Ok(command) => {
            drop(frame);
            Ok(command)
        }
        Err(e) => Err((frame, e)),
    }
}

// Returns the command of a frame. Line and block are parts of it.
fn command_in(alloc: Global, frame: &Frame, room: &mut Vec<Blob>) -> Result<Command, NoMemory>
    requires empty { room.old.items ≡ [] }
    ensures value { IfOk result (λ command. command ≡ command_of frame.now) }
    ensures room { room.new.items ≡ [] }
{
    match frame.form {
        Form::Line => parse_read_in(alloc, &frame.bytes, &frame.parsed, room),
        Form::Block => {
            let Halves { line, block } = split(&frame.bytes, frame.line, frame.gap)?;
            let command = parse_read_block(alloc, &line, &frame.parsed, block);
            drop(line);
            match command {
                Ok(command) => Ok(command),
                Err((block, e)) => {
                    drop(block);
                    Err(e)
                }
            }
        }
        Form::Large => Ok(parse_large(frame.bytes.bytes())),
        Form::Long => Ok(Command::Fault {
            line: ErrorLine::LongLine,
            quiet: false,
        }),
    }
}

// The line and the block of a frame.
#[derive(Drop)]
struct Halves {
    line: Blob,
    block: Blob,
}

// Returns the first `line` bytes of a frame, and all but those and `gap` bytes after them. They are
// parts of it.
fn split(bytes: &Blob, line: u32, gap: u8) -> Result<Halves, NoMemory>
    requires within { line + gap ≤ length bytes.now }
    ensures line { IfOk result (λ halves. halves.line ≡ take line bytes.now) }
    ensures block { IfOk result (λ halves. halves.block ≡ drop (line + gap) bytes.now) }
{
    let end = line as usize;
    let line = bytes.part(0, end)?;
    match bytes.part(end + gap as usize, bytes.bytes().len()) {
        Ok(block) => Ok(Halves { line, block }),
        Err(e) => {
            drop(line);
            Err(e)
        }
    }
}

/// Returns the key of a frame that is a retrieval of one key, a part of its line; `None` for any
/// other frame.
#[tactic(auto, using(mc_parse::proofs::OneKeyLemmas::other_block, mc_parse::proofs::OneKeyLemmas::other_large, mc_parse::proofs::OneKeyLemmas::other_long))]
pub fn one_key_of(frame: &Frame) -> Result<Option<OneKey>, NoMemory>
    ensures some { IfOk result (λ found. IfSome found (λ one. command_of frame.now
        ≡ Get (one.key ∷ []) one.unique)) }
    ensures none { IfOk result (λ found. IfNone found ((key : List ℕ) (unique : Bool)
        → command_of frame.now ≢ Get (key ∷ []) unique)) }
{
    match frame.form {
        Form::Line => one_key(&frame.bytes, &frame.parsed),
        _ => Ok(None),
    }
}

/// Makes the call of a frame that is a `set`, on one of `shards` shards; key and value are parts of
/// the frame. If it is another command, or allocation fails, the frame is handed back.
pub fn one_set_of(frame: Frame, shards: u32) -> Result<OneSet, (Frame, NoSet)>
    requires some { 1 ≤ shards }
    ensures value { IfOk result (λ one. IsSetBy shards (command_of frame) one.next one.quiet) }
    ensures within { IfOk result (λ one. IsOnShard shards one.next) }
    ensures returned { IfErr result (λ e. e.0 ≡ frame) }
    ensures other { IfErr result (λ e. e.1 ≡ NoSet.Other → is_set (command_of frame) ≡ false) }
{
    match one_set_in(&frame, shards) {
        Ok(one) => {
            drop(frame);
            Ok(one)
        }
        Err(why) => Err((frame, why)),
    }
}

// Makes the same call, and leaves the frame.
fn one_set_in(frame: &Frame, shards: u32) -> Result<OneSet, NoSet>
    requires some { 1 ≤ shards }
    ensures value { IfOk result (λ one. IsSetBy shards (command_of frame.now) one.next one.quiet) }
    ensures within { IfOk result (λ one. IsOnShard shards one.next) }
    ensures other { IfErr result (λ why. why ≡ NoSet.Other → is_set (command_of frame.now) ≡ false) }
{
    let Form::Block = frame.form else {
        return Err(NoSet::Other);
    };
    let Ok(Halves { line, block }) = split(&frame.bytes, frame.line, frame.gap) else {
        return Err(NoSet::Refused);
    };
    let one = one_set(&line, &frame.parsed, block, shards);
    drop(line);
    match one {
        Ok(one) => Ok(one),
        Err((block, why)) => {
            drop(block);
            Err(why)
        }
    }
}
