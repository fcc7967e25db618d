//! The unfinished frame of a framer.
ghost use Rattle.std.specs.Prelude.{◌≡◌, []};
ghost use Rattle.zy_frame.specs.declared.state.State.TheVariants.{Line, Long, Refused};
ghost use Rattle.zy_frame.specs.Steps.{after_line, after_block, waiting};

use crate::wanted::Wanted;
use mc_parse::Need;
use std::alloc::Global;
use std::mem;
use zy_base::{Blob, VALUE_LIMIT};

// The unfinished frame of a framer. Lines are kept with the carriage return at their end, if they
// have one.
#[derive(Drop)]
pub(crate) enum State {
    // A line: its bytes so far.
    Line { kept: Blob },
    // A line that is too long.
    Long,
    // A block: its bytes so far.
    Block { wanted: Wanted, block: Blob },
    // A block that is too large.
    Large { wanted: Wanted },
    // What follows a quit line.
    Quit,
    // What follows after a failed allocation.
    Refused,
}

// Goes on in another state.
pub(crate) fn put(state: &mut State, next: State)
    ensures value { state.new ≡ next }
{
    drop(mem::replace(state, next));
}

// Enters the state after a failed allocation. It is never inlined, so that a step clears no room for this state.
#[inline(never)]
pub(crate) fn refuse(state: &mut State)
    ensures value { state.new ≡ Refused }
{
    put(state, State::Refused);
}

// Goes on in a line that is too long. It is never inlined for the same reason.
#[inline(never)]
pub(crate) fn go_on_long(state: &mut State)
    ensures value { state.new ≡ Long }
{
    put(state, State::Long);
}

// Begins a line.
pub(crate) fn begin_line(alloc: Global, state: &mut State)
    ensures value { state.new ≡ Line [] }
{
    put(
        state,
        State::Line {
            kept: Blob::new(alloc),
        },
    );
}

// Goes on after a line with this need: with the next line, with what comes after quit, or with its
// block.
pub(crate) fn take_line(alloc: Global, state: &mut State, need: Need)
    ensures value { state.new ≡ after_line need state.old }
{
    match need {
        Need::Nothing => {}
        Need::Quit => put(state, State::Quit),
        Need::Block { bytes } => {
            if let State::Line { kept } = state {
                let line = mem::replace(kept, Blob::new(alloc));
                put(state, wait_for_block(alloc, line, bytes));
            }
        }
    }
}

// Makes the state after a storage line.
fn wait_for_block(alloc: Global, line: Blob, size: u32) -> State
    ensures value { result ≡ waiting line size }
{
    let wanted = Wanted {
        line,
        size,
        left: size as usize + 2,
    };
    if size > VALUE_LIMIT {
        return State::Large { wanted };
    }
    State::Block {
        wanted,
        block: Blob::new(alloc),
    }
}

// Begins a line, if the block has come whole.
pub(crate) fn end_block(alloc: Global, state: &mut State)
    ensures value { state.new ≡ after_block state.old }
{
    let left = match state {
        State::Block { wanted, block: _ } => wanted.left,
        State::Large { wanted } => wanted.left,
        _ => return,
    };
    if left == 0 {
        begin_line(alloc, state);
    }
}
