//! Queues of frames.
ghost use Rattle.std.specs.Prelude.{◌≡◌, [], ◌∷◌, ◌++◌, OnOk, OnErr};

use crate::frame::Frame;
use zy_base::{NoMemory, Queue};

/// A queue of frames. Contracts see it as the list of its frames, first come, first.
pub type Frames = Queue<Frame>;

// Appends a frame. If allocation fails, nothing has changed.
#[inline(always)]
pub(crate) fn append(frames: &mut Frames, frame: Frame) -> Result<(), NoMemory>
    ensures ok { OnOk result (frames.new ≡ frames.old ++ frame ∷ []) }
    ensures err { OnErr result (frames.new ≡ frames.old) }
{
    match frames.push(frame) {
        Ok(()) => Ok(()),
        Err((frame, e)) => {
            drop(frame);
            Err(e)
        }
    }
}
