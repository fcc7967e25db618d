//! The text of a command, to be written.
ghost use Rattle.std.specs.Prelude.{[], ◌∷◌, ⊤};
ghost use Rattle.mc_parse.specs.declared.command.Command.TheVariants.{Get};
ghost use Rattle.mc_reply.specs.Text.{text};
ghost use Rattle.mc_reply.specs.Answers.{AnswerCommand};

use mc_calls::{CallReply, Replies};
use mc_parse::{Command, OneKey};
use mc_reply::{got_text, reply_text};
use zy_base::{Blob, NoMemory};
use zy_calls::Writes;

/// A command with the replies of all its calls.
#[derive(Drop)]
pub(crate) struct Answer<'a> {
    pub(crate) command: &'a Command,
    pub(crate) replies: &'a Replies,
}

impl Writes for Answer<'_> {
    ghost ready = { λ answer. AnswerCommand answer.command.now answer.replies.now };

    ghost text = { λ answer. text answer.command.now answer.replies.now };

    fn write(&self, out: &mut Blob) -> Result<(), NoMemory> {
        reply_text(out, self.command, self.replies)
    }
}

/// A retrieval of one key with its reply.
#[derive(Drop)]
pub(crate) struct OneAnswer<'a> {
    pub(crate) got: &'a OneKey,
    pub(crate) reply: &'a CallReply,
}

impl Writes for OneAnswer<'_> {
    ghost ready = { λ answer. ⊤ };

    ghost text = { λ answer. text (Get (answer.got.now.key ∷ []) answer.got.now.unique) (answer.reply.now ∷ []) };

    fn write(&self, out: &mut Blob) -> Result<(), NoMemory> {
        got_text(out, &self.got.key, self.got.unique, self.reply)
    }
}
