//! A law of the texts of the profile.
ghost use Rattle.std.specs.Prelude.{List};
ghost use Rattle.mc_calls.specs.declared.call_reply.CallReply.{CallReply};
ghost use Rattle.mc_parse.specs.declared.command.Command.{Command};
ghost use Rattle.mc_reply.specs.Text.{text};
ghost use Rattle.mc_answers.specs.Answer.{IsAnswer};
ghost use Rattle.mc_answers.specs.Said.{FitsCommand};
ghost use Rattle.judge_laws.specs.Profile.{said_by};

/// The text of the profile for a command and replies that it may get is one with which a memcached
/// may answer.
pub fn the_profile_has_answers()
    ensures answer { (command : Command) (replies : List CallReply) → FitsCommand command (said_by command replies)
        → IsAnswer command (said_by command replies) (text command replies) }
{}
