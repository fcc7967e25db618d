//! Laws of blocks.
ghost use Rattle.std.specs.Prelude.{◌≡◌, ◌++◌, List, length};
ghost use Rattle.mc_parse.specs.Calls.{due, dues_of};
ghost use Rattle.mc_reply.specs.Texts.{texts_of};
ghost use Rattle.zy_frame.specs.declared.frame_kind.FrameKind.{FrameKind};
ghost use Rattle.zy_conn.specs.Work.{Worked, commands_of_frames, texts_taken};
ghost use Rattle.zy_conn.specs.Kept.{KeepsCommands};
ghost use Rattle.core_laws.specs.Done.{HasDone};

/// Once every frame that was offered was taken and no command is in progress, the calls made are
/// the expected calls of all commands, and the texts taken followed by those that wait are the
/// texts of all of them, each from the replies of its own calls.
pub fn all_commands_are_done()
    ensures calls { (offered : List FrameKind) (work : Worked) → HasDone offered work
        → dues_of work.calls ≡ due work.table.slots work.conn (commands_of_frames offered) }
    ensures texts { (offered : List FrameKind) (work : Worked) → HasDone offered work
        → texts_taken work ++ work.batch ≡ texts_of (commands_of_frames offered) work.calls }
    ensures count { (offered : List FrameKind) (work : Worked) → HasDone offered work
        → work.finished ≡ length offered }
{}

/// Each finished command has one text, which was taken or waits.
pub fn each_finished_command_has_one_text()
    ensures count { (work : Worked) → KeepsCommands work
        → length (texts_taken work ++ work.batch) ≡ work.finished }
    ensures taken { (work : Worked) → KeepsCommands work → length (texts_taken work) ≡ work.shown }
{}
