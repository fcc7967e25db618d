//! Laws of windows: each is the contract of a function without a body.
ghost use Rattle.std.specs.Prelude.{◌+◌, List, [], ◌∷◌, ◌++◌, ℕ};
ghost use Rattle.zy_capture.specs.declared.record.Record.{Record};
ghost use Rattle.zy_capture.specs.Capture.{IsCapture};
ghost use Rattle.zy_verdict.specs.Recorded.{Recorded};
ghost use Rattle.zy_items.specs.Standing.{Standing, IsStanding};
ghost use Rattle.zy_verdict.specs.Between.{IsExplainedBetween, IsExplainedBetweenWith};
ghost use Rattle.zy_verdict.specs.Explained.{IsExplained};
ghost use Rattle.window_laws.specs.Joined.{HasConnections, joined_windows, AreOfOneServer, Window, joined_all};
ghost use Rattle.window_laws.specs.Joined.{last_standing, last_recording, all_commands, all_ended};
ghost use Rattle.window_laws.specs.Joined.{AreExplainedFrom};

/// If a window is explained from what its server has at first to what it has then, and the next one
/// from that on, both are explained as one recording, in which the connections of the second are
/// numbered after those of the first, and their numbers add up. Each record of a capture is of one of
/// its connections.
pub fn windows_are_explained_as_one()
    ensures joined { (r next : Recorded) (from between to : Standing) → HasConnections r → AreOfOneServer r next
        → IsStanding from → IsExplainedBetween r from between → IsExplainedBetween next between to
        → IsExplainedBetween (joined_windows r next) from to }
    ensures numbers { (r next : Recorded) (from between to : Standing) (commands ended more more_ended : ℕ)
        → HasConnections r → AreOfOneServer r next → IsStanding from
        → IsExplainedBetweenWith r from between commands ended
        → IsExplainedBetweenWith next between to more more_ended
        → IsExplainedBetweenWith (joined_windows r next) from to (commands + more) (ended + more_ended) }
    ensures capture { (version : ℕ) (r : Recorded) → IsCapture version r.count r.records → HasConnections r }
{}

/// The same of any number of windows, each explained from what the one before it left. So there is
/// one order of all their calls.
pub fn a_chain_of_windows_is_explained()
    ensures joined { (r : Recorded) (from to : Standing) (commands ended : ℕ) (windows : List Window)
        → IsStanding from → IsExplainedBetweenWith r from to commands ended → AreExplainedFrom r to windows
        → IsExplainedBetweenWith (joined_all r windows) from (last_standing to windows)
        (all_commands commands windows) (all_ended ended windows) }
    ensures some { (r : Recorded) (from to : Standing) (commands ended : ℕ) (windows : List Window)
        → IsStanding from → IsExplainedBetweenWith r from to commands ended → AreExplainedFrom r to windows
        → IsExplained (joined_all r windows) }
{}

/// A window more, which is explained from what the last one left, makes the chain longer. These are the
/// clauses of `confirm_between`: it explains a window, and what it leaves is valid.
pub fn a_chain_goes_on()
    ensures more { (r : Recorded) (from : Standing) (windows : List Window) (next : Window)
        → AreExplainedFrom r from windows → HasConnections (last_recording r windows)
        → IsStanding (last_standing from windows) → AreOfOneServer (last_recording r windows) next.recording
        → IsExplainedBetweenWith next.recording (last_standing from windows) next.to next.commands next.ended
        → AreExplainedFrom r from (windows ++ next ∷ []) }
{}
