//! Laws over the definitions of this crate.
ghost use Rattle.std.specs.Prelude.{◌≡◌, ℕ, List};
ghost use Rattle.zy_capture.specs.Outputs.{AllOutputs};
ghost use Rattle.zy_journal.specs.declared.journal.Journal.{Journal};
ghost use Rattle.zy_input.specs.declared.stop.Refusal.{Refusal};
ghost use Rattle.zy_input.specs.Parts.{IsMadeOfParts, HasPartFault};
ghost use Rattle.zy_input.specs.Recording.{IsMadeOfRecording, HasRecordingFault};
ghost use Rattle.zy_input.specs.Window.{IsMadeOfWindow, HasWindowFault};
ghost use Rattle.zy_items.specs.Standing.{Standing};

/// An input that has parts has no fault.
pub fn parts_have_no_fault()
    ensures none { (text : List ℕ) (streams : List (List (List ℕ))) (journal : Journal)
        (outputs : AllOutputs) (refusal : Refusal)
        → IsMadeOfParts text streams journal outputs → ¬ HasPartFault text refusal }
{}

/// An input has at most one first fault.
pub fn there_is_one_part_fault()
    ensures same { (text : List ℕ) (first second : Refusal)
        → HasPartFault text first → HasPartFault text second → first ≡ second }
{}

/// A text that is a recording has no fault as one.
pub fn recordings_have_no_fault()
    ensures none { (text : List ℕ) (streams : List (List (List ℕ))) (outputs : AllOutputs) (refusal : Refusal)
        → IsMadeOfRecording text streams outputs → ¬ HasRecordingFault text refusal }
{}

/// A text has at most one first fault as a recording.
pub fn there_is_one_recording_fault()
    ensures same { (text : List ℕ) (first second : Refusal)
        → HasRecordingFault text first → HasRecordingFault text second → first ≡ second }
{}

/// A text that is a window has no fault as one.
pub fn windows_have_no_fault()
    ensures none { (text : List ℕ) (streams : List (List (List ℕ))) (standing : Standing)
        (outputs : AllOutputs) (refusal : Refusal)
        → IsMadeOfWindow text streams standing outputs → ¬ HasWindowFault text refusal }
{}

/// A text has at most one first fault as a window.
pub fn there_is_one_window_fault()
    ensures same { (text : List ℕ) (first second : Refusal)
        → HasWindowFault text first → HasWindowFault text second → first ≡ second }
{}
