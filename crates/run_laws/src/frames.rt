//! Laws of streams and of their frames.
ghost use Rattle.std.specs.Prelude.{◌≡◌, ◌<◌, ◌≤◌, ◌+◌, ◌↔◌, ◌⊎◌, ℕ, true, false, List, [], ◌∷◌, ◌++◌, map, codes};
ghost use Rattle.std.specs.List.{AllByRecursion};
ghost use Rattle.mc_calls.specs.Shard.{value_limit};
ghost use Rattle.mc_parse.specs.declared.command.Command.{Command};
ghost use Rattle.mc_parse.specs.declared.verb.Verb.TheVariants as Verbs;
ghost use Rattle.mc_parse.specs.declared.error_line.ErrorLine.TheVariants as Errors;
ghost use Rattle.zy_frame.specs.declared.frame_kind.FrameKind.{FrameKind};
ghost use Rattle.zy_frame.specs.declared.frame_kind.FrameKind.TheVariants as Kinds;
ghost use Rattle.zy_frame.specs.Line.{chomped, line_feed};
ghost use Rattle.zy_frame.specs.Frame.{IsFrameText, frame_of, command_of};
ghost use Rattle.run_laws.specs.TextKinds.{IsQuitLine, IsLongText, IsLineText, IsBlockText, BeginsWithQuit};
ghost use Rattle.zy_frame.specs.Cut.{Splits, cut_of, frames_of, commands_of, meets_quit, joined};
ghost use Rattle.run_laws.specs.Pieces.{Fed, GivesEach, fed_bytes, fed_frames};

/// No frame text is a proper prefix of another.
#[tactic(auto, using(crate::proofs::CutLemmas::no_proper_prefix))]
pub fn no_frame_text_is_a_proper_prefix()
    ensures law { (text more : List ℕ) → IsFrameText text → IsFrameText (text ++ more) → more ≡ [] }
{}

/// Each stream has a cut.
pub fn each_stream_has_a_cut()
    ensures law { (stream : List ℕ) → Splits stream (cut_of stream).pieces (cut_of stream).rest }
{}

/// No stream has two cuts.
pub fn no_stream_has_two_cuts()
    ensures law { (stream : List ℕ) (pieces others : List (List ℕ)) (rest left : List ℕ)
        → Splits stream pieces rest → Splits stream others left → (pieces ≡ others) × (rest ≡ left) }
{}

/// The pieces of a prefix of a stream are a prefix of its pieces.
#[tactic(auto, using(crate::proofs::CutLemmas::pieces_first))]
pub fn pieces_of_a_prefix_come_first()
    ensures law { (stream more : List ℕ) (pieces others : List (List ℕ)) (rest left : List ℕ)
        → Splits stream pieces rest → Splits (stream ++ more) others left
        → (later : List (List ℕ)) × (others ≡ pieces ++ later) }
{}

/// The frames of a prefix of a stream are a prefix of its frames.
#[tactic(auto, using(zy_frame::proofs::CutLaws::frames_first))]
pub fn frames_of_a_prefix_come_first()
    ensures law { (stream more : List ℕ)
        → (later : List FrameKind) × (frames_of (stream ++ more) ≡ frames_of stream ++ later) }
{}

/// A quit line and all that comes after it are in the rest.
#[tactic(auto, using(crate::proofs::CutLemmas::quit_rest))]
pub fn a_quit_line_begins_the_rest()
    ensures law { (pieces : List (List ℕ)) (line after : List ℕ) → AllByRecursion IsFrameText pieces → IsQuitLine line
        → Splits (joined pieces ++ (line ++ line_feed ∷ after)) pieces (line ++ line_feed ∷ after) }
{}

/// A quit line is met if and only if the rest begins with one.
pub fn quit_is_met_where_the_rest_begins_with_it()
    ensures law { (stream : List ℕ) (pieces : List (List ℕ)) (rest : List ℕ) → Splits stream pieces rest
        → (meets_quit stream ≡ true) ↔ BeginsWithQuit rest }
{}

/// The empty stream has no frame, and no quit line.
pub fn the_empty_stream_has_no_frame()
    ensures frames { frames_of [] ≡ [] }
    ensures quit { meets_quit [] ≡ false }
{}

/// No frame comes after a quit line.
pub fn no_frame_comes_after_quit()
    ensures frames { (stream more : List ℕ) → meets_quit stream ≡ true
        → frames_of (stream ++ more) ≡ frames_of stream }
    ensures quit { (stream more : List ℕ) → meets_quit stream ≡ true
        → meets_quit (stream ++ more) ≡ true }
{}

/// The frames of a stream are those of the pieces of its cut.
#[tactic(auto, using(zy_frame::proofs::CutLaws::frames_of_splits))]
pub fn frames_are_those_of_the_cut()
    ensures law { (stream : List ℕ) (pieces : List (List ℕ)) (rest : List ℕ) → Splits stream pieces rest
        → frames_of stream ≡ map frame_of pieces }
{}

/// The commands of a stream are the meanings of the pieces of its cut.
#[tactic(auto, using(zy_frame::proofs::CutLaws::commands_of_splits))]
pub fn commands_are_those_of_the_cut()
    ensures law { (stream : List ℕ) (pieces : List (List ℕ)) (rest : List ℕ) → Splits stream pieces rest
        → commands_of stream ≡ map (λ piece. command_of (frame_of piece)) pieces }
{}

/// The commands of a prefix of a stream are a prefix of its commands.
#[tactic(auto, using(zy_frame::proofs::CutLaws::commands_first))]
pub fn commands_of_a_prefix_come_first()
    ensures law { (stream more : List ℕ)
        → (later : List Command) × (commands_of (stream ++ more) ≡ commands_of stream ++ later) }
{}

/// However a stream is cut into pieces, all of them together give its frames.
#[tactic(auto, using(crate::proofs::CutLemmas::given_by_all))]
pub fn pieces_give_the_frames_of_the_stream()
    ensures law { (pieces : List Fed) → GivesEach [] pieces
        → fed_frames pieces ≡ frames_of (fed_bytes pieces) }
{}

/// A frame text is a line that is too long, a line that takes no block, or a storage line with its
/// block.
pub fn frame_texts_are_of_three_kinds()
    ensures law { (text : List ℕ)
        → IsFrameText text ↔ (IsLongText text ⊎ IsLineText text ⊎ IsBlockText text) }
{}

/// Each kind of frame text has this frame.
pub fn each_kind_of_frame_text_has_its_frame()
    ensures long { (text : List ℕ) (t : IsLongText text) → frame_of text ≡ Kinds.Long }
    ensures line { (text : List ℕ) (t : IsLineText text)
        → frame_of text ≡ Kinds.Line (chomped t.line) }
    ensures block { (text : List ℕ) (t : IsBlockText text) → t.size ≤ value_limit
        → frame_of text ≡ Kinds.Block (chomped t.line) t.block }
    ensures large { (text : List ℕ) (t : IsBlockText text) → value_limit < t.size
        → frame_of text ≡ Kinds.Large (chomped t.line) }
{}

/// Example streams, and their frames: blocks with line ends and commands in them, faulty lines, and
/// streams that end within a frame.
#[tactic(auto, unfolding(zy_frame::specs::Cut::cut_of, zy_frame::specs::Cut::frames_of, mc_parse::specs::Words::words, mc_parse::specs::Need::need))]
pub fn worked_frames()
    ensures lines { frames_of (codes "get a\r\nset k 0 0 5\r\na\nb\r\n\r\nget b\n\r\n\n")
        ≡ Kinds.Line (codes "get a") ∷ Kinds.Block (codes "set k 0 0 5") (codes "a\nb\r\n\r\n")
        ∷ Kinds.Line (codes "get b") ∷ Kinds.Line [] ∷ Kinds.Line [] ∷ [] }
    ensures blocks { frames_of (codes "set k 0 0 0\r\n\r\nset k 0 0 7 noreply\r\nquit\r\nx\r\nincr k 1\r")
        ≡ Kinds.Block (codes "set k 0 0 0") (codes "\r\n")
        ∷ Kinds.Block (codes "set k 0 0 7 noreply") (codes "quit\r\nx\r\n") ∷ [] }
    ensures faulty { frames_of (codes "set k 0 0 x\r\nset k 0 0 2\r\nabXXcas k 0 0 1 9\r\na\r\nno\r\r\n")
        ≡ Kinds.Line (codes "set k 0 0 x") ∷ Kinds.Block (codes "set k 0 0 2") (codes "abXX")
        ∷ Kinds.Block (codes "cas k 0 0 1 9") (codes "a\r\n") ∷ Kinds.Line (codes "no\r") ∷ [] }
    ensures quit { frames_of (codes "version\r\nquit\r\nget a\r\nset k 0 0 1\r\na\r\n")
        ≡ Kinds.Line (codes "version") ∷ [] }
    ensures unended { frames_of (codes "get aaaaaaaaaa\r") ≡ [] }
    ensures awaited { frames_of (codes "set k 0 0 40\r\nget a\r\nget b\r\n") ≡ [] }
    ensures vast { frames_of (codes "set k 0 0 4294967295\r\nget a\r\n") ≡ [] }
{}

/// Example quit lines.
#[tactic(auto, unfolding(zy_frame::specs::Cut::cut_of, zy_frame::specs::Cut::meets_quit, mc_parse::specs::Words::words, mc_parse::specs::Need::need))]
pub fn worked_quit_lines()
    ensures met { meets_quit (codes "get a\r\n quit \r\nget b\r\n") ≡ true }
    ensures unended { meets_quit (codes "get a\r\nquit") ≡ false }
    ensures value { meets_quit (codes "set k 0 0 4\r\nquit\r\nget a\r\n") ≡ false }
    ensures words { meets_quit (codes "quit now\r\n") ≡ false }
{}

/// Example commands: those of a stream, and of frames that are too large and too long.
#[tactic(auto, unfolding(zy_frame::specs::Cut::cut_of, zy_frame::specs::Cut::frames_of, mc_parse::specs::Words::words, mc_parse::specs::Need::need, mc_parse::specs::Meaning::line_command, mc_parse::specs::Meaning::block_command, mc_parse::specs::Meaning::large_command))]
pub fn worked_commands()
    ensures stream { commands_of
        (codes "version\r\nset k 0 0 1\r\nabcdelete k\r\nset k 7 0 1 noreply\r\nv\r\n")
        ≡ Command.Version ∷ Command.Fault Errors.BadChunk false ∷ Command.Delete (codes "k") false
        ∷ Command.Store Verbs.Set (codes "k") 7 (codes "v") true ∷ [] }
    ensures large { command_of (Kinds.Large (codes "set k 0 0 1048577 noreply"))
        ≡ Command.Fault Errors.TooLarge true }
    ensures long { command_of Kinds.Long ≡ Command.Fault Errors.LongLine false }
{}
