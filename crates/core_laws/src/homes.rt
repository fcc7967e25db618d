//! Laws of homes and their connections, most of them of the end.
ghost use Rattle.std.specs.Prelude.{◌≡◌, ◌≢◌, ℕ, ◌+◌, List, [], ◌∷◌, ◌++◌, map, true, false, Some, None, slice_get};
ghost use Rattle.mc_calls.specs.declared.entry.Entry.{Entry};
ghost use Rattle.mc_reply.specs.Texts.{texts_of};
ghost use Rattle.zy_rx.specs.declared.rx.Rx.{Rx};
ghost use Rattle.zy_rx.specs.Flow.{home_of};
ghost use Rattle.zy_rx.specs.Session.{Sessions, received_by, streams_of};
ghost use Rattle.zy_shuffle.specs.Run.{was_idle};
ghost use Rattle.zy_shuffle.specs.Pass.{PublishMakes};
ghost use Rattle.zy_conn.specs.Kept.{KeepsCommands};
ghost use Rattle.zy_conn.specs.Block.{Blocked};
ghost use Rattle.zy_home.specs.Link.{Link, LinkStands, conn_of, ends_from};
ghost use Rattle.zy_home.specs.Idle.{IsIdleWith, due_mark, mark_in};
ghost use Rattle.zy_home.specs.Finish.{ConnEnd, commands_received};
ghost use Rattle.core_laws.specs.Homes.{cut_at, outputs_from, IsInHand, AreFinished};
ghost use Rattle.zy_home.specs.Own.{own_conns};
ghost use Rattle.zy_home.specs.End.{EndedOutput, blocks_in, ended_of};
ghost use Rattle.zy_home.specs.Home.{Homed, HomeStands, IsSoundHome, is_settled};
ghost use Rattle.zy_home.specs.Place.{ComesTo, Forwards};

/// A connection whose block is idle has finished what it received: each expected call was made in
/// order, its output has the text of each command, and its sessions end after their commands.
pub fn an_idle_connection_is_finished()
    ensures value { (block : Blocked) (l : Link) (s : Sessions) → KeepsCommands block.work
        → IsIdleWith block.work l → mark_in block ≡ due_mark l → LinkStands l s
        → ConnEnd block.work.table.slots block.work.calls s l.output l.ends }
{}

/// The texts of a connection's commands, cut at the ends of its closed sessions, are those of each
/// session.
pub fn texts_are_cut_at_the_ends_of_sessions()
    ensures value { (s : Sessions) (entries : List Entry)
        → cut_at 0 (ends_from 0 s.closed) (texts_of (commands_received s) entries)
        ≡ outputs_from 0 (streams_of s) entries }
{}

/// The connections of a core, when the number of connections grows by one.
pub fn own_connections_come_in_turn()
    ensures none { (core cores : ℕ) → own_conns core cores 0 ≡ [] }
    ensures own { (core cores count : ℕ) → home_of cores count ≡ core
        → own_conns core cores (count + 1) ≡ own_conns core cores count ++ count ∷ [] }
    ensures others { (core cores count : ℕ) → home_of cores count ≢ core
        → own_conns core cores (count + 1) ≡ own_conns core cores count }
{}

/// A settled home hands out the block and the output of each of its connections, by rising number,
/// and each has finished what it received, for any items that the home may have received.
pub fn a_settled_home_is_finished()
    ensures conns { (h : Homed) → IsSoundHome h
        → map (λ (end : EndedOutput). end.output.conn) (map ended_of h.links)
        ≡ own_conns h.core h.cores h.count }
    ensures finished { (h : Homed) (items : List Rx) → IsSoundHome h → is_settled h ≡ true
        → HomeStands h items
        → AreFinished h.pass.label (λ conn. received_by conn items) (blocks_in h.blocks) (map ended_of h.links) }
{}

/// If no allocation failed in a home, a connection whose block is in the home's hand has finished
/// what it received. So the block of a connection with an unfinished command is away.
pub fn a_connection_in_the_hand_is_finished()
    ensures value { (h : Homed) (p : ℕ) (b : Blocked) (l : Link) (items : List Rx) → IsSoundHome h
        → h.refused ≡ false → HomeStands h items → IsInHand h p b l → KeepsCommands b.work
        → ConnEnd b.work.table.slots b.work.calls (received_by (conn_of l) items) l.output l.ends }
{}

/// An idle connection that gets a frame arrives. If no allocation failed in a home, a block in its
/// hand is idle. If an item then came for the block's connection, and the block is away after it,
/// the home's pass made the events by which an idle connection is published.
pub fn an_idle_connection_that_gets_a_frame_arrives()
    ensures idle { (h : Homed) (p : ℕ) (b : Blocked) (l : Link) → IsSoundHome h → h.refused ≡ false → IsInHand h p b l
        → IsIdleWith b.work l }
    ensures arrives { (h h' : Homed) (item : Rx) (place : ℕ) (block : Blocked) → Forwards h h' item
        → ComesTo h place item → slice_get h.blocks place ≡ Some (Some block)
        → slice_get h'.blocks place ≡ Some None → PublishMakes was_idle mark_in place h.pass h'.pass }
{}
