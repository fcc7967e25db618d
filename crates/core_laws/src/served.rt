//! Laws of the result when all is served.
ghost use Rattle.std.specs.Prelude.{◌≡◌, ℕ, ◌<◌, ◌≤◌, true, List, ◌++◌, length, take, drop, None};
ghost use Rattle.std.specs.List.{concat};
ghost use Rattle.mc_calls.specs.declared.entry.Entry.{Entry};
ghost use Rattle.mc_calls.specs.Order.{of_connection, IsOrdered};
ghost use Rattle.zy_capture.specs.declared.record.Record.{Record};
ghost use Rattle.zy_rx.specs.Flow.{home_of};
ghost use Rattle.zy_rx.specs.Session.{received_by, streams_of};
ghost use Rattle.zy_feed.specs.Routing.{offered_to};
ghost use Rattle.mc_store.specs.Joined.{Joined, calls_of};
ghost use Rattle.mc_reply.specs.Texts.{texts_of};
ghost use Rattle.zy_run.specs.Commands.{streams_in, commands_in, commands_over};
ghost use Rattle.zy_run.specs.Run.{IsRun};
ghost use Rattle.zy_run.specs.Output.{connection_outputs, all_outputs};
ghost use Rattle.zy_run.specs.Spans.{Spans};
ghost use Rattle.zy_rx.specs.Ring.{Offering};
ghost use Rattle.zy_rx.specs.Feed.{rings_of, sent_by};
ghost use Rattle.zy_core.specs.Share.{Sharing};
ghost use Rattle.zy_core.specs.Core.{Cored};
ghost use Rattle.zy_core.specs.Cores.{identities, homes_of, AreCores, EachSettled};
ghost use Rattle.zy_core.specs.Running.{rings_in};
ghost use Rattle.zy_finish.specs.Shown.{HaveShown};
ghost use Rattle.zy_finish.specs.Received.{AllSent};
ghost use Rattle.zy_finish.specs.Finish.{HaveReceived};
ghost use Rattle.zy_finish.specs.Left.{Left, session_texts, bytes_between, ends_of};
ghost use Rattle.zy_finish.specs.Served.{AreServed, all_holds, all_sent};

/// A connection whose home receives all that it is offered receives the streams of its sessions
/// among the records, followed by the end.
pub fn a_connection_receives_its_streams()
    ensures streams { (cores core conn : ℕ) (records : List Record) → home_of cores conn ≡ core
        → streams_of (received_by conn (offered_to cores core records)) ≡ streams_in records conn }
    ensures ended { (cores core conn : ℕ) (records : List Record)
        → (received_by conn (offered_to cores core records)).ended ≡ true }
{}

/// Each home has received all that its core is offered of some records, if each core is settled and was
/// sent just that, and the ends of its receive ring have shown what was sent.
pub fn settled_cores_have_received_what_was_sent()
    ensures received { (shared : Sharing) (cores : List Cored) (inlets : List Offering)
        → AreCores shared (identities cores) → rings_of inlets ≡ rings_in (identities cores)
        → HaveShown inlets cores → EachSettled cores → (records : List Record)
        → AllSent (sent_by inlets) records → HaveReceived (homes_of cores) records }
{}

// ---- outputs

/// The texts of a connection's commands, cut at the ends of its sessions, are their outputs.
pub fn outputs_are_cut_at_the_ends()
    ensures value { (conn : ℕ) (streams : List (List ℕ)) (es : List Entry)
        → 0 < length streams
        → session_texts (ends_of streams) (texts_of (commands_over streams) (of_connection conn es))
        ≡ connection_outputs conn streams es }
    ensures between { (start stop : ℕ) (texts : List (List ℕ)) → start ≤ stop
        → concat (take stop texts) ≡ concat (take start texts) ++ bytes_between start stop texts }
    ensures last { (start : ℕ) (texts : List (List ℕ))
        → concat texts ≡ concat (take start texts) ++ concat (drop start texts) }
{}

// ---- the run

/// If all connections are served and the histories of the store are merged, the merged list is
/// one run of the capture's commands, in order; it has each connection's calls; the holds span the
/// commands, and what was sent is the outputs of the run.
pub fn what_is_served_is_a_run()
    ensures run { (shards count : ℕ) (records : List Record) (left : ℕ → Left) (joined : Joined)
        (es : List Entry) → AreServed shards count records left joined es
        → IsRun shards es count (commands_in records) }
    ensures order { (shards count : ℕ) (records : List Record) (left : ℕ → Left) (joined : Joined)
        (es : List Entry) → AreServed shards count records left joined es → IsOrdered None es }
    ensures calls { (shards count conn : ℕ) (records : List Record) (left : ℕ → Left)
        (joined : Joined) (es : List Entry) → AreServed shards count records left joined es
        → of_connection conn es ≡ calls_of conn joined }
    ensures holds { (shards count : ℕ) (records : List Record) (left : ℕ → Left) (joined : Joined)
        (es : List Entry) → AreServed shards count records left joined es
        → Spans (all_holds count left) count (commands_in records) }
    ensures outputs { (shards count : ℕ) (records : List Record) (left : ℕ → Left)
        (joined : Joined) (es : List Entry) → AreServed shards count records left joined es
        → all_sent count left ≡ all_outputs count (streams_in records) es }
{}
