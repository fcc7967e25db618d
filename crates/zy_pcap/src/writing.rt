//! The writer of the capture of recorded packets.
ghost use Rattle.std.specs.Prelude.{◌≡◌, ◌+◌, ◌<◌, ◌≤◌, ◌^◌, length};
ghost use Rattle.zy_base.specs.Outside.{Writes};
ghost use Rattle.zy_capture.specs.Replies.{numbered_from};
ghost use Rattle.zy_pcap.specs.Session.{longest};
ghost use Rattle.zy_pcap.specs.Held.{byte_held};
ghost use Rattle.zy_pcap.specs.Made.{capture_of};
ghost use Rattle.zy_pcap.specs.Texts.{start_text, close_text, segment_head, segment_text, stream_text, text_of_session};
ghost use Rattle.zy_pcap.specs.Texts.{kept_text, kept_connection};

use crate::flows::Flows;
use crate::kept_flow::KeptFlow;
use crate::kept_session::KeptSession;
use crate::kept_stream::KeptStream;
use zy_base::{Failed, Sink, write_pieces, write_whole};

const SEGMENT: usize = 65_535;

/// Writes the capture of the streams, in version 2. Takes no memory.
///
/// `Failed` comes only if the sink's count of faults rose, or is at its maximum; then the
/// sink has grown by a prefix of that text.
pub fn write_flows<K: Sink>(sink: &mut K, flows: &Flows) -> Result<(), Failed>
    ensures writes { Writes K.holds K.faults K.finishes sink.old sink.new result (capture_of flows.now) }
{
    let all = flows.kept();
    write_start(sink, flows.count())?;
    write_connections(sink, all)?;
    write_whole(sink, b"E")
}

// Writes the beginning.
#[tactic(auto, unfolding(crate::specs::Texts::start_text))]
fn write_start<K: Sink>(sink: &mut K, count: u32) -> Result<(), Failed>
    ensures writes { Writes K.holds K.faults K.finishes sink.old sink.new result (start_text count) }
{
    let count = count.to_be_bytes();
    write_pieces(sink, &[b"ZYGCAP2\n", &count])
}

// Writes the records of all connections.
fn write_connections<K: Sink>(sink: &mut K, flows: &[Option<KeptFlow>]) -> Result<(), Failed>
    requires few { length flows.now ≤ 4096 }
    ensures writes { Writes K.holds K.faults K.finishes sink.old sink.new result
        (numbered_from kept_connection 0 flows.now) }
{
    for conn in 0..flows.len() as u32 {
        write_connection(sink, conn, &flows[conn as usize])?;
    }
    Ok(())
}

// Writes the records of a connection, which may have been given to no flow.
fn write_connection<K: Sink>(sink: &mut K, conn: u32, flow: &Option<KeptFlow>) -> Result<(), Failed>
    ensures writes { Writes K.holds K.faults K.finishes sink.old sink.new result
        (kept_connection conn flow.now) }
{
    match flow {
        Some(flow) => write_sessions(sink, conn, flow.sessions.as_slice()),
        None => Ok(()),
    }
}

// Writes the records of a flow's sessions.
fn write_sessions<K: Sink>(sink: &mut K, conn: u32, sessions: &[KeptSession]) -> Result<(), Failed>
    ensures writes { Writes K.holds K.faults K.finishes sink.old sink.new result
        (numbered_from (kept_text conn) 0 sessions.now) }
{
    for session in 0..sessions.len() {
        write_session(sink, conn, session, &sessions[session].bytes)?;
    }
    Ok(())
}

// Writes the records of a session, after a close record if it is not the first one.
fn write_session<K: Sink>(
    sink: &mut K,
    conn: u32,
    session: usize,
    stream: &KeptStream,
) -> Result<(), Failed>
    ensures writes { Writes K.holds K.faults K.finishes sink.old sink.new result
        (text_of_session conn session (longest (byte_held stream.now))) }
{
    if session == 0 {
        return write_stream(sink, conn, stream.stream());
    }
    write_close(sink, conn)?;
    write_stream(sink, conn, stream.stream())
}

// Writes a close record.
#[tactic(auto, unfolding(crate::specs::Texts::close_text))]
fn write_close<K: Sink>(sink: &mut K, conn: u32) -> Result<(), Failed>
    ensures writes { Writes K.holds K.faults K.finishes sink.old sink.new result (close_text conn) }
{
    let number = conn.to_be_bytes();
    write_pieces(sink, &[b"C", &number])
}

// Writes the segments of a stream.
fn write_stream<K: Sink>(sink: &mut K, conn: u32, bytes: &[u8]) -> Result<(), Failed>
    ensures writes { Writes K.holds K.faults K.finishes sink.old sink.new result
        (stream_text conn bytes.now) }
{
    let mut at = 0;
    while at < bytes.len() {
        let end = bytes.len().min(at + SEGMENT);
        write_segment(sink, conn, &bytes[at..end])?;
        at = end;
    }
    Ok(())
}

// Writes a segment.
fn write_segment<K: Sink>(sink: &mut K, conn: u32, bytes: &[u8]) -> Result<(), Failed>
    requires few { length bytes.now ≤ 65535 }
    ensures writes { Writes K.holds K.faults K.finishes sink.old sink.new result
        (segment_text conn bytes.now) }
{
    write_head(sink, conn, bytes.len() as u32)?;
    write_whole(sink, bytes)
}

// Writes the beginning of a segment.
#[tactic(auto, unfolding(crate::specs::Texts::segment_head))]
fn write_head<K: Sink>(sink: &mut K, conn: u32, size: u32) -> Result<(), Failed>
    ensures writes { Writes K.holds K.faults K.finishes sink.old sink.new result (segment_head conn size) }
{
    let number = conn.to_be_bytes();
    let length = size.to_be_bytes();
    write_pieces(sink, &[b"S", &number, &length])
}
