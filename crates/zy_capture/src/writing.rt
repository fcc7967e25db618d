//! The writer of replies files.
ghost use Rattle.std.specs.Prelude.{◌≡◌, ◌⊎◌, ◌<◌, ◌≤◌, length};
ghost use Rattle.zy_base.specs.Outside.{Writes};
ghost use Rattle.zy_capture.specs.Streams.{sessions_of};
ghost use Rattle.zy_capture.specs.Replies.{replies_magic, output_text, connection_text, numbered_from, replies_bytes};

use crate::outputs::Outputs;
use zy_base::{Failed, Sink, write_pieces, write_whole};

/// Writes the replies file of the outputs, in their version. Takes no memory.
///
/// Answers `Failed` only if the sink's count of faults rose, or is at its largest value; then the
/// sink has grown by a prefix of that text.
pub fn write_replies<K: Sink>(sink: &mut K, outputs: &Outputs) -> Result<(), Failed>
    ensures writes { Writes K.holds K.faults K.finishes sink.old sink.new result (replies_bytes outputs.now) }
{
    write_whole(sink, magic_of(outputs.version()))?;
    write_connections(sink, outputs)?;
    write_whole(sink, b"E")
}

// Returns the magic of a version.
fn magic_of(version: u32) -> &'static [u8]
    requires version { (version ≡ 1) ⊎ (version ≡ 2) }
    ensures value { result.now ≡ replies_magic version }
{
    if version == 1 {
        b"ZYGREP1\n"
    } else {
        b"ZYGREP2\n"
    }
}

// Writes the records of all connections.
fn write_connections<K: Sink>(sink: &mut K, outputs: &Outputs) -> Result<(), Failed>
    ensures writes { Writes K.holds K.faults K.finishes sink.old sink.new result
        (numbered_from (connection_text outputs.now.version) 0 outputs.now.sessions) }
{
    for conn in 0..outputs.count() {
        write_connection(sink, outputs, conn)?;
    }
    Ok(())
}

// Writes the records of a connection.
fn write_connection<K: Sink>(sink: &mut K, outputs: &Outputs, conn: u32) -> Result<(), Failed>
    requires within { conn < length outputs.now.sessions }
    ensures writes { Writes K.holds K.faults K.finishes sink.old sink.new result
        (connection_text outputs.now.version conn (sessions_of outputs.now.sessions conn)) }
{
    for session in 0..outputs.sessions(conn) {
        write_output(
            sink,
            outputs.version(),
            conn,
            session,
            outputs.output(conn, session),
        )?;
    }
    Ok(())
}

// Writes a record.
fn write_output<K: Sink>(
    sink: &mut K,
    version: u32,
    conn: u32,
    session: u32,
    bytes: &[u8],
) -> Result<(), Failed>
    ensures writes { Writes K.holds K.faults K.finishes sink.old sink.new result
        (output_text version conn session bytes.now) }
{
    let conn = conn.to_be_bytes();
    let session = session.to_be_bytes();
    let length = (bytes.len() as u64).to_be_bytes();
    if version == 2 {
        write_pieces(sink, &[b"R", &conn, &session, &length, bytes])
    } else {
        write_pieces(sink, &[b"R", &conn, &length, bytes])
    }
}
