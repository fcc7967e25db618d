//! What is checked.
ghost use Rattle.std.specs.Prelude.{◌≡◌, ◌^◌, ◌<◌, ◌≤◌, [], length, option_map};
ghost use Rattle.std.specs.List.{slice_index_or};
ghost use Rattle.zy_capture.specs.Streams.{sessions_of};
ghost use Rattle.zy_check.specs.Given.{all_given, found_output};

use mc_calls::Hold;
use std::marker::Model;
use zy_capture::{Outputs, Streams};
use zy_journal::{Journal, Walk};

/// The streams, the journal and the outputs that are checked, on `shards` shards.
#[derive(Drop)]
pub struct Files<'a> {
    streams: &'a Streams,
    journal: &'a Journal,
    outputs: &'a Outputs,
    shards: u32,
}

impl<'a> Model for Files<'a> {
    ghost use Rattle.std.specs.Prelude.{◌≤◌};
    ghost use Rattle.zy_check.specs.Given.{Given, all_given};

    ghost Value = { Given };

    ghost view = { λ f. all_given f.shards f.streams.now f.journal.now f.outputs.now };

    ghost invariant = { λ f. (1 ≤ f.shards) × (f.shards ≤ 256) };
}

impl<'a> Files<'a> {
    /// Makes it of these, on `shards` shards.
    pub fn new(
        streams: &'a Streams,
        journal: &'a Journal,
        outputs: &'a Outputs,
        shards: u32,
    ) -> Files<'a>
        requires some { 1 ≤ shards }
        requires limit { shards ≤ 256 }
        ensures value { result ≡ all_given shards streams.now journal.now outputs.now }
    {
        Files {
            streams,
            journal,
            outputs,
            shards,
        }
    }

    /// Returns the number of shards.
    pub fn shards(&self) -> u32
        ensures value { result ≡ self.now.shards }
        ensures some { 1 ≤ result }
        ensures limit { result ≤ 256 }
    {
        self.shards
    }

    /// Returns the entries of the journal.
    pub fn entries(&self) -> Walk<'a>
        ensures value { result ≡ self.now.entries }
    {
        self.journal.entries()
    }

    /// Returns the holds of the journal.
    pub fn holds(&self) -> &'a [Hold]
        ensures value { result.now ≡ self.now.holds }
    {
        self.journal.holds()
    }

    /// Returns the number of connections that have a stream.
    pub fn count(&self) -> u32
        ensures value { result ≡ length self.now.streams }
    {
        self.streams.count()
    }

    /// Returns the number of sessions of a connection.
    pub fn sessions(&self, conn: u32) -> u32
        requires within { conn < length self.now.streams }
        ensures value { result ≡ length (sessions_of self.now.streams conn) }
        ensures limit { result ≤ 2 ^ 31 }
    {
        self.streams.sessions(conn)
    }

    /// Returns the stream of a session of a connection.
    pub fn stream(&self, conn: u32, session: u32) -> &'a [u8]
        requires within { conn < length self.now.streams }
        requires session { session < length (sessions_of self.now.streams conn) }
        ensures value { result.now ≡ slice_index_or (sessions_of self.now.streams conn) session [] }
    {
        self.streams.stream(conn, session)
    }

    /// Returns the number of outputs of a connection.
    pub fn output_count(&self, conn: u32) -> u32
        ensures value { result ≡ length (sessions_of self.now.outputs conn) }
        ensures there { 0 < result → conn < length self.now.outputs }
        ensures none { result ≡ 0 → length self.now.outputs ≤ conn }
    {
        if conn < self.outputs.count() {
            self.outputs.sessions(conn)
        } else {
            0
        }
    }

    /// Returns the output of a session of a connection, if there is one.
    pub fn output(&self, conn: u32, session: u32) -> Option<&'a [u8]>
        ensures value { option_map (λ bytes. bytes.now) result ≡ found_output self.now conn session }
    {
        if session < self.output_count(conn) {
            Some(self.outputs.output(conn, session))
        } else {
            None
        }
    }
}
