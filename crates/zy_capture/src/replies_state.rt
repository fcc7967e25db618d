//! The state of a replies file, and what its fields do.
ghost use Rattle.std.specs.Prelude.{◌≡◌, ◌+◌, ◌∷◌, [], ℕ, length, refl};
ghost use Rattle.zy_read.specs.declared.shape.Shape.TheVariants as Kinds;
ghost use Rattle.zy_capture.specs.RepliesSteps.{replies_fields, shape, start, may_come, due_session, after_output};
ghost use Rattle.zy_capture.specs.Replies.{AreNumbers};
ghost use Rattle.zy_capture.specs.RepliesVerdict.{Verdict, good};
ghost use Rattle.zy_capture.specs.RepliesVerdict.Verdict.{Bad};
ghost use Rattle.zy_capture.specs.RepliesStanding.{IsInRepliesBounds, IsOutputDue};
ghost use Rattle.zy_capture.specs.RepliesLaws.{widths, runs, lawful, few, begins};

use crate::replies_due::RepliesDue;
use crate::session_bytes::SessionBytes;
use std::alloc::Global;
use std::mem;
use zy_base::{Blob, CONNECTION_LIMIT, FileFault};
use zy_read::{FieldFormat, FileFeed, MagicPart, MagicStep, NotTaken, Shape};

const REPLIES_LIMIT: u64 = 9_223_372_036_854_775_807;

const LETTERS: &[u8; 6] = b"ZYGREP";

const SESSION_LIMIT: u32 = 2_147_483_648;

/// What was read of a replies file, up to some field.
#[derive(Clone, Copy)]
pub(crate) struct RepliesState {
    /// What is expected next.
    due: RepliesDue,
    /// The version, or 0 before the magic was read.
    pub(crate) version: u32,
    /// How many connections have an output.
    connections: u32,
    /// How many sessions the last one of them has.
    sessions: u32,
}

impl RepliesState {
    // Makes the state before the first byte.
    pub(crate) fn new() -> RepliesState
        ensures value { result ≡ start }
    {
        RepliesState {
            due: RepliesDue::Magic(MagicPart::Letters),
            version: 0,
            connections: 0,
            sessions: 0,
        }
    }

    // Checks whether a record of this connection may come next.
    fn may_come(&self, conn: u32) -> bool
        ensures value { result ≡ may_come self.now conn }
    {
        conn < CONNECTION_LIMIT
            && (conn == self.connections || (self.version == 2 && conn + 1 == self.connections))
    }

    // Returns the next session of a connection.
    fn due_session(&self, conn: u32) -> u32
        ensures value { result ≡ due_session self.now conn }
    {
        if conn == self.connections {
            0
        } else {
            self.sessions
        }
    }

    // Ends the output of this session, at its last byte.
    fn end_output(&mut self, conn: u32, session: u32, bytes: Blob) -> SessionBytes
        requires within { AreNumbers conn session }
        ensures value { self.new ≡ after_output self.old conn session }
        ensures given { result ≡ record { conn = conn; session = session; bytes = bytes } }
    {
        self.due = RepliesDue::Tag;
        self.connections = conn + 1;
        self.sessions = session + 1;
        SessionBytes {
            conn,
            session,
            bytes,
        }
    }
}

impl FieldFormat for RepliesState {
    type Gives = SessionBytes;

    type Fault = FileFault;

    ghost Verdict = { Verdict };

    ghost fields = { replies_fields };

    ghost good = { good };

    ghost bad = { Bad };

    ghost shape_of = { λ s. shape s.due };

    ghost Fits = { λ s at. IsInRepliesBounds s.due at };

    ghost Wants = { IsOutputDue };

    fn shape(&self) -> Shape {
        match self.due {
            RepliesDue::Connection | RepliesDue::Session { .. } => Shape::Four,
            RepliesDue::Length { .. } => Shape::Eight,
            RepliesDue::Output { others, .. } => Shape::Run(others),
            _ => Shape::Byte,
        }
    }

    fn is_end(&self) -> bool {
        matches!(self.due, RepliesDue::Nothing)
    }

    // Checks whether the next field gives no record; an output ends one, and so does a length of 0.
    #[tactic(auto, using(crate::proofs::RepliesFeeding::quiet))]
    fn is_quiet(&self) -> bool {
        !matches!(
            self.due,
            RepliesDue::Length { .. } | RepliesDue::Output { .. }
        )
    }

    fn limit(&self) -> u64 {
        REPLIES_LIMIT
    }

    fn too_long(&self) -> FileFault {
        FileFault::TooLong
    }

    fn truncated(&self, at: u64) -> FileFault {
        FileFault::Truncated { at }
    }

    // Judges a byte of the magic, the tag of a record, or the end.
    fn judge_byte(
        &mut self,
        alloc: Global,
        at: u64,
        byte: u8,
    ) -> Result<Option<SessionBytes>, FileFeed> {
        self.due = match (self.due, byte) {
            (RepliesDue::Magic(part), _) => match part.step(LETTERS, at, byte) {
                MagicStep::Next(next) => RepliesDue::Magic(next),
                MagicStep::Whole { version } => {
                    self.version = version;
                    RepliesDue::Tag
                }
                MagicStep::Wrong => return Err(NotTaken::Fault(FileFault::Form { at })),
            },
            (RepliesDue::Tag, b'R') => RepliesDue::Connection,
            (RepliesDue::Tag, b'E') => RepliesDue::Nothing,
            _ => return Err(NotTaken::Fault(FileFault::Form { at })),
        };
        Ok(None)
    }

    // Judges the connection of a record, or its session, in version 2.
    fn judge_four(
        &mut self,
        alloc: Global,
        at: u64,
        bytes: [u8; 4],
    ) -> Result<Option<SessionBytes>, FileFeed> {
        let number = u32::from_be_bytes(bytes);
        self.due = match self.due {
            RepliesDue::Connection if self.may_come(number) => {
                if self.version == 2 {
                    RepliesDue::Session { conn: number }
                } else {
                    RepliesDue::Length {
                        conn: number,
                        session: 0,
                    }
                }
            }
            RepliesDue::Session { conn }
                if number == self.due_session(conn) && number < SESSION_LIMIT => {
                RepliesDue::Length {
                    conn,
                    session: number,
                }
            }
            _ => return Err(NotTaken::Fault(FileFault::Form { at })),
        };
        Ok(None)
    }

    // Judges the length of an output.
    fn judge_eight(
        &mut self,
        alloc: Global,
        at: u64,
        bytes: [u8; 8],
    ) -> Result<Option<SessionBytes>, FileFeed> {
        let length = u64::from_be_bytes(bytes);
        match self.due {
            RepliesDue::Length { conn, session } if length == 0 => {
                Ok(Some(self.end_output(conn, session, Blob::new(alloc))))
            }
            RepliesDue::Length { conn, session } => {
                self.due = RepliesDue::Output {
                    conn,
                    session,
                    others: length - 1,
                };
                Ok(None)
            }
            _ => unreachable!(),
        }
    }

    // Judges a whole output.
    fn judge_run(
        &mut self,
        alloc: Global,
        at: u64,
        bytes: &mut Vec<u8>,
    ) -> Result<Option<SessionBytes>, FileFeed> {
        match self.due {
            RepliesDue::Output { conn, session, .. } => {
                let output = mem::replace(bytes, Vec::new(alloc));
                Ok(Some(self.end_output(conn, session, Blob::from_vec(output))))
            }
            _ => unreachable!(),
        }
    }

    // Takes none.
    #[tactic(auto, using(zy_read::proofs::OverLemmas::over_none))]
    fn judge_front(&mut self, alloc: Global, at: u64, bytes: &[u8]) -> usize {
        0
    }

    ghost widths = { widths };

    ghost runs = { runs };

    ghost lawful = { lawful };

    ghost few = { few };

    ghost begins = { begins };
}
