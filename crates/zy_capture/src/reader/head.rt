//! What a segment begins with, taken at once.
ghost use Rattle.std.specs.Prelude.{◌≡◌, ◌+◌, ◌≤◌, [], ◌∷◌, None, true, false};
ghost use Rattle.zy_read.specs.Standing.{Feeds};
ghost use Rattle.zy_capture.specs.Capture.{capture_limit};
ghost use Rattle.zy_capture.specs.Steps.{headed};
ghost use Rattle.zy_capture.specs.Verdict.{captures};

use super::Reader;
use super::steps::CAPTURE_LIMIT;
use crate::due::Due;

impl Reader {
    // Takes eight bytes, if they begin a segment of a connection below the count, up to the last
    // byte of its length. Says whether it did.
    #[tactic(auto, using(crate::proofs::HeadLemmas::head_fed))]
    pub(super) fn take_head(&mut self, head: &[u8]) -> bool
        requires none { self.old.fault ≡ None }
        ensures fed { result ≡ true → Feeds captures self.old self.new head.now [] }
        ensures kept { result ≡ false → self.new ≡ self.old }
    {
        match (&self.state.due, head) {
            (Due::Tag, [b'S', a, b, c, d, e, f, g]) if self.at < CAPTURE_LIMIT - 8 => {
                let conn = u32::from_be_bytes([*a, *b, *c, *d]);
                if conn >= self.state.count {
                    return false;
                }
                self.go_to_length(conn, *e, *f, *g);
                true
            }
            _ => false,
        }
    }

    // Goes on to the last byte of the length of a segment of this connection.
    pub(super) fn go_to_length(&mut self, conn: u32, e: u8, f: u8, g: u8)
        requires none { self.old.fault ≡ None }
        requires room { self.old.at + 8 ≤ capture_limit }
        ensures value { self.new ≡ headed self.old conn (e ∷ f ∷ g ∷ []) }
    {
        self.state.due = Due::Length { conn };
        self.field.clear();
        self.field.push(e);
        self.field.push(f);
        self.field.push(g);
        self.at += 8;
    }
}
