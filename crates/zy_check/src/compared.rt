//! Comparing outputs, text by text.
ghost use Rattle.std.specs.Prelude.{◌≡◌, drop, Some, option_map};
ghost use Rattle.zy_check.specs.Comparing.{AddsText, Finishes};

use crate::bytes::agreeing;

/// A session whose output is not the expected one, and the number of first bytes that agree.
#[derive(Clone, Copy)]
pub struct Differing {
    pub session: u32,
    pub at: u64,
}

/// The number of first bytes that agree of the output that is compared, until a session's output
/// differs.
#[derive(Drop)]
pub struct Compared {
    pub at: usize,
    pub differing: Option<Differing>,
}

impl Compared {
    /// Compares the next text with what was found of this session's output.
    pub fn add(&mut self, found: Option<&[u8]>, session: u32, text: &[u8])
        ensures added { AddsText (option_map (λ bytes. bytes.now) found.entry) session text.now
            self.old self.new }
    {
        if self.differing.is_some() {
            return;
        }
        let Some(found) = found else {
            self.differ(session);
            return;
        };
        let same = agreeing(behind(found, self.at), text);
        self.at += same;
        if same < text.len() {
            self.differ(session);
        }
    }

    /// Ends the output of this session.
    pub fn end(&mut self, found: Option<&[u8]>, session: u32)
        ensures ended { Finishes (option_map (λ bytes. bytes.now) found.entry) session
            self.old self.new }
    {
        if self.differing.is_some() {
            return;
        }
        let Some(found) = found else {
            self.differ(session);
            return;
        };
        if self.at < found.len() {
            self.differ(session);
        } else {
            self.at = 0;
        }
    }

    // Notes that the output of this session differs after the bytes that agree.
    fn differ(&mut self, session: u32)
        ensures value { self.new ≡ record self.old {
          differing = Some (record { session = session; at = self.old.at });
        } }
    {
        let at = self.at as u64;
        self.differing = Some(Differing { session, at });
    }
}

// Returns the bytes from a place on.
fn behind(found: &[u8], at: usize) -> &[u8]
    ensures value { result.now ≡ drop at found.now }
{
    if at < found.len() { &found[at..] } else { &[] }
}
