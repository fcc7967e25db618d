//! Readers that are fed bytes, one by one or in pieces.
ghost use Rattle.std.specs.Prelude.{◌≡◌, ◌+◌, ◌<◌, ◌≤◌, ℕ, [], ◌∷◌, length, take, drop, get_or, Err, Ok, None};
ghost use Rattle.zy_read.specs.Format.{Format, IsLasting};
ghost use Rattle.zy_read.specs.Standing.{given_in, Feeds, FeedsAs, TellsFault, TellsLasting, Follows};
ghost use Rattle.zy_read.specs.declared.not_taken.NotTaken.TheVariants.{NoMemory};

use crate::fed::{Fed, goes_on};
use crate::not_taken::NotTaken;

/// A reader of the texts of a format.
pub trait Reads {
    /// What the reader yields: the record that a byte ends.
    type Gives: Drop;

    /// A fault of a text.
    type Fault: Drop;

    /// What a whole text is.
    ghost Verdict: { Type 0 };

    /// The format.
    ghost format: { Format Self Self.Gives Self.Fault Verdict };

    /// The reader may need memory for this byte.
    ghost wants: { Self → ℕ → Type 0 };

    /// Takes the next byte.
    fn step(&mut self, byte: u8) -> Result<Option<Self::Gives>, NotTaken<Self::Fault>>
        ensures value { Follows format wants (format.step self.old byte)
            self.old self.new byte result };

    /// Takes at once bytes that end nothing, from some place on, but not the last one of the piece.
    /// Returns how many, which may be none.
    fn take_run(&mut self, bytes: &[u8], at: usize) -> usize
        requires place { at < length bytes.now }
        ensures within { at + result < length bytes.now }
        ensures fed { Feeds format self.old self.new (take result (drop at bytes.now)) [] };

    /// The first fault counts.
    ghost lasting: { IsLasting format };
}

/// Takes the next byte, and gives the record that it ends.
///
/// After a fault each call answers that same fault.
pub fn feed<R: Reads>(reader: &mut R, byte: u8) -> Result<Option<R::Gives>, NotTaken<R::Fault>>
    ensures fed { FeedsAs R.format reader.old reader.new (byte ∷ []) result }
    ensures exact { TellsFault R.format reader.old (byte ∷ []) result }
    ensures lasts { TellsLasting R.format reader.old (byte ∷ []) result }

    // If an allocation failed.
    ensures kept { result ≡ Err NoMemory → reader.new ≡ reader.old }
    ensures memory { result ≡ Err NoMemory → R.wants reader.old byte }
{
    reader.step(byte)
}

/// Takes bytes up to and including the one that ends the first record or is the first fault, or all
/// of them if there is none. The answer is the one that `feed` gives to that last byte.
///
/// After `NoMemory` the bytes before the one that needs memory are taken.
pub fn feed_piece<R: Reads>(reader: &mut R, bytes: &[u8]) -> Fed<R::Gives, R::Fault>
    requires some { 0 < length bytes.now }
    ensures within { result.taken ≤ length bytes.now }
    ensures none { result.answer ≡ Ok None → result.taken ≡ length bytes.now }
    ensures taken { (gave : _) → result.answer ≡ Ok gave → 0 < result.taken }
    ensures fed { Feeds R.format reader.old reader.new (take result.taken bytes.now)
        (given_in result.answer) }
    ensures exact { TellsFault R.format reader.old (take result.taken bytes.now) result.answer }
    ensures lasts { TellsLasting R.format reader.old (take result.taken bytes.now) result.answer }
    ensures memory { result.answer ≡ Err NoMemory
        → R.wants reader.new (get_or bytes.now result.taken 0) }
{
    let mut at = 0;
    while at < bytes.len() {
        at += reader.take_run(bytes, at);
        if let Err(answer) = goes_on(reader.step(bytes[at])) {
            return Fed::at(at, answer);
        }
        at += 1;
    }
    Fed {
        taken: at,
        answer: Ok(None),
    }
}
