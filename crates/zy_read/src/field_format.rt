//! A format whose texts are fields, one after another.
ghost use Rattle.std.specs.Prelude.{◌≡◌, ◌+◌, ◌-◌, ◌<◌, ◌≤◌, ◌^◌, ◌∷◌, [], ℕ, List, length, take, Err, true};
ghost use Rattle.zy_read.specs.declared.not_taken.NotTaken.TheVariants.{NoMemory};
ghost use Rattle.zy_read.specs.Fields.{Fields, IsLawful};
ghost use Rattle.zy_read.specs.Runs.{RunsOver};
ghost use Rattle.zy_read.specs.FieldReading.{width_of, Judges, IsQuiet};
ghost use Rattle.zy_read.specs.declared.shape.Shape.{Shape as Shapes};
ghost use Rattle.zy_read.specs.declared.shape.Shape.TheVariants as Kinds;

use crate::not_taken::NotTaken;
use crate::shape::Shape;
use std::alloc::Global;

/// The state of a format of fields: what its next field is, and how it is judged when it is whole.
/// A state does not change at a field that is wrong, or for which an allocation fails.
pub trait FieldFormat: Drop {
    /// The record that a field ends.
    type Gives: Drop;

    /// A fault of a text.
    type Fault: Copy + Drop;

    /// What a whole text is.
    ghost Verdict: { Type 0 };

    /// The fields.
    ghost fields: { Fields Self Self.Gives Self.Fault };

    /// The verdict on a text that ends at its end, and gave these records.
    ghost good: { Self → List Self.Gives → Verdict };

    /// The verdict on a text with a fault.
    ghost bad: { Self.Fault → Verdict };

    /// The shape of the next field.
    ghost shape_of: { Self → Shapes };

    /// The state may be that at this place.
    ghost Fits: { Self → ℕ → Type 0 };

    /// The next field may need memory.
    ghost Wants: { Self → Type 0 };

    /// Returns the shape of the next field.
    fn shape(&self) -> Shape
        ensures value { result ≡ shape_of self.now };

    /// Checks whether a text may end here.
    fn is_end(&self) -> bool
        ensures value { result ≡ fields.is_end self.now };

    /// Checks whether it is known that the next field gives no record.
    fn is_quiet(&self) -> bool
        ensures value { result ≡ true
            → (at : ℕ) (field : List ℕ) → IsQuiet (fields.judge self.now at field) };

    /// Returns the most bytes of a text.
    fn limit(&self) -> u64
        ensures value { result ≡ fields.limit };

    /// Returns the fault of a text with more bytes.
    fn too_long(&self) -> Self::Fault
        ensures value { result ≡ fields.too_long };

    /// Returns the fault of a text that ends too early.
    fn truncated(&self, at: u64) -> Self::Fault
        ensures value { result ≡ fields.truncated at };

    /// Returns what a byte at this place does.
    fn judge_byte(
        &mut self,
        alloc: Global,
        at: u64,
        byte: u8,
    ) -> Result<Option<Self::Gives>, NotTaken<Self::Fault>>
        requires shape { shape_of self.old ≡ Kinds.Byte }
        requires fits { Fits self.old at }
        ensures value { Judges Fits Wants (fields.judge self.old at (byte ∷ [])) (at + 1)
            self.old self.new result };

    /// Returns what four bytes from this place on do.
    fn judge_four(
        &mut self,
        alloc: Global,
        at: u64,
        bytes: [u8; 4],
    ) -> Result<Option<Self::Gives>, NotTaken<Self::Fault>>
        requires shape { shape_of self.old ≡ Kinds.Four }
        requires fits { Fits self.old at }
        ensures value { Judges Fits Wants (fields.judge self.old at bytes) (at + 4)
            self.old self.new result };

    /// Returns what eight bytes from this place on do.
    fn judge_eight(
        &mut self,
        alloc: Global,
        at: u64,
        bytes: [u8; 8],
    ) -> Result<Option<Self::Gives>, NotTaken<Self::Fault>>
        requires shape { shape_of self.old ≡ Kinds.Eight }
        requires fits { Fits self.old at }
        ensures value { Judges Fits Wants (fields.judge self.old at bytes) (at + 8)
            self.old self.new result };

    /// Returns what a run of bytes from this place on does. It may move them out of their vector.
    fn judge_run(
        &mut self,
        alloc: Global,
        at: u64,
        bytes: &mut Vec<u8>,
    ) -> Result<Option<Self::Gives>, NotTaken<Self::Fault>>
        requires shape { shape_of self.old ≡ Kinds.Run (length bytes.old.items - 1) }
        requires some { 0 < length bytes.old.items }
        requires fits { Fits self.old at }
        ensures value { Judges Fits Wants (fields.judge self.old at bytes.old.items)
            (at + length bytes.old.items) self.old self.new result }
        ensures kept { result ≡ Err NoMemory → bytes.new.items ≡ bytes.old.items };

    /// Takes at once whole fields with which the bytes from this place on begin, and which give no
    /// record. There may be none. Returns the number of their bytes.
    fn judge_front(&mut self, alloc: Global, at: u64, bytes: &[u8]) -> usize
        requires fits { Fits self.old at }
        ensures within { result ≤ length bytes.now }
        ensures runs { RunsOver fields self.old at (take result bytes.now) self.new [] }
        ensures fits { Fits self.new (at + result) };

    /// A field has as many bytes as its shape says.
    ghost widths: { (s : Self) → fields.width s ≡ width_of (shape_of s) };

    /// A run may need memory.
    ghost runs: { (s : Self) (others : ℕ) → shape_of s ≡ Kinds.Run others → Wants s };

    /// A field has a byte; where a text may end, the next one is a byte, which is wrong after the
    /// limit.
    ghost lawful: { IsLawful fields };

    /// There is a number after the limit.
    ghost few: { fields.limit < 2 ^ 64 - 1 };

    /// The state before the first byte may be at the first place.
    ghost begins: { Fits fields.start 0 };
}
