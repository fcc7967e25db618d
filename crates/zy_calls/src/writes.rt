//! Writers of texts, which append their text to other bytes.
ghost use Rattle.std.specs.Prelude.{◌≡◌, ◌++◌, ℕ, List, OnOk, OnErr};

use zy_base::{Blob, NoMemory};

/// Writes a text after other bytes.
pub trait Writes {
    // It can write.
    ghost ready: { Self → Type 0 };

    // The text that it writes.
    ghost text: { Self → List ℕ };

    /// Appends the text; if allocation fails nothing was appended.
    fn write(&self, out: &mut Blob) -> Result<(), NoMemory>
        requires ready { ready self.now }
        ensures ok { OnOk result (out.new ≡ out.old ++ text self.now) }
        ensures err { OnErr result (out.new ≡ out.old) };
}
