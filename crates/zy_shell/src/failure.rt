//! How a program fails.
ghost use Rattle.std.specs.Prelude.{◌≡◌};
ghost use Rattle.zy_shell.specs.Failure.{failure_status};

use zy_input::Refusal;

/// Why a program did not do what its arguments request.
#[derive(Clone, Copy, PartialEq, Eq)]
pub enum Failure {
    /// The arguments are invalid. Nothing was read or written.
    Usage,
    /// The input has this error. Nothing was written.
    Refused(Refusal),
    /// Reading failed. Nothing was written.
    ReadFault,
    /// Writing failed. A prefix of the output was written.
    WriteFault,
    /// An allocation failed. Nothing was written.
    OutOfMemory,
}

impl Failure {
    /// Returns the exit status, which is the same in all programs.
    pub fn status(self) -> u8
        ensures value { result ≡ failure_status self }
    {
        match self {
            Failure::Usage => 2,
            Failure::Refused(_) => 3,
            Failure::ReadFault => 4,
            Failure::WriteFault => 5,
            Failure::OutOfMemory => 6,
        }
    }
}
