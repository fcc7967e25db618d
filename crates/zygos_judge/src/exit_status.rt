//! The exit status.
ghost use Rattle.std.specs.Prelude.{◌≡◌};
ghost use Rattle.zygos_judge.specs.ExitStatus.{status_for};

use crate::finding::Finding;
use zy_shell::Failure;

/// Returns the exit status of an answer: 0 if the recording is explained, 1 if it is not, and 7 if
/// neither is known; of a failure its own.
pub fn status(answer: &Result<Finding, Failure>) -> u8
    ensures value { result ≡ status_for answer.now }
{
    match answer {
        Ok(Finding::Explained { .. }) => 0,
        Ok(Finding::Refuted(_)) => 1,
        Ok(Finding::Unknown(_)) => 7,
        Err(failure) => failure.status(),
    }
}
