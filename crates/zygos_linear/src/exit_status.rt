//! The exit status.
ghost use Rattle.std.specs.Prelude.{◌≡◌};
ghost use Rattle.zygos_linear.specs.ExitStatus.{status_for};

use crate::finding::Finding;
use zy_shell::Failure;
use zy_times::Timing;

/// Returns the exit status of an answer: 0 if the recording is linearizable, and 1 if it is not; of
/// a failure its own.
pub fn status(answer: &Result<Finding, Failure>) -> u8
    ensures value { result ≡ status_for answer.now }
{
    match answer {
        Ok(Finding::Run(Timing::InTime { .. })) => 0,
        Ok(_) => 1,
        Err(failure) => failure.status(),
    }
}
