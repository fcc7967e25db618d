//! Answers of the top call.
ghost use Rattle.std.specs.Prelude.{◌≡◌};
ghost use Rattle.zygos_run.specs.Answers.{status_of};

use zy_check::Verdict;
use zy_journal::Journal;
use zy_run::Summary;
use zy_shell::Failure;

/// What a command answers that was executed.
#[derive(Drop)]
pub enum Answer {
    /// `run`: the capture was read to its end, its commands were executed, and all was written.
    /// The journal has every call on the store with its reply, and for each hold its core, its
    /// connection and the number of commands finished in it.
    Served(Journal),
    /// `check`: the input was read to its end. This is the verdict on it, whose line was written.
    Checked(Verdict),
    /// `gen` or `pcap`: the capture was made and written. `report`: the report was made and
    /// written.
    Made,
    /// `self`: the capture was made, served and checked, and the line of these numbers was written.
    Tested(Journal, Summary),
}

/// Returns the exit status of an answer.
pub fn status(answer: &Result<Answer, Failure>) -> u8
    ensures value { result ≡ status_of answer.now }
{
    match answer {
        Ok(Answer::Served(_) | Answer::Made | Answer::Tested(_, _)) => 0,
        Ok(Answer::Checked(Verdict::Yes)) => 0,
        Ok(Answer::Checked(Verdict::No(_))) => 1,
        Err(failure) => failure.status(),
    }
}
