//! What was judged, with what is written of it.
ghost use Rattle.std.specs.Prelude.{◌≡◌};
ghost use Rattle.zygos_judge.specs.declared.finding.Finding.TheVariants.{Refuted, Unknown};
ghost use Rattle.zygos_judge.specs.declared.judged.Judged.TheVariants.{Plain};
ghost use Rattle.zygos_judge.specs.Input.{finding_in};

use crate::finding::{Finding, Open, Reason};
use zy_explain::Window;

/// What was judged.
#[derive(Drop)]
pub(crate) enum Judged {
    /// A window that is explained, with what its server has at last.
    Window(Window),
    /// Another finding.
    Plain(Finding),
}

impl Judged {
    // No order explains the recording.
    pub(crate) fn no(reason: Reason) -> Judged
        ensures value { result ≡ Plain (Refuted reason) }
    {
        Judged::Plain(Finding::Refuted(reason))
    }

    // Neither is known.
    pub(crate) fn open(why: Open) -> Judged
        ensures value { result ≡ Plain (Unknown why) }
    {
        Judged::Plain(Finding::Unknown(why))
    }

    // Returns the finding.
    pub(crate) fn finding(&self) -> Finding
        ensures value { result ≡ finding_in self.now }
    {
        match self {
            Judged::Window(led) => Finding::Explained {
                commands: led.numbers.commands,
                ended: led.numbers.ended,
            },
            Judged::Plain(finding) => *finding,
        }
    }
}
