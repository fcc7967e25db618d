//! How many of some bytes were taken, and the answer to the last one.
ghost use Rattle.std.specs.Prelude.{◌≡◌, ◌<◌, ◌-◌, ◌^◌, ◌≢◌, Ok, None, OnOk, OnErr, IfErr};
ghost use Rattle.zy_read.specs.Standing.{taken_with};

use crate::not_taken::NotTaken;

/// The number of bytes taken, and the answer to the last one.
/// Take it apart by `let Fed { taken, answer } = ..`.
#[derive(Drop)]
pub struct Fed<G, F> {
    /// The number of bytes taken; after `NoMemory`, of those before the byte that needs memory.
    pub taken: usize,
    /// A record or a fault at the last byte taken; `Ok(None)` if all bytes were taken.
    pub answer: Result<Option<G>, NotTaken<F>>,
}

impl<G: Drop, F: Drop> Fed<G, F> {
    /// Returns the answer to the byte after `before` others.
    pub fn at(before: usize, answer: Result<Option<G>, NotTaken<F>>) -> Fed<G, F>
        requires room { before < 2 ^ 64 - 1 }
        ensures taken { result.taken ≡ taken_with before answer }
        ensures answer { result.answer ≡ answer }
    {
        match answer {
            Err(NotTaken::NoMemory) => Fed {
                taken: before,
                answer: Err(NotTaken::NoMemory),
            },
            answer => Fed {
                taken: before + 1,
                answer,
            },
        }
    }
}

/// Answers `Ok` if a byte was taken that ended nothing; otherwise returns the answer.
pub fn goes_on<G: Drop, F: Drop>(
    answer: Result<Option<G>, NotTaken<F>>,
) -> Result<(), Result<Option<G>, NotTaken<F>>>
    ensures ok { OnOk result (answer ≡ Ok None) }
    ensures returned { IfErr result (λ e. e ≡ answer) }
    ensures none { OnErr result (answer ≢ Ok None) }
{
    match answer {
        Ok(None) => Ok(()),
        answer => Err(answer),
    }
}
