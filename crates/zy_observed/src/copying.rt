//! Copies of calls.
ghost use Rattle.std.specs.Prelude.{◌≡◌, IfOk};

use mc_allows::Shown;
use zy_base::NoMemory;
use zy_refute::Observed;

/// Copies a call, with what is shown of it.
pub(crate) fn copy_of(call: &Observed) -> Result<Observed, NoMemory>
    ensures value { IfOk result (λ copy. copy ≡ call.now) }
{
    let own = call.call.copy()?;
    match copy_shown(&call.shown) {
        Ok(shown) => Ok(Observed {
            name: call.name,
            shard: call.shard,
            call: own,
            shown,
            unique: call.unique,
            sure: call.sure,
            sent: call.sent,
            ended: call.ended,
        }),
        Err(refused) => {
            drop(own);
            Err(refused)
        }
    }
}

// Copies what is shown of a call.
fn copy_shown(shown: &Shown) -> Result<Shown, NoMemory>
    ensures value { IfOk result (λ copy. copy ≡ shown.now) }
{
    match shown {
        Shown::Nothing => Ok(Shown::Nothing),
        Shown::NoFailure => Ok(Shown::NoFailure),
        Shown::Reply { reply } => Ok(Shown::Reply {
            reply: reply.copy()?,
        }),
        Shown::SomeHit => Ok(Shown::SomeHit),
        Shown::HitWith { value } => Ok(Shown::HitWith {
            value: value.copy()?,
        }),
        Shown::Failure => Ok(Shown::Failure),
    }
}
