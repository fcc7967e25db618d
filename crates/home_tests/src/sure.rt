//! What a test relies on: memory.
ghost use Rattle.std.specs.Prelude.{◌≡◌, Ok};

use std::process::Abort;

/// Returns the result of a call; the test ends if an allocation failed.
pub(crate) fn sure<T, E>(rt: &impl Abort, made: Result<T, E>) -> T
    ensures value { made ≡ Ok result }
{
    match made {
        Ok(value) => value,
        Err(_) => panic!(rt; "no memory"),
    }
}
