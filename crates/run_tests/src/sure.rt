//! What a test relies on: memory, and that what it saw is right.
ghost use Rattle.std.specs.Prelude.{◌≡◌, Ok, true};

use std::process::Abort;

/// Returns the result of a call; the test ends if an allocation failed.
pub(crate) fn sure<T, E>(rt: &impl Abort, made: Result<T, E>) -> T
    ensures value { made ≡ Ok result }
{
    match made {
        Ok(value) => value,
        Err(_) => panic!(rt; "no memory"),
    }
}

/// Ends the test if what it saw is not right.
pub(crate) fn must(rt: &impl Abort, is_right: bool)
    ensures value { is_right ≡ true }
{
    assert!(rt; is_right);
}
