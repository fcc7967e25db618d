//! A reference that a caller lent and gets back.
ghost use Rattle.std.specs.Prelude.{◌≡◌};

/// Does nothing. The call tells the prover that the reference handed back is the one that was lent.
pub fn take_back<T>(lent: &mut T)
    ensures value { lent.new ≡ lent.old }
{}
