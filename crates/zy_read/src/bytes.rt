//! Shows in proofs that the numbers of a slice of bytes are bytes.
ghost use Rattle.zy_read.specs.Bytes.{AreBytes};

/// Does nothing. A call tells the prover that the numbers of the slice are bytes.
pub fn are_bytes(bytes: &[u8])
    ensures value { AreBytes bytes.now }
{}
