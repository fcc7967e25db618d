//! Bytes of a piece that are kept.
ghost use Rattle.std.specs.Prelude.{◌≡◌, ◌≤◌, ◌++◌, length, take, IfOk, OnOk, OnErr};
ghost use Rattle.zy_base.specs.Rest.{IsRestOf};

use zy_base::{Blob, NoMemory};

// Appends the first `len` of the bytes that end a piece. They share the piece's bytes, if nothing
// was kept before and the piece shares its bytes.
#[tactic(auto, using(zy_base::proofs::RestLemmas::rest_length, zy_base::proofs::RestLemmas::rest_first))]
pub(crate) fn keep(kept: &mut Blob, piece: &Blob, bytes: &[u8], len: usize) -> Result<(), NoMemory>
    requires within { len ≤ length bytes.now }
    requires rest { IsRestOf bytes.now piece.now }
    ensures ok { OnOk result (kept.new ≡ kept.old ++ take len bytes.now) }
    ensures err { OnErr result (kept.new ≡ kept.old) }
{
    let from = piece.bytes().len() - bytes.len();
    kept.append_part(piece, from, from + len)
}

// Returns the first `len` of the bytes that end a piece. They share the piece's bytes, if the piece
// shares its bytes.
#[tactic(auto, using(zy_base::proofs::RestLemmas::rest_length, zy_base::proofs::RestLemmas::rest_first))]
pub(crate) fn first_part(piece: &Blob, bytes: &[u8], len: usize) -> Result<Blob, NoMemory>
    requires within { len ≤ length bytes.now }
    requires rest { IsRestOf bytes.now piece.now }
    ensures value { IfOk result (λ part. part ≡ take len bytes.now) }
{
    let from = piece.bytes().len() - bytes.len();
    piece.part(from, from + len)
}
