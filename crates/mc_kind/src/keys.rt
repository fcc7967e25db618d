//! The keys of a retrieval.
ghost use Rattle.std.specs.Prelude.{◌≡◌, ◌↔◌, true, false};
ghost use Rattle.std.specs.List.{AllByRecursion, Contains};
ghost use Rattle.mc_kind.specs.Piece.{IsKeyWord};

use memchr::memchr2;
use zy_base::Blob;

/// Checks whether no key has a space or a line feed.
pub fn are_words(keys: &[Blob]) -> bool
    ensures value { result ≡ true → AllByRecursion IsKeyWord keys.now }
{
    for i in 0..keys.len() {
        if !is_word(keys[i].bytes()) {
            return false;
        }
    }
    true
}

/// Checks whether a key has no space and no line feed.
pub fn is_word(key: &[u8]) -> bool
    ensures value { result ≡ true → IsKeyWord key.now }
{
    match memchr2(b' ', b'\n', key) {
        Some(_) => false,
        None => true,
    }
}

/// Checks whether a key is one of these.
pub(crate) fn has_key(keys: &[Blob], key: &[u8]) -> bool
    ensures yes { result ≡ true → Contains keys.now key.now }
    ensures no { result ≡ false → Contains keys.now key.now → Prim.⊥ }
{
    for i in 0..keys.len() {
        if is_same(keys[i].bytes(), key) {
            return true;
        }
    }
    false
}

// Checks whether two keys are the same.
fn is_same(one: &[u8], other: &[u8]) -> bool
    ensures value { (result ≡ true) ↔ (one.now ≡ other.now) }
{
    one == other
}
