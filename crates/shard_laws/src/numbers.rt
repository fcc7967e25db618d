//! Laws of numbers and of keys: the published hashes, and digits.
ghost use Rattle.std.specs.Prelude.{◌≡◌, ◌<◌, ◌^◌, ℕ, [], codes, decimal, None, Some};
ghost use Rattle.zy_base.specs.Number.{number_of};
ghost use Rattle.mc_calls.specs.Key.{hash_of, shard_of};

/// Example keys: the published hashes of FNV-1a, and the shards that they give.
pub fn worked_shards()
    ensures nothing { hash_of [] ≡ 2166136261 }
    ensures letter { hash_of (codes "a") ≡ 3826002220 }
    ensures word { hash_of (codes "foobar") ≡ 3214735720 }
    ensures one { shard_of (codes "a") 1 ≡ 0 }
    ensures few { shard_of (codes "a") 16 ≡ 12 }
    ensures other { shard_of (codes "b") 16 ≡ 5 }
    ensures third { shard_of (codes "c") 16 ≡ 2 }
    ensures most { shard_of (codes "a") 256 ≡ 44 }
{}

/// Example numbers: 1 to 20 digits, and a number below 2^64.
pub fn worked_numbers()
    ensures none { number_of [] ≡ None }
    ensures zero { number_of (codes "0") ≡ Some 0 }
    ensures padded { number_of (codes "007") ≡ Some 7 }
    ensures greatest { number_of (codes "18446744073709551615") ≡ Some 18446744073709551615 }
    ensures greater { number_of (codes "18446744073709551616") ≡ None }
    ensures digits { number_of (codes "00000000000000000001") ≡ Some 1 }
    ensures long { number_of (codes "000000000000000000001") ≡ None }
    ensures sign { number_of (codes "+1") ≡ None }
    ensures space { number_of (codes "1 ") ≡ None }
{}

/// A number below 2^64 is read back from its digits.
pub fn digits_are_read_back()
    ensures value { (number : ℕ) → number < 2 ^ 64 → number_of (decimal number) ≡ Some number }
{}
