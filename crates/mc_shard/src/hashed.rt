//! Keys with their hashes.
ghost use Rattle.std.specs.Prelude.{◌≡◌, ◌<◌, IfOk, Some, refl};
ghost use Rattle.std.specs.Ordering.{eq_by_cmp};
ghost use Rattle.std.specs.Cmp.{partial_equiv_from_equiv, partial_order_from_total, eq_by_cmp_equiv};
ghost use Rattle.std.specs.BTreeMap.{is_at};
ghost use Rattle.std.specs.BTreeMap.Comparable.{le_lt_trans};
ghost use Rattle.mc_calls.specs.Call.{key_of};
ghost use Rattle.mc_calls.specs.Key.{hash_of};
ghost use Rattle.mc_shard.specs.Contents.{hashed_cmp, hashed_total};
ghost use Rattle.mc_shard.specs.Places.{line_of};

use mc_calls::{Call, hash_of};
use std::cmp::Ordering;
use std::collections::btree_map::Comparable;
use std::marker::Model;
use zy_base::{Blob, NoMemory};

/// A key with its hash. Contracts see it as the key.
#[derive(Drop)]
pub struct Hashed {
    hash: u32,
    key: Blob,
}

impl Model for Hashed {
    ghost use Rattle.std.specs.Prelude.{◌≡◌, ℕ, List};
    ghost use Rattle.mc_calls.specs.Key.{hash_of};

    ghost Value = { List ℕ };

    ghost view = { λ k. k.key };

    ghost invariant = { λ k. k.hash ≡ hash_of k.key };
}

impl Hashed {
    /// Lends the key, with its hash.
    #[inline(always)]
    pub fn sought(&self) -> Sought<'_>
        ensures value { result ≡ self.now }
    {
        Sought {
            hash: self.hash,
            key: &self.key,
        }
    }
}

/// A key that is lent, with its hash. Contracts see it as the key.
#[derive(Drop)]
pub struct Sought<'a> {
    hash: u32,
    key: &'a Blob,
}

impl<'a> Model for Sought<'a> {
    ghost use Rattle.std.specs.Prelude.{◌≡◌, ℕ, List};
    ghost use Rattle.mc_calls.specs.Key.{hash_of};

    ghost Value = { List ℕ };

    ghost view = { λ k. k.key.now };

    ghost invariant = { λ k. k.hash ≡ hash_of k.key.now };
}

impl<'a> Sought<'a> {
    /// Lends a key that has this hash.
    #[inline(always)]
    pub fn with_hash(key: &'a Blob, hash: u32) -> Sought<'a>
        requires hash { hash ≡ hash_of key.now }
        ensures value { result ≡ key.now }
    {
        Sought { hash, key }
    }

    /// Lends the key of a call, with its hash; a flush and a tally have none.
    #[inline(always)]
    pub fn of_call(call: &'a Call) -> Option<Sought<'a>>
        ensures value { result ≡ key_of call.now }
    {
        match call.key() {
            Some(key) => Some(Sought::with_hash(key, hash_of(key.bytes()))),
            None => None,
        }
    }

    /// Returns its hash.
    #[inline(always)]
    pub fn hash(&self) -> u32
        ensures value { result ≡ hash_of self.now }
    {
        self.hash
    }

    /// Returns the number of its line: the hash without this many of its last bits.
    #[inline(always)]
    pub fn line(&self, shift: u32) -> usize
        requires within { shift < 32 }
        ensures value { result ≡ line_of shift self.now }
    {
        (self.hash >> shift) as usize
    }

    /// Checks whether it is this key.
    #[inline(always)]
    pub fn has(&self, other: &Blob) -> bool
        ensures value { result ≡ is_at (hashed_cmp self.now) other.now }
    {
        *self.key == *other
    }

    /// Copies the bytes of the key.
    pub fn copied_key(&self) -> Result<Blob, NoMemory>
        ensures value { IfOk result (λ copy. copy ≡ self.now) }
    {
        self.key.copy()
    }

    /// Copies the key, with its hash.
    #[inline(always)]
    pub fn copy(&self) -> Result<Hashed, NoMemory>
        ensures value { IfOk result (λ copy. copy ≡ self.now) }
    {
        let hash = self.hash;
        let key = self.key.copy()?;
        Ok(Hashed { hash, key })
    }
}

// Trees are searched for keys that are lent.
impl<'a, 'b> Comparable<Hashed> for &'b Sought<'a> {
    ghost compare = { λ q. hashed_cmp q.now };

    ghost respects_cmp = { λ q. hashed_total.congr q.now };

    ghost below_greater = { λ q. le_lt_trans hashed_total q.now };

    fn compare(&self, key: &Hashed) -> Ordering {
        match self.hash.cmp(&key.hash) {
            Ordering::Equal => self.key.cmp(&key.key),
            order => order,
        }
    }
}

impl PartialEq for Hashed {
    ghost eq = { eq_by_cmp hashed_cmp };

    ghost laws = { partial_equiv_from_equiv (eq_by_cmp_equiv hashed_total) };

    fn eq(&self, other: &Hashed) -> bool {
        self.hash == other.hash && self.key == other.key
    }
}

impl Eq for Hashed {
    ghost laws = { eq_by_cmp_equiv hashed_total };
}

impl PartialOrd for Hashed {
    ghost partial_cmp = { λ x y. Some (hashed_cmp x y) };

    ghost laws = { partial_order_from_total hashed_total };

    fn partial_cmp(&self, other: &Hashed) -> Option<Ordering> {
        Some(self.cmp(other))
    }
}

// Keys are ordered by their hashes, and those with the same hash as in a dictionary.
impl Ord for Hashed {
    ghost cmp = { hashed_cmp };

    ghost total = { hashed_total };

    ghost matches_partial_cmp = { λ x y. refl };

    ghost matches_eq = { λ x y. refl };

    fn cmp(&self, other: &Hashed) -> Ordering {
        match self.hash.cmp(&other.hash) {
            Ordering::Equal => self.key.cmp(&other.key),
            order => order,
        }
    }
}
