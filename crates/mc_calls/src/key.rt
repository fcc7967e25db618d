//! Keys and their shards.
ghost use Rattle.std.specs.Prelude.{◌≡◌, ◌<◌, ◌≤◌};
ghost use Rattle.mc_calls.specs.Key as keys;

/// Returns the number of a key's shard, among `shards` shards: its 32-bit FNV-1a hash, modulo
/// `shards`.
pub fn shard_of(key: &[u8], shards: u32) -> u32
    requires some { 1 ≤ shards }
    ensures value { result ≡ keys.shard_of key.now shards }
    ensures within { result < shards }
{
    hash_of(key) % shards
}

/// Returns the 32-bit FNV-1a hash of a key.
pub fn hash_of(key: &[u8]) -> u32
    ensures value { result ≡ keys.hash_of key.now }
{
    let mut hash: u32 = 2_166_136_261;
    for byte in key {
        hash = (hash ^ *byte as u32).wrapping_mul(16_777_619);
    }
    hash
}
