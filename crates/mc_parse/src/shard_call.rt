//! Calls with the shards that they are made on.
use mc_calls::Call;
use zy_base::Items;

/// A call on a shard.
#[derive(Drop)]
pub struct ShardCall {
    pub shard: u32,
    pub call: Call,
}

/// A list of calls with their shards.
pub type Calls = Items<ShardCall>;
