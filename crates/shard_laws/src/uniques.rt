//! Laws of CAS values.
ghost use Rattle.shard_laws.specs.Laws.{UniquesRise, UniquesDiffer};

/// In a legal list the CAS values that are given on one shard rise strictly, and are above its number.
pub fn uniques_of_a_shard_rise()
    ensures rise { UniquesRise }
{}

/// In a legal list no CAS value is given on two shards.
pub fn uniques_of_two_shards_differ()
    ensures differ { UniquesDiffer }
{}
